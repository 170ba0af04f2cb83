//! Runs of decimal digits: what they count, and how many a number has.
ghost use Rattle.std.specs.Prelude.{◌≡◌, ◌+◌, ◌*◌, ◌^◌, ◌<◌, ◌≤◌, cond, nat_lt, length, decimal};
ghost use Rattle.std.specs.Char.{is_ascii_digit};
ghost use Rattle.std.specs.List.{prefix_len};
ghost use Rattle.std.specs.Str.Parse.{digits_value, digits_value_after};
ghost use Rattle.ring_words.specs.Cell as spec;

use crate::powers::power_of_ten;
use vocabulary::limits::MOST_FIELD_SCALE;
use vocabulary::marks::ZERO;

/// Larger numbers are cut down to this one, the first that no signed reading has the size of.
const CUT: u64 = 9_223_372_036_854_775_809;

/// The digits with which a text begins.
#[derive(Clone, Copy)]
pub struct Run {
    /// The number that they write, cut down to `CUT`.
    pub value: u64,
    /// How many there are.
    pub size: usize,
}

/// The digits with which `bytes` begin.
#[inline(always)]
pub fn leading_digits(bytes: &[u8]) -> Run
    ensures value { result.value ≡ spec.cut (digits_value 10 (spec.digits_at bytes.now)) }
    ensures size { result.size ≡ prefix_len is_ascii_digit bytes.now }
    ensures within { result.size ≤ length bytes.now }
{
    let mut value = 0;
    let mut size = 0;
    while size < bytes.len() && bytes[size].is_ascii_digit() {
        value = with_digit(value, bytes[size] - ZERO);
        size += 1;
    }
    Run { value, size }
}

/// The number that another digit makes of a number, cut down.
#[inline(always)]
fn with_digit(value: u64, digit: u8) -> u64
    requires below { digit < 10 }
    requires is_cut { value ≤ 2 ^ 63 + 1 }
    ensures { result ≡ spec.cut (value * 10 + digit) }
{
    if value > CUT / 10 {
        CUT
    } else {
        value * 10 + u64::from(digit)
    }
}

/// A number followed by this many zeros, cut down.
#[inline(always)]
pub fn with_zeros(value: u64, zeros: u32) -> u64
    requires { zeros ≤ MOST_FIELD_SCALE }
    ensures { result ≡ spec.cut (value * 10 ^ zeros) }
{
    value.saturating_mul(power_of_ten(zeros)).min(CUT)
}

/// The decimals with which a text begins.
#[derive(Clone, Copy)]
pub struct Decimals {
    /// The number that they make of the whole number before them, in units of the scale, cut down to `CUT`.
    pub units: u64,
    /// Whether one of those past the scale isn't 0.
    pub too_fine: bool,
    /// How many there are.
    pub size: usize,
}

/// The digits with which `bytes` begin, as the decimals at scale `d` after the number `whole`.
#[inline(always)]
pub fn leading_decimals(d: u32, whole: u64, bytes: &[u8]) -> Decimals
    requires scale { d ≤ MOST_FIELD_SCALE }
    requires is_cut { whole ≤ 2 ^ 63 + 1 }
    ensures units { result.units ≡ spec.cut (digits_value_after 10 whole (spec.decimals_to d (spec.digits_at bytes.now))) }
    ensures too_fine { result.too_fine ≡ spec.is_too_fine d (spec.digits_at bytes.now) }
    ensures size { result.size ≡ prefix_len is_ascii_digit bytes.now }
    ensures within { result.size ≤ length bytes.now }
{
    let scale = d as usize;
    let mut units = whole;
    let mut too_fine = false;
    let mut size = 0;
    while size < bytes.len() && bytes[size].is_ascii_digit() {
        if size < scale {
            units = with_digit(units, bytes[size] - ZERO);
        } else if bytes[size] != ZERO {
            too_fine = true;
        }
        size += 1;
    }
    let missing = scale.saturating_sub(size) as u32;
    Decimals {
        units: with_zeros(units, missing),
        too_fine,
        size,
    }
}

/// How many digits `n` has in decimal.
#[inline]
#[tactic(auto, using(crate::proofs::Lengths::lengths))]
pub fn digit_count(n: u64) -> usize
    ensures { result ≡ length (decimal n) }
{
    let mut count = 0;
    let mut left = n;
    while left >= 10_000 {
        left /= 10_000;
        count += 4;
    }
    if left >= 1_000 {
        count + 4
    } else if left >= 100 {
        count + 3
    } else if left >= 10 {
        count + 2
    } else {
        count + 1
    }
}
