//! Words at scales: they are brought to another scale, divided, and their square roots taken.
//!
//! A word at scale s counts units of 1/10^s by its signed reading.
ghost use Rattle.std.specs.Prelude.{◌≡◌, ℕ, ℤ, ◌+ℤ◌, ◌*ℤ◌, ◌≤ℤ◌, ◌<ℤ◌, ◌+◌, ◌*◌, ◌%◌, ◌^◌, ◌<◌, ◌≤◌, pos, neg_ℤ, if◌then◌else◌};
ghost use Rattle.ring_words.specs.Cell.{magnitude};
ghost use Rattle.ring_words.specs.Scale as spec;
ghost use Rattle.ring_words.specs.Word.{word};

use crate::arithmetic::is_negative;
use crate::powers::power_of_ten;
use vocabulary::limits::{MOST_SCALE, MOST_SCALE_CHANGE};

/// The word at scale `d` of a word at scale `s`: rounded down where decimals are lost, and modulo 2^64 where more are
/// counted.
#[inline]
#[tactic(auto, unfolding(crate::specs::Scale::rescale))]
pub fn rescale(w: u64, s: u32, d: u32) -> u64
    requires scales { (s ≤ MOST_SCALE) × (d ≤ MOST_SCALE) }
    requires change { (s ≤ d + MOST_SCALE_CHANGE) × (d ≤ s + MOST_SCALE_CHANGE) }
    ensures { result ≡ spec.rescale w s d }
{
    if s <= d {
        return w.wrapping_mul(power_of_ten(d - s));
    }
    let unit = power_of_ten(s - d);
    if is_negative(w) {
        !(!w / unit)
    } else {
        w / unit
    }
}

/// The quotient of `a` at scale `s` by `b` at scale `t`, as a word at scale `d`: rounded down, and modulo 2^64. There is
/// none exactly where `b` is 0.
#[inline]
#[tactic(auto, unfolding(crate::specs::Scale::quot))]
pub fn quot(a: u64, s: u32, b: u64, t: u32, d: u32) -> Option<u64>
    requires scales { (s ≤ MOST_SCALE) × (t ≤ MOST_SCALE) × (d ≤ MOST_SCALE) }
    requires change { (s ≤ d + t) × (d + t ≤ s + MOST_SCALE_CHANGE) }
    ensures value { result ≡ spec.quot a s b t d }
    ensures floor { (n : ℤ) (m : ℕ) → 0 < m → ((spec.floor_by n m *ℤ pos m) ≤ℤ n) × (n <ℤ ((spec.floor_by n m *ℤ pos m) +ℤ pos m)) }
{
    if b == 0 {
        return None;
    }
    let unit = power_of_ten(d + t - s);
    let above = u128::from(size(a)) * u128::from(unit);
    let below = u128::from(size(b));
    Some(floor_word(is_negative(a) != is_negative(b), above, below))
}

/// The square root of `a` at scale `s`, as a word at scale `d`, rounded down. There is none exactly where `a` is negative.
#[inline]
#[tactic(auto, unfolding(crate::specs::Scale::isqrt))]
pub fn isqrt(a: u64, s: u32, d: u32) -> Option<u64>
    requires scales { (s ≤ MOST_SCALE) × (d ≤ MOST_SCALE) }
    requires change { (s ≤ 2 * d) × (2 * d ≤ s + MOST_SCALE_CHANGE) }
    ensures value { result ≡ spec.isqrt a s d }
    ensures greatest { (n : ℕ) → (spec.root n * spec.root n ≤ n) × (n < (spec.root n + 1) * (spec.root n + 1)) }
{
    if is_negative(a) {
        return None;
    }
    let unit = power_of_ten(2 * d - s);
    Some(root(u128::from(a) * u128::from(unit)))
}

/// The size of a word's signed reading.
#[inline(always)]
fn size(w: u64) -> u64
    ensures value { result ≡ magnitude w }
    ensures bound { result ≤ 2 ^ 63 }
{
    if is_negative(w) { w.wrapping_neg() } else { w }
}

/// The word of `n / m`, or of `-n / m`, rounded down.
#[inline(always)]
fn floor_word(negative: bool, n: u128, m: u128) -> u64
    requires { 0 < m }
    ensures { result ≡ word (spec.floor_by (if negative then neg_ℤ (pos n) else pos n) m) }
{
    if negative && n > 0 {
        !low_word((n - 1) / m)
    } else {
        low_word(n / m)
    }
}

/// A number modulo 2^64.
#[inline(always)]
fn low_word(n: u128) -> u64
    ensures { result ≡ n % 2 ^ 64 }
{
    (n % (1 << 64)) as u64
}

/// The greatest number whose square isn't above `n`.
#[tactic(auto, using(crate::proofs::Roots::root_is))]
fn root(n: u128) -> u64
    ensures { result ≡ spec.root n }
{
    n.isqrt() as u64
}
