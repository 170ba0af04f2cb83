//! Numbers of a program's text.

ghost use Rattle.std.specs.Prelude.{◌≡◌, position};
ghost use Rattle.std.specs.List.{list_any};
ghost use Rattle.typed_tree.specs.Literals as spec;

use ring_words::read_cell;
use vocabulary::limits::{MOST_FIELD_SCALE, MOST_PROGRAM_BYTES};
use vocabulary::marks::POINT;

/// The offset of the point.
fn point_in(digits: &[u8]) -> Option<usize>
    ensures { result ≡ position spec.is_point digits.now }
{
    digits.iter().position(|b| *b == POINT)
}

/// How many digits stand after the point.
pub fn decimals_of(digits: &[u8]) -> usize
    ensures { result ≡ spec.decimals_of digits.now }
{
    match point_in(digits) {
        Some(point) => digits.len().saturating_sub(point).saturating_sub(1),
        None => 0,
    }
}

/// Whether digits are more than a program's text can hold.
fn is_long(digits: &[u8]) -> bool
    ensures { result ≡ spec.is_long digits.now }
{
    digits.len() > MOST_PROGRAM_BYTES as usize
}

/// The word of a literal at its own scale, where that is at most 18 and the word below 2^63.
pub fn literal_word(digits: &[u8]) -> Option<u64>
    ensures { result ≡ spec.literal_word digits.now }
{
    let decimals = decimals_of(digits);
    if decimals > MOST_FIELD_SCALE as usize || is_long(digits) {
        return None;
    }
    read_cell(decimals as u32, digits).ok()
}

/// The whole number of digits without a point; one of 2^63 or more is taken for 2^63.
fn whole_number(digits: &[u8]) -> u64
    ensures { result ≡ spec.whole_number digits.now }
{
    if is_long(digits) {
        return 1 << 63;
    }
    match read_cell(0, digits) {
        Ok(word) => word,
        Err(_) => 1 << 63,
    }
}

/// Whether a point stands among digits.
fn has_point(digits: &[u8]) -> bool
    ensures { result ≡ list_any spec.is_point digits.now }
{
    digits.iter().any(|b| *b == POINT)
}

/// The whole number that digits state, where they have no point; one of 2^63 or more is taken for 2^63.
pub fn whole(digits: &[u8]) -> Option<u64>
    ensures { result ≡ spec.whole digits.now }
{
    if has_point(digits) {
        None
    } else {
        Some(whole_number(digits))
    }
}
