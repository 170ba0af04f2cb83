//! The cells of tables: a word's text is written, and the word that a text stands for is read.
//!
//! A cell of scale d counts units of 1/10^d.
ghost use Rattle.std.specs.Prelude.{◌≡◌, ℕ, ◌+◌, ◌-◌, ◌^◌, ◌<◌, ◌≤◌, length, take, vec_len, vec_capacity};
ghost use Rattle.std.specs.Bool.{OnTrue};
ghost use Rattle.std.specs.List.{prefix_len, suffix_len};
ghost use Rattle.ring_words.specs.Cell as spec;
ghost use Rattle.vocabulary.specs.Buffer.{Appends};

use crate::arithmetic::{is_negative, neg};
use crate::digits::{digit_count, leading_decimals, leading_digits, with_zeros};
use crate::powers::power_of_ten;
use itoa::Buffer;
use thiserror::Error;
use vocabulary::append;
use vocabulary::limits::MOST_FIELD_SCALE;
use vocabulary::marks::{MINUS, POINT, SPACE, ZERO};

/// Why a cell's text stands for no word, in the order in which the causes are judged.
#[derive(Clone, Copy, Debug, PartialEq, Eq, Error)]
pub enum CellFault {
    /// Nothing is left without the spaces at both ends.
    #[error("empty cell")]
    Empty,
    /// The byte at this offset of the cell can't go on a number, or the number has ended too soon there.
    #[error("bad byte at {at}")]
    BadByte { at: u32 },
    /// A decimal past the scale isn't 0.
    #[error("too many decimals")]
    TooFine,
    /// The number is outside -2^63 to 2^63-1.
    #[error("too large")]
    TooLarge,
}

/// The bytes without the spaces at both ends. A space is the byte of `SPACE` alone.
#[inline]
pub fn trim_spaces(bytes: &[u8]) -> &[u8]
    ensures { result.now ≡ spec.without_spaces bytes.now }
{
    without_trailing_spaces(&bytes[leading_spaces(bytes)..])
}

/// How many spaces there are before any other byte.
#[inline(always)]
fn leading_spaces(bytes: &[u8]) -> usize
    ensures value { result ≡ prefix_len spec.is_space bytes.now }
    ensures within { result ≤ length bytes.now }
{
    let mut offset = 0;
    while offset < bytes.len() && bytes[offset] == SPACE {
        offset += 1;
    }
    offset
}

/// The bytes without the spaces at their end.
#[inline(always)]
fn without_trailing_spaces(bytes: &[u8]) -> &[u8]
    ensures { result.now ≡ take (length bytes.now - suffix_len spec.is_space bytes.now) bytes.now }
{
    let mut end = bytes.len();
    while end > 0 && bytes[end - 1] == SPACE {
        end -= 1;
    }
    &bytes[..end]
}

/// The word of a cell of scale `d`, or why it has none.
#[inline]
#[tactic(auto, unfolding(crate::specs::Cell::cell))]
pub fn read_cell(d: u32, bytes: &[u8]) -> Result<u64, CellFault>
    requires scale { d ≤ MOST_FIELD_SCALE }
    requires short { length bytes.now < 2 ^ 32 }
    ensures { result ≡ spec.cell d bytes.now }
{
    let rest = trim_spaces(bytes);
    if rest.is_empty() {
        return Err(CellFault::Empty);
    }
    let parts = split_cell(d, rest);
    if !parts.complete || parts.size != rest.len() {
        let offset = leading_spaces(bytes) + parts.size;
        return Err(CellFault::BadByte { at: offset as u32 });
    }
    word_of(parts)
}

/// The parts that can be read from the start of a text.
#[derive(Clone, Copy)]
struct Parts {
    negative: bool,
    /// How many units of the scale the digits count, cut down where that is too large either way.
    units: u64,
    /// Whether a decimal past the scale isn't 0.
    too_fine: bool,
    /// How many bytes the parts take.
    size: usize,
    /// Whether a number can end there.
    complete: bool,
}

/// A text of scale `d` split into its parts.
#[inline(always)]
#[tactic(auto, unfolding(crate::specs::Cell::parts))]
fn split_cell(d: u32, rest: &[u8]) -> Parts
    requires scale { d ≤ MOST_FIELD_SCALE }
    ensures negative { result.negative ≡ (spec.parts rest.now).negative }
    ensures units { result.units ≡ spec.cut (spec.units d (spec.parts rest.now)) }
    ensures too_fine { result.too_fine ≡ spec.is_too_fine d (spec.parts rest.now).decimals }
    ensures size { result.size ≡ (spec.parts rest.now).size }
    ensures complete { result.complete ≡ (spec.parts rest.now).complete }
    ensures within { result.size ≤ length rest.now }
{
    let negative = starts_with(rest, MINUS);
    let sign = if negative { 1 } else { 0 };
    let run = leading_digits(&rest[sign..]);
    let size = sign + run.size;
    if run.size == 0 || !starts_with(&rest[size..], POINT) {
        return Parts {
            negative,
            units: with_zeros(run.value, d),
            too_fine: false,
            size,
            complete: run.size != 0,
        };
    }
    let decimals = leading_decimals(d, run.value, &rest[size + 1..]);
    Parts {
        negative,
        units: decimals.units,
        too_fine: decimals.too_fine,
        size: size + 1 + decimals.size,
        complete: decimals.size != 0,
    }
}

/// Whether the first byte is this one.
#[inline(always)]
fn starts_with(bytes: &[u8], byte: u8) -> bool
    ensures value { result ≡ spec.starts_with_byte byte bytes.now }
    ensures nonempty { OnTrue result (0 < length bytes.now) }
{
    !bytes.is_empty() && bytes[0] == byte
}

/// The word of the parts of a whole text.
#[inline(always)]
fn word_of(parts: Parts) -> Result<u64, CellFault>
    ensures { (d : ℕ) → (p : spec.Parts) → p.negative ≡ parts.negative → spec.cut (spec.units d p) ≡ parts.units → spec.is_too_fine d p.decimals ≡ parts.too_fine → result ≡ spec.word_of_parts d p }
{
    let most = if parts.negative {
        1 << 63
    } else {
        (1 << 63) - 1
    };
    if parts.too_fine {
        return Err(CellFault::TooFine);
    }
    if parts.units > most {
        return Err(CellFault::TooLarge);
    }
    Ok(if parts.negative {
        parts.units.wrapping_neg()
    } else {
        parts.units
    })
}

/// The length of the text of the word `w` at scale `d`, in bytes.
#[inline]
#[tactic(auto, using(crate::proofs::Texts::texts))]
pub fn cell_len(d: u32, w: u64) -> usize
    requires { d ≤ MOST_FIELD_SCALE }
    ensures value { result ≡ length (spec.text d w) }
    ensures bound { (1 ≤ result) × (result ≤ 21) }
{
    if is_negative(w) {
        1 + unsigned_len(d, neg(w))
    } else {
        unsigned_len(d, w)
    }
}

/// The length of the text of a number without its sign.
#[inline(always)]
#[tactic(auto, using(crate::proofs::Texts::lengths))]
fn unsigned_len(d: u32, n: u64) -> usize
    requires scale { d ≤ MOST_FIELD_SCALE }
    requires small { n ≤ 2 ^ 63 }
    ensures value { result ≡ length (spec.unsigned_text d n) }
    ensures bound { (1 ≤ result) × (result ≤ 20) }
{
    if d == 0 {
        return digit_count(n);
    }
    digit_count(n / power_of_ten(d)) + 1 + d as usize
}

/// Appends the text of the word `w` at scale `d`. The buffer has the capacity for it, which stays as it is: this takes
/// no memory.
#[inline]
#[tactic(auto, using(crate::proofs::Texts::texts, crate::proofs::ReadsBack::reads_back))]
pub fn write_cell(d: u32, w: u64, to: &mut Vec<u8>)
    requires scale { d ≤ MOST_FIELD_SCALE }
    requires capacity { vec_len to.old + length (spec.text d w) ≤ vec_capacity to.old }
    ensures written { Appends to.old to.new (spec.text d w) }
    ensures reads_back { spec.cell d (spec.text d w) ≡ Ok w }
{
    if !is_negative(w) {
        return write_unsigned(d, w, to);
    }
    append(&[MINUS], to);
    write_unsigned(d, neg(w), to);
}

/// Appends the text of a number without its sign.
#[inline(always)]
fn write_unsigned(d: u32, n: u64, to: &mut Vec<u8>)
    requires scale { d ≤ MOST_FIELD_SCALE }
    requires capacity { vec_len to.old + length (spec.unsigned_text d n) ≤ vec_capacity to.old }
    ensures { Appends to.old to.new (spec.unsigned_text d n) }
{
    let mut digits = Buffer::new();
    if d == 0 {
        return append(digits.format(n).as_bytes(), to);
    }
    let unit = power_of_ten(d);
    append(digits.format(n / unit).as_bytes(), to);
    append(&[POINT], to);
    write_padded(d, n % unit, to);
}

const ZEROS: [u8; 18] = [ZERO; 18];

/// Appends the digits of a number, with zeros before them up to `d` digits.
#[inline(always)]
fn write_padded(d: u32, n: u64, to: &mut Vec<u8>)
    requires scale { d ≤ MOST_FIELD_SCALE }
    requires capacity { vec_len to.old + length (spec.digits_padded d n) ≤ vec_capacity to.old }
    ensures { Appends to.old to.new (spec.digits_padded d n) }
{
    let mut buffer = Buffer::new();
    let digits = buffer.format(n).as_bytes();
    let zeros = (d as usize).saturating_sub(digits.len());
    append(&ZEROS[..zeros], to);
    append(digits, to);
}
