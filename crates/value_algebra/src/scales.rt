//! Words at other scales, quotients and square roots.

ghost use Rattle.std.specs.Prelude.{◌≡◌, ◌≤◌, ◌+◌, ◌*◌, map};
ghost use Rattle.std.specs.Bool.{OnTrue};
ghost use Rattle.vocabulary.specs.declared.limits.TheConstants.{MOST_SCALE, MOST_SCALE_CHANGE};
ghost use Rattle.type_rules.specs.Rules.{is_exponent};
ghost use Rattle.value_algebra.specs.Scales as spec;

use crate::value::Value;
use ring_words::{isqrt, quot, rescale};
use vocabulary::limits::{MOST_SCALE, MOST_SCALE_CHANGE};

/// Whether a scale is within the limit.
fn is_scale(scale: u32) -> bool
    ensures value { result ≡ spec.is_scale scale }
    ensures within { OnTrue result (scale ≤ MOST_SCALE) }
{
    scale <= MOST_SCALE
}

/// Whether a value may go from one scale to another.
fn may_change(from: u32, to: u32) -> bool
    ensures value { result ≡ spec.may_change from to }
    ensures scales { OnTrue result ((from ≤ MOST_SCALE) × (to ≤ MOST_SCALE)) }
    ensures change { OnTrue result ((from ≤ to + MOST_SCALE_CHANGE) × (to ≤ from + MOST_SCALE_CHANGE)) }
{
    is_scale(from) && is_scale(to) && from.abs_diff(to) <= MOST_SCALE_CHANGE
}

/// Whether a result with so many more decimals can be computed.
fn is_exponent(more: u32, fewer: u32) -> bool
    ensures value { result ≡ is_exponent more fewer }
    ensures within { OnTrue result ((fewer ≤ more) × (more ≤ fewer + MOST_SCALE_CHANGE)) }
{
    more >= fewer && more - fewer <= MOST_SCALE_CHANGE
}

/// Whether words of two scales may be divided, at a third.
fn may_divide(from: u32, by: u32, to: u32) -> bool
    ensures value { result ≡ spec.may_divide from by to }
    ensures scales { OnTrue result ((from ≤ MOST_SCALE) × (by ≤ MOST_SCALE) × (to ≤ MOST_SCALE)) }
    ensures change { OnTrue result ((from ≤ to + by) × (to + by ≤ from + MOST_SCALE_CHANGE)) }
{
    is_scale(from) && is_scale(by) && is_scale(to) && is_exponent(to + by, from)
}

/// Whether the root of a word of one scale may be taken at another.
fn may_take_root(from: u32, to: u32) -> bool
    ensures value { result ≡ spec.may_take_root from to }
    ensures scales { OnTrue result ((from ≤ MOST_SCALE) × (to ≤ MOST_SCALE)) }
    ensures change { OnTrue result ((from ≤ 2 * to) × (2 * to ≤ from + MOST_SCALE_CHANGE)) }
{
    is_scale(from) && is_scale(to) && is_exponent(to + to, from)
}

/// A word at another scale; 0 where a scale is none that types allow.
pub fn rescaled_word(from: u32, to: u32, word: u64) -> u64
    ensures { result ≡ spec.rescaled_word from to word }
{
    if may_change(from, to) {
        rescale(word, from, to)
    } else {
        0
    }
}

/// Brings each word to another scale.
#[tactic(auto, using(crate::proofs::InPlace::one_changed))]
pub fn rescale_each(from: u32, to: u32, words: &mut [u64])
    ensures { words.new ≡ map (spec.rescaled_word from to) words.old }
{
    for word in words.iter_mut() {
        *word = rescaled_word(from, to, *word);
    }
}

/// The value at another scale, in its own memory.
pub fn rescaled(from: u32, to: u32, value: Value) -> Value
    ensures { result ≡ spec.rescaled from to value }
{
    let mut words = value.words.into_vec();
    rescale_each(from, to, &mut words);
    Value::of(value.rows, value.columns, words)
}

/// The quotient of `a`, a word at scale `from`, by `b` at scale `by`, as a word at scale `to`. None where `b` is 0; the
/// word is 0 where a scale is none that types allow.
pub fn quotient(a: u64, from: u32, b: u64, by: u32, to: u32) -> Option<u64>
    ensures { result ≡ spec.quotient a from b by to }
{
    if may_divide(from, by, to) {
        quot(a, from, b, by, to)
    } else {
        Some(0)
    }
}

/// The square root of `a`, a word at scale `from`, as a word at scale `to`. None where `a` is negative; the word is 0
/// where a scale is none that types allow.
pub fn square_root(a: u64, from: u32, to: u32) -> Option<u64>
    ensures { result ≡ spec.square_root a from to }
{
    if may_take_root(from, to) {
        isqrt(a, from, to)
    } else {
        Some(0)
    }
}
