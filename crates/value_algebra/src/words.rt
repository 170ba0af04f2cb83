//! Values of which each word becomes another one, in the memory of the value that is handed in.

ghost use Rattle.std.specs.Prelude.{◌≡◌, take};
ghost use Rattle.ring_words.specs.Word as word;
ghost use Rattle.value_algebra.specs.Value as spec;

use crate::slices::{add_each, multiply_each, negate_each, scale_each, subtract_each};
use crate::value::Value;
use vocabulary::L;

/// The value negated.
pub fn negated(value: Value) -> Value
    ensures { result ≡ spec.each word.neg value }
{
    let mut words = value.words.into_vec();
    negate_each(&mut words);
    Value::of(value.rows, value.columns, words)
}

/// The value times a number.
pub fn scaled(factor: u64, value: Value) -> Value
    ensures { result ≡ spec.each (word.mul factor) value }
{
    let mut words = value.words.into_vec();
    scale_each(factor, &mut words);
    Value::of(value.rows, value.columns, words)
}

/// The first words, at most so many.
fn first_words(words: L<u64>, most: usize) -> Vec<u64>
    ensures { result.items ≡ take most words }
{
    let mut first = words.into_vec();
    first.truncate(most);
    first
}

/// The sum of two values of one size.
pub fn sum(left: Value, right: &Value) -> Value
    ensures { result ≡ spec.both word.add left right.now }
{
    let others = right.words.items();
    let mut words = first_words(left.words, others.len());
    add_each(&mut words, others);
    Value::of(left.rows, left.columns, words)
}

/// The difference of two values of one size.
pub fn difference(left: Value, right: &Value) -> Value
    ensures { result ≡ spec.both word.sub left right.now }
{
    let others = right.words.items();
    let mut words = first_words(left.words, others.len());
    subtract_each(&mut words, others);
    Value::of(left.rows, left.columns, words)
}

/// The product of two values of one size, word by word.
pub fn entrywise(left: Value, right: &Value) -> Value
    ensures { result ≡ spec.both word.mul left right.now }
{
    let others = right.words.items();
    let mut words = first_words(left.words, others.len());
    multiply_each(&mut words, others);
    Value::of(left.rows, left.columns, words)
}
