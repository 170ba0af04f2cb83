//! What is computed word by word, in place.

ghost use Rattle.std.specs.Prelude.{◌≡◌, ◌++◌, drop, length, map};
ghost use Rattle.std.specs.List.{zip};
ghost use Rattle.word_stacks.specs.Stack as spec;

use ring_words::{add, mul, neg, sub};
use value_algebra::{
    add_each, multiply_each, negate_each, rescale_each, rescaled_word, scale_each, subtract_each,
};

/// What becomes of each word of a value.
#[derive(Clone, Copy, Debug, PartialEq, Eq)]
pub enum Change {
    Negated,
    Scaled(u64),
    Rescaled { from: u32, to: u32 },
}

/// What becomes of a word.
pub(crate) fn changed(change: Change, word: u64) -> u64
    ensures { result ≡ spec.changed change word }
{
    match change {
        Change::Negated => neg(word),
        Change::Scaled(factor) => mul(factor, word),
        Change::Rescaled { from, to } => rescaled_word(from, to, word),
    }
}

/// Changes each word.
pub(crate) fn change_each(change: Change, words: &mut [u64])
    ensures { words.new ≡ map (spec.changed change) words.old }
{
    match change {
        Change::Negated => negate_each(words),
        Change::Scaled(factor) => scale_each(factor, words),
        Change::Rescaled { from, to } => rescale_each(from, to, words),
    }
}

/// What is made of the words at one index of two values.
#[derive(Clone, Copy, Debug, PartialEq, Eq)]
pub enum Join {
    Sum,
    Difference,
    Product,
}

/// What is made of two words.
pub(crate) fn joined(join: Join, a: u64, b: u64) -> u64
    ensures { result ≡ spec.joined join a b }
{
    match join {
        Join::Sum => add(a, b),
        Join::Difference => sub(a, b),
        Join::Product => mul(a, b),
    }
}

/// Puts in place of each word what is made of it and the word at its index in another list, as far as both lists go.
pub(crate) fn join_each(join: Join, left: &mut [u64], right: &[u64])
    ensures { left.new ≡ map (λ pair. spec.joined join pair.0 pair.1) (zip left.old right.now) ++ drop (length right.now) left.old }
{
    match join {
        Join::Sum => add_each(left, right),
        Join::Difference => subtract_each(left, right),
        Join::Product => multiply_each(left, right),
    }
}
