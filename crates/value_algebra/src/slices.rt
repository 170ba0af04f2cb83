//! What is computed word by word, in place.

ghost use Rattle.std.specs.Prelude.{◌≡◌, ◌++◌, drop, length, map};
ghost use Rattle.std.specs.List.{zip};
ghost use Rattle.ring_words.specs.Word.{add, mul, neg, sub};

use ring_words::{add, mul, neg, sub};

/// Negates each word.
#[tactic(auto, using(crate::proofs::InPlace::one_changed))]
pub fn negate_each(words: &mut [u64])
    ensures { words.new ≡ map neg words.old }
{
    for word in words.iter_mut() {
        *word = neg(*word);
    }
}

/// Multiplies each word by a number.
#[tactic(auto, using(crate::proofs::InPlace::one_changed))]
pub fn scale_each(factor: u64, words: &mut [u64])
    ensures { words.new ≡ map (mul factor) words.old }
{
    for word in words.iter_mut() {
        *word = mul(factor, *word);
    }
}

/// Adds to each word the one at its index in another list, as far as both lists go.
pub fn add_each(left: &mut [u64], right: &[u64])
    ensures { left.new ≡ map (λ pair. add pair.0 pair.1) (zip left.old right.now) ++ drop (length right.now) left.old }
{
    let both = left.len().min(right.len());
    for i in 0..both {
        left[i] = add(left[i], right[i]);
    }
}

/// Subtracts from each word the one at its index in another list, as far as both lists go.
pub fn subtract_each(left: &mut [u64], right: &[u64])
    ensures { left.new ≡ map (λ pair. sub pair.0 pair.1) (zip left.old right.now) ++ drop (length right.now) left.old }
{
    let both = left.len().min(right.len());
    for i in 0..both {
        left[i] = sub(left[i], right[i]);
    }
}

/// Multiplies each word by the one at its index in another list, as far as both lists go.
pub fn multiply_each(left: &mut [u64], right: &[u64])
    ensures { left.new ≡ map (λ pair. mul pair.0 pair.1) (zip left.old right.now) ++ drop (length right.now) left.old }
{
    let both = left.len().min(right.len());
    for i in 0..both {
        left[i] = mul(left[i], right[i]);
    }
}
