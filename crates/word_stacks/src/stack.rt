//! The stack of words: what is computed of the values that stand on it.

ghost use Rattle.std.specs.Prelude.{◌≡◌, ◌≤◌, ◌+◌, ◌∷◌, [], ◌++◌, IfOk, OnErr, OnOk, drop, length, map, slice_range, take, vec_len};
ghost use Rattle.std.specs.List.{zip};
ghost use Rattle.value_algebra.specs.Value as value;
ghost use Rattle.word_stacks.specs.Stack as spec;

use crate::operand::{Operand, Pair, Size, first_word};
use crate::slices::{Change, Join, change_each, changed, join_each, joined};
use value_algebra::sum_of_products;
use vocabulary::NoMemory;

/// Pushes a word.
pub fn push(word: u64, stack: &mut Vec<u64>) -> Result<(), NoMemory>
    ensures { OnOk result (stack.new.items ≡ stack.old.items ++ word ∷ []) }
{
    stack.push(word).map_err(|_| NoMemory)
}

/// Pushes words.
pub(crate) fn push_all(words: &[u64], stack: &mut Vec<u64>) -> Result<(), NoMemory>
    ensures { OnOk result (stack.new.items ≡ stack.old.items ++ words.now) }
{
    stack.extend_from_slice(words).map_err(|_| NoMemory)
}

/// Takes the words between two indices away.
pub(crate) fn close_gap(base: usize, middle: usize, stack: &mut Vec<u64>)
    requires order { base ≤ middle }
    requires within { middle ≤ vec_len stack.old }
    ensures { stack.new.items ≡ take base stack.old.items ++ drop middle stack.old.items }
{
    let _gone = stack.drain(base..middle);
}

/// Lets a value, which stands from one index on, stand from a lower one on.
#[tactic(auto, using(crate::proofs::Parts::above_front, crate::proofs::Parts::below_front))]
pub(crate) fn lower(operand: Operand, base: usize, middle: usize, stack: &mut Vec<u64>)
    requires order { base ≤ middle }
    requires within { middle ≤ vec_len stack.old }
    ensures value { spec.value_of operand (drop base stack.new.items) ≡ spec.value_of operand (drop middle stack.old.items) }
    ensures kept { take base stack.new.items ≡ take base stack.old.items }
    ensures within { base ≤ vec_len stack.new }
{
    if let Operand::Pushed(_) = operand {
        close_gap(base, middle, stack);
    }
}

/// Changes the words from an index on.
fn change_above(change: Change, base: usize, stack: &mut Vec<u64>)
    requires { base ≤ vec_len stack.old }
    ensures { stack.new.items ≡ take base stack.old.items ++ map (spec.changed change) (drop base stack.old.items) }
{
    change_each(change, &mut stack[base..]);
}

/// Changes each word of a value that stands from an index on.
pub fn change(change: Change, operand: Operand, base: usize, stack: &mut Vec<u64>) -> Operand
    requires { base ≤ vec_len stack.old }
    ensures value { spec.value_of result (drop base stack.new.items) ≡ value.each (spec.changed change) (spec.value_of operand (drop base stack.old.items)) }
    ensures kept { take base stack.new.items ≡ take base stack.old.items }
{
    match operand {
        Operand::Number(word) => Operand::Number(changed(change, word)),
        Operand::Pushed(size) => {
            change_above(change, base, stack);
            Operand::Pushed(size)
        }
    }
}

/// Lets the words of a value, which stands from an index on, stand there also if it is a number.
pub fn settle(operand: Operand, middle: usize, stack: &mut Vec<u64>) -> Result<Size, NoMemory>
    requires { middle ≤ vec_len stack.old }
    ensures value { IfOk result (λ size. spec.sized size (drop middle stack.new.items) ≡ spec.value_of operand (drop middle stack.old.items)) }
    ensures kept { OnOk result (take middle stack.new.items ≡ take middle stack.old.items) }
    ensures within { OnOk result (middle ≤ vec_len stack.new) }
{
    match operand {
        Operand::Number(word) => {
            stack.truncate(middle);
            push(word, stack)?;
            Ok(Size::NUMBER)
        }
        Operand::Pushed(size) => Ok(size),
    }
}

/// Puts a word in place of those between two indices.
fn put_between(word: u64, base: usize, middle: usize, stack: &mut Vec<u64>) -> Result<(), NoMemory>
    requires order { base ≤ middle }
    requires within { middle ≤ vec_len stack.old }
    ensures { OnOk result (stack.new.items ≡ (take base stack.old.items ++ word ∷ []) ++ drop middle stack.old.items) }
{
    close_gap(base, middle, stack);
    stack.insert(base, word).map_err(|_| NoMemory)
}

/// Lets the words of two values, which stand one after the other, stand there also if they are numbers.
#[tactic(auto, using(crate::proofs::Parts::front_same, crate::proofs::Parts::range_same))]
pub(crate) fn spread(
    left: Operand,
    right: Operand,
    base: usize,
    middle: usize,
    stack: &mut Vec<u64>,
) -> Result<Pair, NoMemory>
    requires order { base ≤ middle }
    requires within { middle ≤ vec_len stack.old }
    ensures left { IfOk result (λ pair. spec.left_in pair stack.new.items ≡ spec.value_of left (slice_range stack.old.items base middle)) }
    ensures right { IfOk result (λ pair. spec.right_in pair stack.new.items ≡ spec.value_of right (drop middle stack.old.items)) }
    ensures places { IfOk result (λ pair. (pair.base ≡ base) × (pair.top ≡ vec_len stack.new)) }
    ensures pair { IfOk result (λ pair. spec.IsIn pair stack.new.items) }
    ensures kept { OnOk result (take base stack.new.items ≡ take base stack.old.items) }
{
    let right = settle(right, middle, stack)?;
    match left {
        Operand::Number(word) => {
            put_between(word, base, middle, stack)?;
            Ok(Pair {
                left: Size::NUMBER,
                right,
                base,
                middle: base + 1,
                top: stack.len(),
            })
        }
        Operand::Pushed(left) => Ok(Pair {
            left,
            right,
            base,
            middle,
            top: stack.len(),
        }),
    }
}

/// Puts what is made of the words of two values, index by index, in place of those of the first.
#[tactic(auto, using(crate::proofs::Parts::cut_range))]
fn join_within(join: Join, base: usize, middle: usize, words: &mut [u64])
    requires order { base ≤ middle }
    requires within { middle ≤ length words.old }
    ensures { words.new ≡ spec.joined_within join base middle words.old }
{
    let (below, right) = words.split_at_mut(middle);
    join_each(join, &mut below[base..], right);
}

/// Puts what is made of the words of two values, index by index, in their place.
#[tactic(auto, using(crate::proofs::Parts::pair_joined))]
fn join_pair(join: Join, base: usize, middle: usize, stack: &mut Vec<u64>)
    requires order { base ≤ middle }
    requires within { middle ≤ vec_len stack.old }
    ensures { stack.new.items ≡ take base stack.old.items ++ spec.joined_words join base middle stack.old.items }
{
    let size = (middle - base).min(stack.len() - middle);
    join_within(join, base, middle, stack);
    stack.truncate(base + size);
}

/// What is made of the words of two values, index by index.
#[tactic(auto, using(crate::proofs::Parts::above_cut, crate::proofs::Parts::below_cut, crate::proofs::Parts::range_to_end))]
pub(crate) fn join(
    join: Join,
    left: Operand,
    right: Operand,
    base: usize,
    middle: usize,
    stack: &mut Vec<u64>,
) -> Result<Operand, NoMemory>
    requires order { base ≤ middle }
    requires within { middle ≤ vec_len stack.old }
    ensures value { IfOk result (λ operand. spec.value_of operand (drop base stack.new.items) ≡ value.both (spec.joined join) (spec.value_of left (slice_range stack.old.items base middle)) (spec.value_of right (drop middle stack.old.items))) }
    ensures kept { OnOk result (take base stack.new.items ≡ take base stack.old.items) }
{
    if let (Operand::Number(a), Operand::Number(b)) = (left, right) {
        return Ok(Operand::Number(joined(join, a, b)));
    }
    let pair = spread(left, right, base, middle, stack)?;
    join_pair(join, pair.base, pair.middle, stack);
    Ok(Operand::Pushed(pair.left))
}

/// The scalar product of two values.
#[tactic(auto, unfolding(value_algebra::specs::Value::dot))]
pub fn dot(
    left: Operand,
    right: Operand,
    base: usize,
    middle: usize,
    stack: &mut Vec<u64>,
) -> Result<Operand, NoMemory>
    requires order { base ≤ middle }
    requires within { middle ≤ vec_len stack.old }
    ensures value { IfOk result (λ operand. spec.value_of operand (drop base stack.new.items) ≡ value.dot (spec.value_of left (slice_range stack.old.items base middle)) (spec.value_of right (drop middle stack.old.items))) }
    ensures kept { OnOk result (take base stack.new.items ≡ take base stack.old.items) }
{
    let pair = spread(left, right, base, middle, stack)?;
    let left = &stack[pair.base..pair.middle];
    let right = &stack[pair.middle..pair.top];
    Ok(Operand::Number(sum_of_products(left, right)))
}
