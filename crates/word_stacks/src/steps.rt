//! The steps of sums and products.

ghost use Rattle.std.specs.Prelude.{◌≡◌, ◌≤◌, IfOk, OnOk, drop, slice_range, take, vec_len};
ghost use Rattle.algebra_meaning.specs.Expression as meaning;
ghost use Rattle.algebra_meaning.specs.Means.{Means};
ghost use Rattle.word_stacks.specs.Stack as spec;
ghost use Rattle.word_stacks.specs.Steps as steps;

use crate::operand::{Operand, Size};
use crate::products::times;
use crate::slices::{Change, Join};
use crate::stack::{change, join, lower};
use algebra_meaning::Stopped;
use ring_words::TrapKind;
use type_rules::NodeType;
use value_algebra::{quotient, square_root};
use vocabulary::NoMemory;

/// A word, or a trap where there is none.
fn word_or(trap: TrapKind, word: Option<u64>) -> Result<u64, Stopped<TrapKind>>
    ensures { Means (steps.word_or trap word) result }
{
    match word {
        Some(word) => Ok(word),
        None => Err(Stopped::By(trap)),
    }
}

/// The quotient of two words by their scales, as a word at a third, or a trap.
#[tactic(auto, unfolding(crate::specs::Steps::divided))]
pub fn divided(a: u64, from: u32, b: u64, by: u32, to: u32) -> Result<u64, Stopped<TrapKind>>
    ensures { Means (steps.divided a from b by to) result }
{
    word_or(TrapKind::DivisionByZero, quotient(a, from, b, by, to))
}

/// The square root of a word, or a trap.
#[tactic(auto, unfolding(crate::specs::Steps::rooted))]
pub fn rooted(a: u64, from: u32, to: u32) -> Result<u64, Stopped<TrapKind>>
    ensures { Means (steps.rooted a from to) result }
{
    word_or(TrapKind::NegativeRoot, square_root(a, from, to))
}

/// The first term of a sum, let stand from a lower index on.
fn first_term(
    minus: bool,
    value: Operand,
    base: usize,
    middle: usize,
    stack: &mut Vec<u64>,
) -> Operand
    requires order { base ≤ middle }
    requires within { middle ≤ vec_len stack.old }
    ensures value { spec.value_of result (drop base stack.new.items) ≡ meaning.added None minus (spec.value_of value (drop middle stack.old.items)) }
    ensures kept { take base stack.new.items ≡ take base stack.old.items }
{
    lower(value, base, middle, stack);
    if minus {
        change(Change::Negated, value, base, stack)
    } else {
        value
    }
}

/// A sum so far, none before its first term, with another term.
pub fn added(
    total: Option<Operand>,
    minus: bool,
    value: Operand,
    base: usize,
    middle: usize,
    stack: &mut Vec<u64>,
) -> Result<Operand, NoMemory>
    requires order { base ≤ middle }
    requires within { middle ≤ vec_len stack.old }
    ensures value { IfOk result (λ sum. spec.value_of sum (drop base stack.new.items) ≡ meaning.added (steps.total_of total (slice_range stack.old.items base middle)) minus (spec.value_of value (drop middle stack.old.items))) }
    ensures kept { OnOk result (take base stack.new.items ≡ take base stack.old.items) }
{
    match total {
        None => Ok(first_term(minus, value, base, middle, stack)),
        Some(total) if minus => join(Join::Difference, total, value, base, middle, stack),
        Some(total) => join(Join::Sum, total, value, base, middle, stack),
    }
}

/// A product so far with its type, none before its first factor, with another factor.
pub fn multiplied(
    so_far: Option<(NodeType, Operand)>,
    is_entrywise: bool,
    value_type: NodeType,
    value: Operand,
    base: usize,
    middle: usize,
    stack: &mut Vec<u64>,
) -> Result<Operand, NoMemory>
    requires order { base ≤ middle }
    requires within { middle ≤ vec_len stack.old }
    ensures value { IfOk result (λ product. spec.value_of product (drop base stack.new.items) ≡ meaning.multiplied (steps.product_of so_far (slice_range stack.old.items base middle)) is_entrywise value_type (spec.value_of value (drop middle stack.old.items))) }
    ensures kept { OnOk result (take base stack.new.items ≡ take base stack.old.items) }
{
    match so_far {
        None => {
            lower(value, base, middle, stack);
            Ok(value)
        }
        Some((_, left)) if is_entrywise => join(Join::Product, left, value, base, middle, stack),
        Some((left_type, left)) => times(left_type, value_type, left, value, base, middle, stack),
    }
}

/// The value of a sum, which stands from an index on.
#[tactic(auto, using(crate::proofs::Parts::empty_above, crate::proofs::Parts::take_within))]
pub fn found(total: Option<Operand>, base: usize, stack: &mut Vec<u64>) -> Operand
    ensures value { spec.value_of result (drop base stack.new.items) ≡ meaning.found (steps.total_of total (drop base stack.old.items)) }
    ensures kept { take base stack.new.items ≡ take base stack.old.items }
{
    match total {
        Some(value) => value,
        None => {
            stack.truncate(base);
            Operand::Pushed(Size {
                rows: 0,
                columns: 0,
            })
        }
    }
}

/// The value of a product, which stands from an index on.
pub fn last(so_far: Option<(NodeType, Operand)>, base: usize, stack: &mut Vec<u64>) -> Operand
    ensures value { spec.value_of result (drop base stack.new.items) ≡ meaning.last_value (steps.product_of so_far (drop base stack.old.items)) }
    ensures kept { take base stack.new.items ≡ take base stack.old.items }
{
    match so_far {
        Some((_, value)) => value,
        None => found(None, base, stack),
    }
}
