//! The parts of evaluation that don't go down the tree.

ghost use Rattle.std.specs.Prelude.{◌≡◌, ◌++◌, IfOk, OnOk, map};
ghost use Rattle.value_algebra.specs.Value.{word_of, times};
ghost use Rattle.algebra_meaning.specs.Expression as spec;
ghost use Rattle.algebra_meaning.specs.Means.{Means};

use crate::stopped::Stopped;
use ring_words::TrapKind;
use std::alloc::Global;
use type_rules::{BlockShape, NodeType, is_scalar};
use value_algebra::{Value, difference, entrywise, negated, product, scaled, sum};
use vocabulary::{L, NoMemory};

/// A value of no rows.
pub(crate) fn no_value(alloc: Global) -> Value
    ensures { result ≡ spec.no_value }
{
    Value {
        rows: 0,
        columns: 0,
        words: L::empty(alloc),
    }
}

/// The value, where there is one.
pub(crate) fn found(alloc: Global, value: Option<Value>) -> Value
    ensures { result ≡ spec.found value }
{
    match value {
        Some(value) => value,
        None => no_value(alloc),
    }
}

/// A sum so far, none before its first term, with another term.
pub(crate) fn added(total: Option<Value>, minus: bool, value: Value) -> Value
    ensures { result ≡ spec.added total minus value }
{
    match total {
        None if minus => negated(value),
        None => value,
        Some(total) if minus => difference(total, &value),
        Some(total) => sum(total, &value),
    }
}

/// A number times anything, or a matrix times a vector or a matrix.
pub(crate) fn times(
    alloc: Global,
    left_type: NodeType,
    right_type: NodeType,
    left: Value,
    right: Value,
) -> Result<Value, NoMemory>
    ensures { IfOk result (λ product. product ≡ times left_type right_type left right) }
{
    if is_scalar(left_type) {
        Ok(scaled(left.word_of(), right))
    } else if is_scalar(right_type) {
        Ok(scaled(right.word_of(), left))
    } else {
        product(alloc, &left, &right)
    }
}

/// A product so far with its type, none before its first factor, with another factor.
pub(crate) fn multiplied(
    alloc: Global,
    so_far: Option<(NodeType, Value)>,
    is_entrywise: bool,
    value_type: NodeType,
    value: Value,
) -> Result<Value, NoMemory>
    ensures { IfOk result (λ product. product ≡ spec.multiplied so_far is_entrywise value_type value) }
{
    match so_far {
        None => Ok(value),
        Some((_, left)) if is_entrywise => Ok(entrywise(left, &value)),
        Some((left_type, left)) => times(alloc, left_type, value_type, left, value),
    }
}

/// The value of a product.
pub(crate) fn last_value(alloc: Global, so_far: Option<(NodeType, Value)>) -> Value
    ensures { result ≡ spec.last_value so_far }
{
    match so_far {
        Some((_, value)) => value,
        None => no_value(alloc),
    }
}

/// The block of a type.
pub fn block_in(value_type: NodeType) -> BlockShape
    ensures { result ≡ spec.block_in value_type }
{
    match value_type {
        NodeType::Local { block, .. }
        | NodeType::SystemVector { block, .. }
        | NodeType::SystemMatrix { block, .. } => block,
    }
}

/// A number, or a trap where there is none.
pub(crate) fn or_trap(
    alloc: Global,
    trap: TrapKind,
    word: Option<u64>,
) -> Result<Value, Stopped<TrapKind>>
    ensures { Means (spec.or_trap trap word) result }
{
    match word {
        Some(word) => Ok(Value::number(alloc, word)?),
        None => Err(Stopped::By(trap)),
    }
}

/// Appends the words of numbers.
pub(crate) fn push_words(values: &[Value], words: &mut L<u64>) -> Result<(), NoMemory>
    ensures { OnOk result (words.new ≡ words.old ++ map word_of values.now) }
{
    for value in values {
        words.push(value.word_of())?;
    }
    Ok(())
}
