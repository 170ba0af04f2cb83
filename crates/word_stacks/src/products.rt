//! Products and transposes of values that stand on the stack.

ghost use Rattle.std.specs.Prelude.{◌≡◌, ◌≤◌, ◌*◌, ◌++◌, IfOk, OnOk, drop, length, map, pos, slice_range, take, vec_len};
ghost use Rattle.std.specs.List.{flat_map, range_with_len};
ghost use Rattle.ring_words.specs.Word.{mul, word};
ghost use Rattle.value_algebra.specs.Value as value;
ghost use Rattle.word_stacks.specs.Stack as spec;

use crate::operand::{Operand, Pair, Size, first_word};
use crate::slices::Change;
use crate::stack::{change, close_gap, lower, push, spread};
use loop_laws::row_laws;
use type_rules::{NodeType, is_scalar};
use value_algebra::{entry, row_times_column};
use vocabulary::NoMemory;

/// The word of a row and a column; 0 where there is none.
pub(crate) fn word_in(size: Size, words: &[u64], row: usize, column: usize) -> u64
    ensures { result ≡ value.word_at (spec.sized size words.now) row column }
{
    entry(words, row as u64, size.columns as u64, column as u64)
}

/// Pushes the words of a column of a value, whose words stand between two indices.
fn push_column(
    size: Size,
    base: usize,
    top: usize,
    column: usize,
    stack: &mut Vec<u64>,
) -> Result<(), NoMemory>
    requires order { base ≤ top }
    requires within { top ≤ vec_len stack.old }
    ensures { OnOk result (stack.new.items ≡ stack.old.items ++ value.column_of (spec.sized size (slice_range stack.old.items base top)) column) }
{
    row_laws::<u64>();
    for row in 0..size.rows {
        let word = word_in(size, &stack[base..top], row, column);
        push(word, stack)?;
    }
    Ok(())
}

/// Pushes the words of a value, which stand between two indices, column by column.
#[tactic(auto, using(crate::proofs::Pushed::columns_grown, crate::proofs::Pushed::columns_within, crate::proofs::Pushed::still_in))]
fn push_transposed(
    size: Size,
    base: usize,
    top: usize,
    stack: &mut Vec<u64>,
) -> Result<(), NoMemory>
    requires order { base ≤ top }
    requires within { top ≤ vec_len stack.old }
    ensures { OnOk result (stack.new.items ≡ stack.old.items ++ flat_map (value.column_of (spec.sized size (slice_range stack.old.items base top))) (range_with_len 0 size.columns)) }
{
    row_laws::<u64>();
    for column in 0..size.columns {
        push_column(size, base, top, column, stack)?;
    }
    Ok(())
}

/// The value that stands from an index on with rows and columns exchanged.
#[tactic(auto, unfolding(value_algebra::specs::Value::transposed), using(crate::proofs::Parts::above_closed, crate::proofs::Parts::below_closed, crate::proofs::Parts::range_to_end))]
pub fn transpose(operand: Operand, base: usize, stack: &mut Vec<u64>) -> Result<Operand, NoMemory>
    requires { base ≤ vec_len stack.old }
    ensures value { IfOk result (λ operand'. spec.value_of operand' (drop base stack.new.items) ≡ value.transposed (spec.value_of operand (drop base stack.old.items))) }
    ensures kept { OnOk result (take base stack.new.items ≡ take base stack.old.items) }
{
    match operand {
        Operand::Number(word) => Ok(Operand::Number(word)),
        Operand::Pushed(size) => {
            let top = stack.len();
            push_transposed(size, base, top, stack)?;
            close_gap(base, top, stack);
            Ok(Operand::Pushed(size.exchanged()))
        }
    }
}

/// The sum of the products of a row of one and a column of another of two values on the stack.
fn product_entry(pair: Pair, row: usize, column: usize, stack: &[u64]) -> u64
    requires { spec.IsIn pair stack.now }
    ensures { result ≡ word (pos (value.row_times_column (spec.left_in pair stack.now) (spec.right_in pair stack.now) row column)) }
{
    let left = &stack[pair.base..pair.middle];
    let right = &stack[pair.middle..pair.top];
    let (width, right_width) = (pair.left.columns, pair.right.columns);
    row_times_column(left, width, right, right_width, row, column)
}

/// Pushes a row of a product.
#[tactic(auto, using(crate::proofs::Pushed::still_in))]
fn push_row(pair: Pair, row: usize, stack: &mut Vec<u64>) -> Result<(), NoMemory>
    requires { spec.IsIn pair stack.old.items }
    ensures { OnOk result (stack.new.items ≡ stack.old.items ++ value.product_row (spec.left_in pair stack.old.items) (spec.right_in pair stack.old.items) row) }
{
    row_laws::<u64>();
    for column in 0..pair.right.columns {
        let word = product_entry(pair, row, column, stack);
        push(word, stack)?;
    }
    Ok(())
}

/// Pushes the words of a product.
#[tactic(auto, using(crate::proofs::Pushed::products_grown, crate::proofs::Pushed::columns_within, crate::proofs::Pushed::still_in))]
fn push_product(pair: Pair, stack: &mut Vec<u64>) -> Result<(), NoMemory>
    requires { spec.IsIn pair stack.old.items }
    ensures { OnOk result (stack.new.items ≡ stack.old.items ++ flat_map (value.product_row (spec.left_in pair stack.old.items) (spec.right_in pair stack.old.items)) (range_with_len 0 pair.left.rows)) }
{
    row_laws::<u64>();
    for row in 0..pair.left.rows {
        push_row(pair, row, stack)?;
    }
    Ok(())
}

/// The product of two matrices, or of a matrix and a vector.
#[tactic(auto, unfolding(value_algebra::specs::Value::product), using(crate::proofs::Parts::above_closed, crate::proofs::Parts::below_closed))]
fn multiply(
    left: Operand,
    right: Operand,
    base: usize,
    middle: usize,
    stack: &mut Vec<u64>,
) -> Result<Operand, NoMemory>
    requires order { base ≤ middle }
    requires within { middle ≤ vec_len stack.old }
    ensures value { IfOk result (λ operand. spec.value_of operand (drop base stack.new.items) ≡ value.product (spec.value_of left (slice_range stack.old.items base middle)) (spec.value_of right (drop middle stack.old.items))) }
    ensures kept { OnOk result (take base stack.new.items ≡ take base stack.old.items) }
{
    let pair = spread(left, right, base, middle, stack)?;
    push_product(pair, stack)?;
    close_gap(pair.base, pair.top, stack);
    Ok(Operand::Pushed(Size {
        rows: pair.left.rows,
        columns: pair.right.columns,
    }))
}

/// The first word of one value times another value, which stands above it.
fn scale_second(
    left: Operand,
    right: Operand,
    base: usize,
    middle: usize,
    stack: &mut Vec<u64>,
) -> Operand
    requires order { base ≤ middle }
    requires within { middle ≤ vec_len stack.old }
    ensures value { spec.value_of result (drop base stack.new.items) ≡ value.each (mul (value.word_of (spec.value_of left (slice_range stack.old.items base middle)))) (spec.value_of right (drop middle stack.old.items)) }
    ensures kept { take base stack.new.items ≡ take base stack.old.items }
{
    let factor = first_word(left, &stack[base..middle]);
    lower(right, base, middle, stack);
    change(Change::Scaled(factor), right, base, stack)
}

/// The first word of a value that stands from an index on.
fn first_word_above(operand: Operand, base: usize, stack: &[u64]) -> u64
    requires { base ≤ length stack.now }
    ensures { result ≡ value.word_of (spec.value_of operand (drop base stack.now)) }
{
    first_word(operand, &stack[base..])
}

/// The first word of one value times another value, which stands below it.
#[tactic(auto, using(crate::proofs::Parts::cut_range, crate::proofs::Parts::take_within))]
fn scale_first(
    left: Operand,
    right: Operand,
    base: usize,
    middle: usize,
    stack: &mut Vec<u64>,
) -> Operand
    requires order { base ≤ middle }
    requires within { middle ≤ vec_len stack.old }
    ensures value { spec.value_of result (drop base stack.new.items) ≡ value.each (mul (value.word_of (spec.value_of right (drop middle stack.old.items)))) (spec.value_of left (slice_range stack.old.items base middle)) }
    ensures kept { take base stack.new.items ≡ take base stack.old.items }
{
    let factor = first_word_above(right, middle, stack);
    stack.truncate(middle);
    change(Change::Scaled(factor), left, base, stack)
}

/// A number times anything, or a matrix times a vector or a matrix.
pub(crate) fn times(
    left_type: NodeType,
    right_type: NodeType,
    left: Operand,
    right: Operand,
    base: usize,
    middle: usize,
    stack: &mut Vec<u64>,
) -> Result<Operand, NoMemory>
    requires order { base ≤ middle }
    requires within { middle ≤ vec_len stack.old }
    ensures value { IfOk result (λ operand. spec.value_of operand (drop base stack.new.items) ≡ value.times left_type right_type (spec.value_of left (slice_range stack.old.items base middle)) (spec.value_of right (drop middle stack.old.items))) }
    ensures kept { OnOk result (take base stack.new.items ≡ take base stack.old.items) }
{
    if is_scalar(left_type) {
        Ok(scale_second(left, right, base, middle, stack))
    } else if is_scalar(right_type) {
        Ok(scale_first(left, right, base, middle, stack))
    } else {
        multiply(left, right, base, middle, stack)
    }
}
