//! Products, transposes and scalar products.

ghost use Rattle.std.specs.Prelude.{◌≡◌, ◌*◌, ◌++◌, IfOk, OnOk, fold, pos};
ghost use Rattle.std.specs.List.{flat_map, range_with_len, sum_by, zip};
ghost use Rattle.ring_words.specs.Word.{add, mul, word};
ghost use Rattle.value_algebra.specs.Value as spec;

use crate::value::{Value, entry};
use loop_laws::row_laws;
use ring_words::{add, mul};
use std::alloc::{AllocError, Global};
use vocabulary::{L, NoMemory};

/// The products of a row of one and a column of another, added one after the other.
fn row_products(
    left: &[u64],
    width: usize,
    right: &[u64],
    right_width: usize,
    row: usize,
    column: usize,
) -> u64
    ensures { result ≡ fold (λ sum middle. add sum (mul (spec.word_at (spec.in_rows width left.now) row middle) (spec.word_at (spec.in_rows right_width right.now) middle column))) 0 (range_with_len 0 width) }
{
    (0..width).fold(0, |sum, middle| {
        let factor = entry(left, row as u64, width as u64, middle as u64);
        let other = entry(right, middle as u64, right_width as u64, column as u64);
        add(sum, mul(factor, other))
    })
}

/// The sum of the products of a row of one and a column of another, by their words and how many columns each has.
pub fn row_times_column(
    left: &[u64],
    width: usize,
    right: &[u64],
    right_width: usize,
    row: usize,
    column: usize,
) -> u64
    ensures { result ≡ word (pos (spec.row_times_column (spec.in_rows width left.now) (spec.in_rows right_width right.now) row column)) }
{
    row_products(left, width, right, right_width, row, column)
}

/// The same of two values.
fn product_entry(left: &Value, right: &Value, row: usize, column: usize) -> u64
    ensures { result ≡ word (pos (spec.row_times_column left.now right.now row column)) }
{
    let (words, other) = (left.words.items(), right.words.items());
    row_times_column(words, left.columns, other, right.columns, row, column)
}

/// Appends a row of a product.
fn push_row(left: &Value, right: &Value, row: usize, words: &mut Vec<u64>) -> Result<(), AllocError>
    ensures { OnOk result (words.new.items ≡ words.old.items ++ spec.product_row left.now right.now row) }
{
    row_laws::<u64>();
    for column in 0..right.columns {
        words.push(product_entry(left, right, row, column))?;
    }
    Ok(())
}

/// The words of a product.
fn product_words(alloc: Global, left: &Value, right: &Value) -> Result<Vec<u64>, AllocError>
    ensures { IfOk result (λ words. words.items ≡ flat_map (spec.product_row left.now right.now) (range_with_len 0 left.now.rows)) }
{
    row_laws::<u64>();
    let mut words = Vec::new(alloc);
    for row in 0..left.rows {
        push_row(left, right, row, &mut words)?;
    }
    Ok(words)
}

/// Appends a column.
fn push_column(value: &Value, column: usize, words: &mut Vec<u64>) -> Result<(), AllocError>
    ensures { OnOk result (words.new.items ≡ words.old.items ++ spec.column_of value.now column) }
{
    row_laws::<u64>();
    for row in 0..value.rows {
        words.push(value.word_at(row, column))?;
    }
    Ok(())
}

/// The words, column by column.
fn transposed_words(alloc: Global, value: &Value) -> Result<Vec<u64>, AllocError>
    ensures { IfOk result (λ words. words.items ≡ flat_map (spec.column_of value.now) (range_with_len 0 value.now.columns)) }
{
    row_laws::<u64>();
    let mut words = Vec::new(alloc);
    for column in 0..value.columns {
        push_column(value, column, &mut words)?;
    }
    Ok(words)
}

/// The product of two matrices, or of a matrix and a vector, which is a column.
#[tactic(auto, unfolding(crate::specs::Value::product))]
pub fn product(alloc: Global, left: &Value, right: &Value) -> Result<Value, NoMemory>
    ensures { IfOk result (λ product. product ≡ spec.product left.now right.now) }
{
    match product_words(alloc, left, right) {
        Ok(words) => Ok(Value {
            rows: left.rows,
            columns: right.columns,
            words: L::of(words),
        }),
        Err(_) => Err(NoMemory),
    }
}

/// The value with rows and columns exchanged.
#[tactic(auto, unfolding(crate::specs::Value::transposed))]
pub fn transposed(alloc: Global, value: &Value) -> Result<Value, NoMemory>
    ensures { IfOk result (λ transposed. transposed ≡ spec.transposed value.now) }
{
    match transposed_words(alloc, value) {
        Ok(words) => Ok(Value {
            rows: value.columns,
            columns: value.rows,
            words: L::of(words),
        }),
        Err(_) => Err(NoMemory),
    }
}

/// The products of the words at one index of two lists, added one after the other.
fn pair_products(left: &[u64], right: &[u64]) -> u64
    ensures { result ≡ fold (λ sum pair. add sum (mul pair.0 pair.1)) 0 (zip left.now right.now) }
{
    let pairs = left.iter().zip(right);
    pairs.fold(0, |sum, (a, b)| add(sum, mul(*a, *b)))
}

/// The sum of the products of the words at one index of two lists.
pub fn sum_of_products(left: &[u64], right: &[u64]) -> u64
    ensures { result ≡ word (pos (sum_by (λ pair. pair.0 * pair.1) (zip left.now right.now))) }
{
    pair_products(left, right)
}

/// The sum of the products of the words of two values of one size.
#[tactic(auto, unfolding(crate::specs::Value::dot))]
pub fn dot(alloc: Global, left: &Value, right: &Value) -> Result<Value, NoMemory>
    ensures { IfOk result (λ dot. dot ≡ spec.dot left.now right.now) }
{
    let sum = sum_of_products(left.words.items(), right.words.items());
    Value::number(alloc, sum)
}
