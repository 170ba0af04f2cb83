//! Values as words that stand in rows.

ghost use Rattle.std.specs.Prelude.{◌≡◌, ◌+◌, ◌*◌, IfOk, slice_index};
ghost use Rattle.value_algebra.specs.Value as spec;

use std::alloc::Global;
use type_rules::BlockShape;
use vocabulary::{L, NoMemory};

/// A value: so many rows and columns of words. A vector is a column; entries of system values are counted over the whole
/// value, element times side plus component.
#[derive(Drop)]
pub struct Value {
    pub rows: usize,
    pub columns: usize,
    /// The words, row by row.
    pub words: L<u64>,
}

impl Value {
    /// A number.
    pub fn number(alloc: Global, word: u64) -> Result<Value, NoMemory>
        ensures { IfOk result (λ value. value ≡ spec.number word) }
    {
        let words = vec![in alloc; word].map_err(|_| NoMemory)?;
        Ok(Value {
            rows: 1,
            columns: 1,
            words: L::of(words),
        })
    }

    /// The value of a block with these words.
    pub fn of_block(block: BlockShape, words: L<u64>) -> Value
        ensures { result ≡ spec.block_value block words }
    {
        match block {
            BlockShape::Number => Value {
                rows: 1,
                columns: 1,
                words,
            },
            BlockShape::Vector(side) => Value {
                rows: side as usize,
                columns: 1,
                words,
            },
            BlockShape::Matrix(rows, columns) => Value {
                rows: rows as usize,
                columns: columns as usize,
                words,
            },
        }
    }

    /// The value of so many rows and columns with these words.
    pub(crate) fn of(rows: usize, columns: usize, words: Vec<u64>) -> Value
        ensures { result ≡ record { rows = rows; columns = columns; words = words.items } }
    {
        Value {
            rows,
            columns,
            words: L::of(words),
        }
    }

    /// An equal value.
    pub fn copy(&self, alloc: Global) -> Result<Value, NoMemory>
        ensures { IfOk result (λ value. value ≡ self.now) }
    {
        let words = self.words.copy(alloc)?;
        Ok(Value {
            rows: self.rows,
            columns: self.columns,
            words,
        })
    }

    /// The word of an index, counted row by row; 0 where there is none.
    pub fn word(&self, index: usize) -> u64
        ensures { result ≡ slice_index self.now.words index }
    {
        self.words.items().get(index).copied().unwrap_or(0)
    }

    /// The word of a number.
    pub fn word_of(&self) -> u64
        ensures { result ≡ spec.word_of self.now }
    {
        self.word(0)
    }

    /// The word of a row and a column; 0 where there is none.
    pub fn word_at(&self, row: usize, column: usize) -> u64
        ensures { result ≡ spec.word_at self.now row column }
    {
        entry(
            self.words.items(),
            row as u64,
            self.columns as u64,
            column as u64,
        )
    }
}

/// The word of a row and a column, where a row has so many; 0 where there is none.
#[tactic(auto, using(std::proofs::lemmas::List::get_or_past))]
pub fn entry(words: &[u64], row: u64, columns: u64, column: u64) -> u64
    ensures { result ≡ slice_index words.now (row * columns + column) }
{
    let index = row as u128 * columns as u128 + column as u128;
    if index < words.len() as u128 {
        words[index as usize]
    } else {
        0
    }
}
