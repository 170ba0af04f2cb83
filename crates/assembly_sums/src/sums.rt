//! The results of a map so far.

use crate::block::add_in;
use crate::sizes::{elements_of, height, region_of, width};
use hypergraph::Sets;
use std::alloc::Global;
use std::marker::Model;
use typed_tree::TypedResult;
use value_algebra::{Value, count};
use vocabulary::{L, NoMemory};

/// The results of a map so far. In contracts: the list of their values.
#[derive(Drop)]
pub struct Sums {
    values: Vec<Value>,
    alloc: Global,
}

impl Model for Sums {
    ghost use Rattle.std.specs.Prelude.{List};
    ghost use Rattle.value_algebra.specs.declared.value.Value as value;

    ghost Value = { List value.Value };

    ghost view = { λ s. s.values.items };
}

ghost use Rattle.std.specs.Prelude.{◌≡◌, [], ◌∷◌, ◌++◌, List, IfOk, replicate};
ghost use Rattle.hypergraph.specs.SetValue.{SetValue};
ghost use Rattle.algebra_meaning.specs.declared.contribution.Contribution.{Contribution};
ghost use Rattle.algebra_meaning.specs.Assembled.{all_assembled, assembled};

/// So many words, all 0.
fn zero_words(alloc: Global, size: usize) -> Result<L<u64>, NoMemory>
    ensures { IfOk result (λ words. words ≡ replicate size 0) }
{
    match vec![in alloc; 0; size] {
        Ok(words) => Ok(L::of(words)),
        Err(_) => Err(NoMemory),
    }
}

/// The value of a result to which nothing has been added: all its entries are 0.
fn zero_value(alloc: Global, sets: &Sets, typed: &TypedResult) -> Result<Value, NoMemory>
    ensures { IfOk result (λ value. value ≡ assembled sets.now [] 0 typed.now) }
{
    let rows = count(sets, typed.rows.set) as usize * height(typed.block) as usize;
    let columns = elements_of(sets, typed.columns) as usize * width(typed.block) as usize;
    let Some(size) = rows.checked_mul(columns) else {
        return Err(NoMemory);
    };
    let words = zero_words(alloc, size)?;
    Ok(Value {
        rows,
        columns,
        words,
    })
}

impl Sums {
    /// Nothing has been added: all entries are 0.
    pub fn zeros(alloc: Global, sets: &Sets, results: &[TypedResult]) -> Result<Sums, NoMemory>
        ensures { IfOk result (λ sums. sums ≡ all_assembled sets.now [] 0 results.now) }
    {
        let mut values = Vec::with_capacity(alloc, results.len()).map_err(|_| NoMemory)?;
        for typed in results {
            let value = zero_value(alloc, sets, typed)?;
            values.push(value).map_err(|_| NoMemory)?;
        }
        Ok(Sums { values, alloc })
    }

    /// A block is added at a row and a column of a result. Where the result, the row or the column isn't there, nothing is.
    pub fn add(
        &mut self,
        results: &[TypedResult],
        number: u32,
        row: u32,
        column: u32,
        rows: usize,
        columns: usize,
        words: &[u64],
    )
        ensures { (sets : List SetValue) (contributed : List Contribution) → self.old ≡ all_assembled sets contributed 0 results.now
            → self.new ≡ all_assembled sets (contributed ++ record { result = number; row = row; column = column; block = record { rows = rows; columns = columns; words = words.now } } ∷ []) 0 results.now }
    {
        let index = number as usize;
        if index < results.len() && index < self.values.len() {
            let region = region_of(results[index].block, row, column);
            add_in(self.alloc, &mut self.values[index], region, words, columns);
        }
    }

    /// The results.
    pub fn into_values(self) -> L<Value>
        ensures { result ≡ self }
    {
        L::of(self.values)
    }
}
