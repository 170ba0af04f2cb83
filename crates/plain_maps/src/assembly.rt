//! Results assembled of contributions.

ghost use Rattle.std.specs.Prelude.{◌≡◌, ◌*◌, ◌++◌, IfOk, OnOk, map};
ghost use Rattle.std.specs.List.{flat_map, range_with_len};
ghost use Rattle.hypergraph.specs.Sets.{set_at};
ghost use Rattle.algebra_meaning.specs.Assembled as spec;

use crate::entries::{BlockPlace, entry};
use algebra_meaning::Contribution;
use hypergraph::Sets;
use loop_laws::row_laws;
use std::alloc::{AllocError, Global};
use type_rules::BlockShape;
use typed_tree::{ResultSide, TypedResult};
use value_algebra::{Value, count};
use vocabulary::{L, NoMemory};

/// How many rows a block has.
fn height(block: BlockShape) -> u32
    ensures { result ≡ spec.height block }
{
    match block {
        BlockShape::Number => 1,
        BlockShape::Vector(side) => side,
        BlockShape::Matrix(rows, _) => rows,
    }
}

/// How many columns a block has.
fn width(block: BlockShape) -> u32
    ensures { result ≡ spec.width block }
{
    match block {
        BlockShape::Number | BlockShape::Vector(_) => 1,
        BlockShape::Matrix(_, columns) => columns,
    }
}

/// How many elements the columns of a result have; a system vector has one.
fn elements_of(sets: &Sets, side: Option<ResultSide>) -> u32
    ensures { result ≡ spec.elements_of sets.now side }
{
    match side {
        None => 1,
        Some(side) => count(sets, side.set),
    }
}

/// How a result is laid out.
#[derive(Clone, Copy)]
struct Layout {
    /// The number of the result.
    number: usize,
    /// The elements of its rows and of its columns.
    rows: u32,
    columns: u32,
    /// The rows and the columns of a block.
    height: u32,
    width: u32,
}

/// Appends a row of a block.
fn push_block_row(
    contributed: &[Contribution],
    place: BlockPlace,
    width: u32,
    r: u32,
    words: &mut Vec<u64>,
) -> Result<(), AllocError>
    ensures { OnOk result (words.new.items ≡ words.old.items ++ map (spec.entry contributed.now place.number place.row place.column r) (range_with_len 0 width)) }
{
    row_laws::<u64>();
    for c in 0..width {
        words.push(entry(contributed, place, r, c))?;
    }
    Ok(())
}

/// Appends the entries of a row: of a row of elements and of their blocks.
fn push_row(
    contributed: &[Contribution],
    layout: Layout,
    row: u32,
    r: u32,
    words: &mut Vec<u64>,
) -> Result<(), AllocError>
    ensures { OnOk result (words.new.items ≡ words.old.items ++ spec.row_entries contributed.now layout.number layout.columns layout.width row r) }
{
    row_laws::<u64>();
    for column in 0..layout.columns {
        let place = BlockPlace {
            number: layout.number,
            row,
            column,
        };
        push_block_row(contributed, place, layout.width, r, words)?;
    }
    Ok(())
}

/// Appends all rows of a row of elements.
fn push_block_rows(
    contributed: &[Contribution],
    layout: Layout,
    row: u32,
    words: &mut Vec<u64>,
) -> Result<(), AllocError>
    ensures { OnOk result (words.new.items ≡ words.old.items ++ flat_map (spec.row_entries contributed.now layout.number layout.columns layout.width row) (range_with_len 0 layout.height)) }
{
    row_laws::<u64>();
    for r in 0..layout.height {
        push_row(contributed, layout, row, r, words)?;
    }
    Ok(())
}

/// The words of a result.
fn words_of(
    alloc: Global,
    contributed: &[Contribution],
    layout: Layout,
) -> Result<Vec<u64>, AllocError>
    ensures { IfOk result (λ words. words.items ≡ flat_map (λ row. flat_map (spec.row_entries contributed.now layout.number layout.columns layout.width row) (range_with_len 0 layout.height)) (range_with_len 0 layout.rows)) }
{
    row_laws::<u64>();
    let mut words = Vec::new(alloc);
    for row in 0..layout.rows {
        push_block_rows(contributed, layout, row, &mut words)?;
    }
    Ok(words)
}

/// How many rows or columns so many elements have with so many each.
fn entries_along(elements: u32, each: u32) -> usize
    ensures { result ≡ elements * each }
{
    elements as usize * each as usize
}

/// A result of a number, assembled of contributions.
#[tactic(auto, unfolding(algebra_meaning::specs::Assembled::assembled))]
fn assembled(
    alloc: Global,
    sets: &Sets,
    contributed: &[Contribution],
    number: usize,
    typed: TypedResult,
) -> Result<Value, NoMemory>
    ensures { IfOk result (λ value. value ≡ spec.assembled sets.now contributed.now number typed) }
{
    let layout = Layout {
        number,
        rows: count(sets, typed.rows.set),
        columns: elements_of(sets, typed.columns),
        height: height(typed.block),
        width: width(typed.block),
    };
    match words_of(alloc, contributed, layout) {
        Ok(words) => Ok(Value {
            rows: entries_along(layout.rows, layout.height),
            columns: entries_along(layout.columns, layout.width),
            words: L::of(words),
        }),
        Err(_) => Err(NoMemory),
    }
}

/// The results of a function, assembled of contributions.
#[tactic(auto, using(crate::proofs::Results::result_assembled, crate::proofs::Results::results_ended))]
pub(crate) fn all_assembled(
    alloc: Global,
    sets: &Sets,
    contributed: &[Contribution],
    results: &[TypedResult],
) -> Result<L<Value>, NoMemory>
    ensures { IfOk result (λ values. values ≡ spec.all_assembled sets.now contributed.now 0 results.now) }
{
    let mut values = L::empty(alloc);
    for (number, typed) in results.iter().enumerate() {
        let value = assembled(alloc, sets, contributed, number, *typed)?;
        values.push(value)?;
    }
    Ok(values)
}
