//! Fields of sets as values.

ghost use Rattle.std.specs.Prelude.{◌≡◌, ℕ, ◌+◌, ◌++◌, ◌≤◌, IfOk, OnErr, OnOk, fold, length, map, min, slice_index, slice_set, take};
ghost use Rattle.std.specs.List.{flat_map, range_with_len};
ghost use Rattle.hypergraph.specs.SetValue.{column_at, with_column};
ghost use Rattle.hypergraph.specs.Sets.{set_at};
ghost use Rattle.typed_tree.specs.Cost.{entries_in};
ghost use Rattle.value_algebra.specs.Fields as spec;
ghost use Rattle.value_algebra.specs.Fields.{HaveLength};
ghost use Rattle.value_algebra.specs.declared.fields.TheConstants.{PAST_COLUMNS};

use crate::value::{Value, entry};
use hypergraph::Sets;
use loop_laws::row_laws;
use std::alloc::{AllocError, Global};
use type_rules::BlockShape;
use typed_tree::{ElementType, TypedField, TypedSet};
use vocabulary::limits::MOST_COLUMNS;
use vocabulary::{L, NoMemory};

/// No set has a column of this number, or of one above it.
pub const PAST_COLUMNS: u64 = 64;

/// The fields of an element type; none where there is no such type.
#[inline]
pub fn fields_of(elements: &[ElementType], element: u32) -> &[TypedField]
    ensures { result.now ≡ spec.fields_of elements.now element }
{
    match elements.get(element as usize) {
        Some(element) => element.fields.items(),
        None => &[],
    }
}

/// The type of the elements of a set; 0 where there is no such set.
#[inline]
pub fn element_in(sets: &[TypedSet], set: u32) -> u32
    ensures { result ≡ spec.element_in sets.now set }
{
    match sets.get(set as usize) {
        Some(set) => set.shape.element,
        None => 0,
    }
}

/// How many words a block has.
#[inline]
pub fn entries(block: BlockShape) -> u64
    ensures { result ≡ entries_in block }
{
    match block {
        BlockShape::Number => 1,
        BlockShape::Vector(side) => u64::from(side),
        BlockShape::Matrix(rows, columns) => u64::from(rows) * u64::from(columns),
    }
}

/// The block of a field; a number where there is no such field.
#[inline]
pub fn block_of(fields: &[TypedField], field: u32) -> BlockShape
    ensures { result ≡ spec.block_of fields.now field }
{
    match fields.get(field as usize) {
        Some(field) => field.block,
        None => BlockShape::Number,
    }
}

/// A column's number with more columns before it, cut down to the first that no set has.
#[inline]
fn further(column: u64, more: u64) -> u64
    ensures { result ≡ min (column + more) PAST_COLUMNS }
{
    column.saturating_add(more).min(PAST_COLUMNS)
}

/// The columns that stand before those of a field, as many as a set may have.
#[inline]
fn columns_before(fields: &[TypedField], field: u32) -> u64
    ensures { result ≡ fold (λ before f. min (before + entries_in f.block) PAST_COLUMNS) 0 (take field fields.now) }
{
    fields
        .iter()
        .take(field as usize)
        .fold(0, |before, field| further(before, entries(field.block)))
}

/// The first column of a field, cut down to the first that no set has.
#[inline]
pub fn first_column(fields: &[TypedField], field: u32) -> u64
    ensures { result ≡ min (spec.first_column fields.now field) PAST_COLUMNS }
{
    columns_before(fields, field)
}

/// The words of a column; none where there is no such column. The column's number is cut down to the first that no set has.
#[inline]
#[tactic(auto, using(std::proofs::lemmas::List::get_or_past))]
fn column(sets: &Sets, set: u32, column: u64) -> &[u64]
    ensures { (number : ℕ) → min number PAST_COLUMNS ≡ column → result.now ≡ column_at (set_at sets.now set) number }
{
    if set < sets.len() && column < u64::from(sets.columns(set)) {
        sets.column(set, column as u32)
    } else {
        &[]
    }
}

/// How many elements a set has; 0 where there is no such set.
#[inline]
#[tactic(auto, using(std::proofs::lemmas::List::get_or_past))]
pub fn count(sets: &Sets, set: u32) -> u32
    ensures { result ≡ (set_at sets.now set).count }
{
    if set < sets.len() { sets.count(set) } else { 0 }
}

/// The word of an element in a column, as many past the first of a field; 0 where there is none.
#[inline]
pub fn entry_of(sets: &Sets, set: u32, element: usize, first: u64, component: u64) -> u64
    ensures { (number : ℕ) → min number PAST_COLUMNS ≡ first → result ≡ spec.entry_of (set_at sets.now set) element (number + component) }
{
    let words = column(sets, set, further(first, component));
    words.get(element).copied().unwrap_or(0)
}

/// Appends the words of a field at an element.
#[inline]
pub fn push_element(
    fields: &[TypedField],
    sets: &Sets,
    set: u32,
    field: u32,
    element: usize,
    words: &mut Vec<u64>,
) -> Result<(), AllocError>
    ensures { OnOk result (words.new.items ≡ words.old.items ++ spec.element_words fields.now (set_at sets.now set) field element) }
{
    row_laws::<u64>();
    let first = first_column(fields, field);
    for component in 0..entries(block_of(fields, field)) {
        words.push(entry_of(sets, set, element, first, component))?;
    }
    Ok(())
}

/// The columns of a set from one on, so many of them.
fn columns_from<'a>(
    alloc: Global,
    sets: &'a Sets,
    set: u32,
    first: u64,
    size: u64,
) -> Result<Vec<&'a [u64]>, AllocError>
    ensures { (number : ℕ) → min number PAST_COLUMNS ≡ first → IfOk result (λ columns. map (λ words. words.now) columns.items ≡ map (λ component. column_at (set_at sets.now set) (number + component)) (range_with_len 0 size)) }
{
    let mut columns = Vec::new(alloc);
    for component in 0..size {
        columns.push(column(sets, set, further(first, component)))?;
    }
    Ok(columns)
}

/// Appends the words of an element in several columns.
fn push_entries(columns: &[&[u64]], element: usize, words: &mut Vec<u64>) -> Result<(), AllocError>
    ensures { OnOk result (words.new.items ≡ words.old.items ++ map (λ column. slice_index column.now element) columns.now) }
{
    for column in columns {
        words.push(column.get(element).copied().unwrap_or(0))?;
    }
    Ok(())
}

/// Appends the words in several columns, element after element.
fn push_rows(columns: &[&[u64]], count: u32, words: &mut Vec<u64>) -> Result<(), AllocError>
    ensures { OnOk result (words.new.items ≡ words.old.items ++ flat_map (λ element. map (λ column. slice_index column.now element) columns.now) (range_with_len 0 count)) }
{
    row_laws::<u64>();
    for element in 0..count as usize {
        push_entries(columns, element, words)?;
    }
    Ok(())
}

/// Appends the words of a field over a set, out of the columns from one on.
fn push_columns(
    sets: &Sets,
    set: u32,
    first: u64,
    size: u64,
    words: &mut Vec<u64>,
) -> Result<(), AllocError>
    ensures { (number : ℕ) → min number PAST_COLUMNS ≡ first → OnOk result (words.new.items ≡ words.old.items ++ flat_map (λ element. map (λ component. spec.entry_of (set_at sets.now set) element (number + component)) (range_with_len 0 size)) (range_with_len 0 (set_at sets.now set).count)) }
{
    let columns = columns_from(*words.allocator(), sets, set, first, size)?;
    push_rows(&columns, count(sets, set), words)
}

/// Appends the words of a field over a set. Where a column has them all, they are its words.
#[tactic(auto, using(crate::proofs::Columns::column_over))]
pub fn push_over(
    fields: &[TypedField],
    sets: &Sets,
    set: u32,
    field: u32,
    words: &mut Vec<u64>,
) -> Result<(), AllocError>
    ensures { OnOk result (words.new.items ≡ words.old.items ++ flat_map (spec.element_words fields.now (set_at sets.now set) field) (range_with_len 0 (set_at sets.now set).count)) }
{
    let first = first_column(fields, field);
    let size = entries(block_of(fields, field));
    let whole = column(sets, set, first);
    if size == 1 && whole.len() == count(sets, set) as usize {
        words.extend_from_slice(whole)
    } else {
        push_columns(sets, set, first, size, words)
    }
}

/// The words of a field at an element.
fn words_at(
    alloc: Global,
    fields: &[TypedField],
    sets: &Sets,
    set: u32,
    field: u32,
    element: usize,
) -> Result<Vec<u64>, AllocError>
    ensures { IfOk result (λ words. words.items ≡ spec.element_words fields.now (set_at sets.now set) field element) }
{
    let mut words = Vec::new(alloc);
    push_element(fields, sets, set, field, element, &mut words)?;
    Ok(words)
}

/// The value of a field at one element.
#[tactic(auto, unfolding(crate::specs::Fields::field_at))]
pub fn field_at(
    alloc: Global,
    fields: &[TypedField],
    sets: &Sets,
    set: u32,
    field: u32,
    element: usize,
) -> Result<Value, NoMemory>
    ensures { IfOk result (λ value. value ≡ spec.field_at fields.now (set_at sets.now set) field element) }
{
    match words_at(alloc, fields, sets, set, field, element) {
        Ok(words) => Ok(Value::of_block(block_of(fields, field), L::of(words))),
        Err(_) => Err(NoMemory),
    }
}

/// The value of a field over a set.
#[tactic(auto, unfolding(crate::specs::Fields::field_over))]
pub fn field_over(
    alloc: Global,
    fields: &[TypedField],
    sets: &Sets,
    set: u32,
    field: u32,
) -> Result<Value, NoMemory>
    ensures { IfOk result (λ value. value ≡ spec.field_over fields.now (set_at sets.now set) field) }
{
    let size = entries(block_of(fields, field));
    let Some(rows) = u64::from(count(sets, set)).checked_mul(size) else {
        return Err(NoMemory);
    };
    let mut words = Vec::new(alloc);
    match push_over(fields, sets, set, field, &mut words) {
        Ok(()) => Ok(Value {
            rows: rows as usize,
            columns: 1,
            words: L::of(words),
        }),
        Err(_) => Err(NoMemory),
    }
}

/// The words of one of several columns, out of words that stand element after element.
fn column_words(
    alloc: Global,
    count: u32,
    size: u64,
    words: &[u64],
    component: u64,
) -> Result<Vec<u64>, AllocError>
    ensures { IfOk result (λ column. column.items ≡ spec.column_words count size words.now component) }
{
    let column = (0..count).map(|element| entry(words, u64::from(element), size, component));
    column.collect(alloc)
}

/// The columns of words that stand element after element.
#[tactic(auto, using(crate::proofs::Columns::no_columns, crate::proofs::Columns::more_columns))]
fn columns_of(
    alloc: Global,
    count: u32,
    size: u64,
    words: &[u64],
) -> Result<Vec<L<u64>>, AllocError>
    ensures columns { IfOk result (λ columns. columns.items ≡ map (spec.column_words count size words.now) (range_with_len 0 size)) }
    ensures lengths { IfOk result (λ columns. HaveLength count columns.items) }
{
    let mut columns = Vec::new(alloc);
    for component in 0..size {
        let column = column_words(alloc, count, size, words, component)?;
        columns.push(L::of(column))?;
    }
    Ok(columns)
}

/// The columns of words that stand element after element; where there is one, it is these words.
#[tactic(auto, using(crate::proofs::Columns::one_column, crate::proofs::Columns::one_length))]
fn columns_made(
    alloc: Global,
    count: u32,
    size: u64,
    words: L<u64>,
) -> Result<Vec<L<u64>>, AllocError>
    ensures columns { IfOk result (λ columns. columns.items ≡ map (spec.column_words count size words) (range_with_len 0 size)) }
    ensures lengths { IfOk result (λ columns. HaveLength count columns.items) }
{
    if size == 1 && words.items().len() == count as usize {
        let mut columns = Vec::new(alloc);
        columns.push(words)?;
        Ok(columns)
    } else {
        columns_of(alloc, count, size, words.items())
    }
}

/// Replaces a column by as many words, where there is such a column.
#[tactic(auto, using(std::proofs::lemmas::List::get_or_past, std::proofs::lemmas::List::set_past))]
fn set_column(sets: &mut Sets, set: u32, column: u64, words: L<u64>)
    requires { length words ≡ (set_at sets.old set).count }
    ensures { (number : ℕ) → min number PAST_COLUMNS ≡ column → sets.new ≡ slice_set sets.old set (with_column (set_at sets.old set) number words) }
{
    if set < sets.len() && column < u64::from(sets.columns(set)) {
        let _old = sets.set_column(set, column as u32, words);
    }
}

/// Replaces the columns from one on, those that are there.
fn set_columns(sets: &mut Sets, set: u32, first: u64, columns: Vec<L<u64>>)
    requires first { first ≤ PAST_COLUMNS }
    requires lengths { HaveLength (set_at sets.old set).count columns.items }
    ensures { (number : ℕ) → min number PAST_COLUMNS ≡ first → sets.new ≡ slice_set sets.old set (spec.with_columns (set_at sets.old set) number columns.items) }
{
    let mut column = first;
    for words in columns {
        set_column(sets, set, column, words);
        column = further(column, 1);
    }
}

/// Gives a field of a set other words, element after element, each its block row by row; where the set or one of the
/// field's columns isn't there, it stays so. Out of memory nothing changes.
#[tactic(auto, unfolding(crate::specs::Fields::with_field))]
pub fn with_field(
    alloc: Global,
    fields: &[TypedField],
    sets: &mut Sets,
    set: u32,
    field: u32,
    words: L<u64>,
) -> Result<(), NoMemory>
    ensures assigned { OnOk result (sets.new ≡ slice_set sets.old set (spec.with_field fields.now (set_at sets.old set) field words)) }
    ensures unchanged { OnErr result (sets.new ≡ sets.old) }
{
    let size = entries(block_of(fields, field));
    match columns_made(alloc, count(sets, set), size, words) {
        Ok(columns) => {
            set_columns(sets, set, first_column(fields, field), columns);
            Ok(())
        }
        Err(_) => Err(NoMemory),
    }
}
