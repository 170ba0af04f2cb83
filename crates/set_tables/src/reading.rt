//! Reading a table.
ghost use Rattle.std.specs.Prelude.{◌≡◌, ◌≤◌, ◌<◌, ◌+◌, ◌^◌, ◌↔◌, [], All, IsNone, MatchResult, Ok, length, replicate};
ghost use Rattle.vocabulary.specs.Answers.{Answers};
ghost use Rattle.vocabulary.specs.declared.limits.TheConstants.{MOST_COLUMNS, MOST_ELEMENTS, MOST_FIELD_SCALE, MOST_TABLE_BYTES};
ghost use Rattle.hypergraph.specs.SetValue.{EndpointsBelow, IsSetData, SetValue};
ghost use Rattle.set_tables.specs.Schema.{Fits, IsSchema};
ghost use Rattle.set_tables.specs.Table.{element_of, elements_from, endpoint_of, endpoints_of, header_of, set_stated, table_set, word_of, words_of};
ghost use Rattle.set_tables.specs.Records.{AreShort};
ghost use Rattle.set_tables.specs.ReadingSteps.{AddsElement, AddsEndpoints, AddsWords, Gathers};

use crate::TableFault;
use crate::records::Records;
use crate::schema::{Column, Schema, is_heading, width_of};
use hypergraph::SetData;
use ring_words::{read_cell, trim_spaces};
use std::alloc::Global;
use vocabulary::L;
use vocabulary::limits::MOST_ELEMENTS;
use vocabulary::marks::LINE_FEED;

/// How many of a table's first bytes tell how long its rows are.
const SAMPLE: usize = 4_096;

/// The set that the bytes of a table state, with its endpoints in the set numbered `over`, which has `bound` elements; 0
/// for a set without endpoints. The bytes are a CSV text: a header of the headings in order, `p0`, `p1` and so on for
/// the endpoints and then those of the columns, spaces around each allowed, and then at most `MOST_ELEMENTS` rows of as
/// many cells. An endpoint's cell states a whole number from 0 on that is below `bound`, and each other a word at its
/// column's scale. Otherwise the first fault, in the order of the bytes, unless memory runs out before.
pub fn read_table(
    alloc: Global,
    schema: &Schema,
    over: Option<u32>,
    bound: u32,
    bytes: &[u8],
) -> Result<SetData, TableFault>
    requires schema { IsSchema schema.now }
    requires few_columns { schema.now.arity + length schema.now.columns ≤ MOST_COLUMNS }
    requires over_none { IsNone over ↔ (schema.now.arity ≡ 0) }
    requires size { length bytes.now ≤ MOST_TABLE_BYTES }
    ensures reads { Answers TableFault.Memory (table_set schema.now over bound bytes.now) result }
    ensures fits { (set : SetValue) → table_set schema.now over bound bytes.now ≡ Ok set → Fits schema.now set }
    ensures over { (set : SetValue) → table_set schema.now over bound bytes.now ≡ Ok set → set.over ≡ over }
    ensures endpoints_below { (set : SetValue) → table_set schema.now over bound bytes.now ≡ Ok set → EndpointsBelow set bound }
{
    let mut records = Records::of(alloc, bytes);
    read_records(alloc, schema, over, bound, &mut records, likely_rows(bytes))
}

/// How many rows the bytes have, if all are about as long as the first: how much capacity to begin with.
fn likely_rows(bytes: &[u8]) -> usize
    ensures { result ≤ MOST_ELEMENTS }
{
    let sample = &bytes[..bytes.len().min(SAMPLE)];
    let mut lines: usize = 1;
    for byte in sample {
        if *byte == LINE_FEED {
            lines = lines.saturating_add(1);
        }
    }
    let line = sample.len() / lines.max(1);
    (bytes.len() / line.max(1)).min(MOST_ELEMENTS as usize)
}

/// The set that the records state, with the capacity for so many rows to begin with.
fn read_records(
    alloc: Global,
    schema: &Schema,
    over: Option<u32>,
    bound: u32,
    records: &mut Records,
    rows: usize,
) -> Result<SetData, TableFault>
    requires schema { IsSchema schema.now }
    requires few_columns { schema.now.arity + length schema.now.columns ≤ MOST_COLUMNS }
    requires over_none { IsNone over ↔ (schema.now.arity ≡ 0) }
    requires few_rows { rows ≤ MOST_ELEMENTS }
    requires short { All AreShort records.old.left }
    ensures { Answers TableFault.Memory (set_stated schema.now over bound records.old.left) result }
{
    if !records.next_row()? {
        return Err(TableFault::NoHeader);
    }
    check_header(records, schema)?;
    let mut endpoints = Vec::with_capacity(alloc, rows * schema.arity as usize).map_err(
        |_| TableFault::Memory,
    )?;
    let mut columns = empty_columns(alloc, schema.columns.items().len(), rows)?;
    let count = read_rows(records, schema, bound, &mut endpoints, &mut columns)?;
    Ok(SetData::new(count, over, schema.arity, endpoints, L::of(columns)))
}

/// Whether the record is the header of the schema, or its fault.
fn check_header(records: &Records, schema: &Schema) -> Result<(), TableFault>
    requires schema { IsSchema schema.now }
    requires few_columns { schema.now.arity + length schema.now.columns ≤ MOST_COLUMNS }
    ensures { result ≡ header_of schema.now records.now.row }
{
    let width = width_of(schema);
    for column in 0..width {
        if column == records.width()
            || !is_heading(schema, column, trim_spaces(records.cell(column)))
        {
            return Err(TableFault::Header {
                column: column as u32,
            });
        }
    }
    if records.width() != width {
        return Err(TableFault::Header {
            column: width as u32,
        });
    }
    Ok(())
}

/// So many columns without words, each with the capacity for so many.
fn empty_columns(alloc: Global, count: usize, rows: usize) -> Result<Vec<L<u64>>, TableFault>
    ensures { MatchResult result (λ columns. columns.items ≡ replicate count []) (λ fault. fault ≡ TableFault.Memory) }
{
    let mut columns = Vec::with_capacity(alloc, count).map_err(|_| TableFault::Memory)?;
    for _column in 0..count {
        let column = Vec::with_capacity(alloc, rows).map_err(|_| TableFault::Memory)?;
        columns.push(L::of(column)).map_err(|_| TableFault::Memory)?;
    }
    Ok(columns)
}

/// Appends the endpoints and the words of the rows that are left, and tells how many rows they were.
fn read_rows(
    records: &mut Records,
    schema: &Schema,
    bound: u32,
    endpoints: &mut Vec<u32>,
    columns: &mut Vec<L<u64>>,
) -> Result<u32, TableFault>
    requires schema { IsSchema schema.now }
    requires few_columns { schema.now.arity + length schema.now.columns ≤ MOST_COLUMNS }
    requires short { All AreShort records.old.left }
    requires no_endpoints { endpoints.old.items ≡ [] }
    requires no_words { columns.old.items ≡ replicate (length schema.now.columns) [] }
    ensures { Gathers (length schema.now.columns) (elements_from schema.now bound 1 records.old.left)
        endpoints.new.items columns.new.items result }
{
    let mut count = 0;
    while records.next_row()? {
        read_row(records, schema, bound, count + 1, endpoints, columns)?;
        count += 1;
    }
    Ok(count)
}

/// Appends the endpoints and the words of a row. A row with a fault leaves some lists longer than others.
fn read_row(
    records: &Records,
    schema: &Schema,
    bound: u32,
    row: u32,
    endpoints: &mut Vec<u32>,
    columns: &mut Vec<L<u64>>,
) -> Result<(), TableFault>
    requires schema { IsSchema schema.now }
    requires few_columns { schema.now.arity + length schema.now.columns ≤ MOST_COLUMNS }
    requires short { AreShort records.now.row }
    requires as_many { length columns.old.items ≡ length schema.now.columns }
    ensures { AddsElement (element_of schema.now bound row records.now.row) endpoints.old.items endpoints.new.items
        columns.old.items columns.new.items result }
{
    if row > MOST_ELEMENTS {
        return Err(TableFault::TooManyRows);
    }
    if records.width() != width_of(schema) {
        return Err(TableFault::Width { row });
    }
    read_endpoints(records, schema.arity, bound, row, endpoints)?;
    read_words(records, schema.arity, schema.columns.items(), row, columns)
}

/// Appends the endpoints that a row begins with.
fn read_endpoints(
    records: &Records,
    arity: u32,
    bound: u32,
    row: u32,
    endpoints: &mut Vec<u32>,
) -> Result<(), TableFault>
    requires within { arity ≤ length records.now.row }
    requires short { AreShort records.now.row }
    ensures { AddsEndpoints (endpoints_of bound arity row records.now.row) endpoints.old.items endpoints.new.items result }
{
    for position in 0..arity {
        let endpoint = read_endpoint(records.cell(position as usize), bound, row, position)?;
        endpoints.push(endpoint).map_err(|_| TableFault::Memory)?;
    }
    Ok(())
}

/// The endpoint that the cell at a row and a column states.
fn read_endpoint(cell: &[u8], bound: u32, row: u32, column: u32) -> Result<u32, TableFault>
    requires { length cell.now < 2 ^ 32 }
    ensures { result ≡ endpoint_of bound row column cell.now }
{
    let word = read_word(cell, 0, row, column)?;
    if word < u64::from(bound) {
        Ok(word as u32)
    } else {
        Err(TableFault::Endpoint { row, column })
    }
}

/// The word that the cell at a row and a column states at a scale.
fn read_word(cell: &[u8], scale: u32, row: u32, column: u32) -> Result<u64, TableFault>
    requires scale { scale ≤ MOST_FIELD_SCALE }
    requires short { length cell.now < 2 ^ 32 }
    ensures { result ≡ word_of row column scale cell.now }
{
    match read_cell(scale, cell) {
        Ok(word) => Ok(word),
        Err(fault) => Err(TableFault::Cell { row, column, fault }),
    }
}

/// Appends the words after a row's endpoints, each to its column.
fn read_words(
    records: &Records,
    arity: u32,
    schema: &[Column],
    row: u32,
    columns: &mut Vec<L<u64>>,
) -> Result<(), TableFault>
    requires scales { All (λ column. column.scale ≤ MOST_FIELD_SCALE) schema.now }
    requires few_columns { arity + length schema.now ≤ MOST_COLUMNS }
    requires width { length records.now.row ≡ arity + length schema.now }
    requires short { AreShort records.now.row }
    requires as_many { length columns.old.items ≡ length schema.now }
    ensures { AddsWords (words_of arity schema.now row records.now.row) columns.old.items columns.new.items result }
{
    for (k, column) in schema.iter().enumerate() {
        let number = arity as usize + k;
        let word = read_word(records.cell(number), column.scale, row, number as u32)?;
        columns[k].push(word).map_err(|_| TableFault::Memory)?;
    }
    Ok(())
}
