//! Writing a table.
ghost use Rattle.std.specs.Prelude.{◌≡◌, ◌≤◌, ◌<◌, ◌+◌, ◌*◌, ◌^◌, ◌++◌, ◌∷◌, [], All, length, map, take, slice_index, vec_len, vec_capacity};
ghost use Rattle.vocabulary.specs.Buffer.{Appends};
ghost use Rattle.vocabulary.specs.declared.limits.TheConstants.{MOST_COLUMNS, MOST_ENDPOINTS, MOST_FIELD_SCALE};
ghost use Rattle.hypergraph.specs.SetValue.{endpoint_at};
ghost use Rattle.hypergraph.specs.Sets.{set_at};
ghost use Rattle.ring_words.specs.Cell.{text};
ghost use Rattle.set_tables.specs.Schema.{Fits, IsSchema, endpoint_heading, headings};
ghost use Rattle.set_tables.specs.Output.{element_cells, line, name_line, table_text, element_lines};
ghost use Rattle.set_tables.specs.WritingSteps.{AreWordsOf, column_headings_text, endpoint_headings_text, endpoints_text, separated, separator, words_text};

use crate::schema::{Column, Schema};
use hypergraph::Sets;
use itoa::Buffer;
use ring_words::write_cell;
use vocabulary::append;
use vocabulary::limits::MOST_COLUMNS;
use vocabulary::marks::{COMMA, LINE_FEED};

/// Appends the text of a set's table. The buffer has the capacity for it, which stays as it is: this takes no memory.
pub fn write_table(schema: &Schema, sets: &Sets, set: u32, to: &mut Vec<u8>)
    requires schema { IsSchema schema.now }
    requires set { set < length sets.now }
    requires fits { Fits schema.now (set_at sets.now set) }
    requires capacity { vec_len to.old + length (table_text schema.now (set_at sets.now set)) ≤ vec_capacity to.old }
    ensures { Appends to.old to.new (table_text schema.now (set_at sets.now set)) }
{
    write_name(schema.name.as_str(), to);
    write_header(schema, to);
    let words = fetch_columns(sets, set);
    write_elements(schema, sets, set, &words[..sets.columns(set) as usize], to);
}

/// The words of each of a set's columns.
fn fetch_columns(sets: &Sets, set: u32) -> [&[u64]; MOST_COLUMNS as usize]
    requires { set < length sets.now }
    ensures { AreWordsOf (set_at sets.now set) (take (length (set_at sets.now set).columns) result) }
{
    let mut words: [&[u64]; MOST_COLUMNS as usize] = [&[]; MOST_COLUMNS as usize];
    for column in 0..sets.columns(set) {
        words[column as usize] = sets.column(set, column);
    }
    words
}

/// Appends the line that names a set.
fn write_name(name: &str, to: &mut Vec<u8>)
    requires { vec_len to.old + length (name_line name.now) ≤ vec_capacity to.old }
    ensures { Appends to.old to.new (name_line name.now) }
{
    append(b"set ", to);
    append(name.as_bytes(), to);
    append(&[LINE_FEED], to);
}

/// Appends the line of headings.
fn write_header(schema: &Schema, to: &mut Vec<u8>)
    requires schema { IsSchema schema.now }
    requires capacity { vec_len to.old + length (line (headings schema.now)) ≤ vec_capacity to.old }
    ensures { Appends to.old to.new (line (headings schema.now)) }
{
    write_endpoint_headings(schema.arity, to);
    write_column_headings(schema.arity, schema.columns.items(), to);
    append(&[LINE_FEED], to);
}

/// Appends the headings of so many endpoints, as a line begins with them.
fn write_endpoint_headings(arity: u32, to: &mut Vec<u8>)
    requires { vec_len to.old + length (endpoint_headings_text arity) ≤ vec_capacity to.old }
    ensures { Appends to.old to.new (endpoint_headings_text arity) }
{
    for position in 0..arity {
        write_endpoint_heading(position, to);
    }
}

/// Appends the heading of the endpoints at a position, and before it what parts it from the last.
fn write_endpoint_heading(position: u32, to: &mut Vec<u8>)
    requires { vec_len to.old + length (separated position (endpoint_heading position)) ≤ vec_capacity to.old }
    ensures { Appends to.old to.new (separated position (endpoint_heading position)) }
{
    separate(position as usize, to);
    append(b"p", to);
    append(Buffer::new().format(position).as_bytes(), to);
}

/// Appends the headings of the columns, as a line goes on with them after so many endpoints.
fn write_column_headings(arity: u32, columns: &[Column], to: &mut Vec<u8>)
    requires few { arity ≤ MOST_ENDPOINTS }
    requires capacity { vec_len to.old + length (column_headings_text arity columns.now) ≤ vec_capacity to.old }
    ensures { Appends to.old to.new (column_headings_text arity columns.now) }
{
    for (k, column) in columns.iter().enumerate() {
        write_heading(arity as usize + k, column.heading.as_str(), to);
    }
}

/// Appends the heading of a column, and before it what parts it from the last.
fn write_heading(column: usize, heading: &str, to: &mut Vec<u8>)
    requires { vec_len to.old + length (separated column heading.now) ≤ vec_capacity to.old }
    ensures { Appends to.old to.new (separated column heading.now) }
{
    separate(column, to);
    append(heading.as_bytes(), to);
}

/// Appends the lines of the elements.
fn write_elements(schema: &Schema, sets: &Sets, set: u32, words: &[&[u64]], to: &mut Vec<u8>)
    requires schema { IsSchema schema.now }
    requires set { set < length sets.now }
    requires fits { Fits schema.now (set_at sets.now set) }
    requires words { AreWordsOf (set_at sets.now set) words.now }
    requires capacity { vec_len to.old + length (element_lines schema.now (set_at sets.now set)) ≤ vec_capacity to.old }
    ensures { Appends to.old to.new (element_lines schema.now (set_at sets.now set)) }
{
    for element in 0..sets.count(set) {
        write_element(schema, sets, set, words, element, to);
    }
}

/// Appends the line of an element.
fn write_element(
    schema: &Schema,
    sets: &Sets,
    set: u32,
    words: &[&[u64]],
    element: u32,
    to: &mut Vec<u8>,
)
    requires schema { IsSchema schema.now }
    requires set { set < length sets.now }
    requires fits { Fits schema.now (set_at sets.now set) }
    requires words { AreWordsOf (set_at sets.now set) words.now }
    requires element { element < (set_at sets.now set).count }
    requires capacity { vec_len to.old + length (line (element_cells schema.now (set_at sets.now set) element)) ≤ vec_capacity to.old }
    ensures { Appends to.old to.new (line (element_cells schema.now (set_at sets.now set) element)) }
{
    write_endpoints(schema.arity, sets, set, element, to);
    write_words(schema.arity, schema.columns.items(), words, element, to);
    append(&[LINE_FEED], to);
}

/// Appends the endpoints of an element, as a line begins with them.
fn write_endpoints(arity: u32, sets: &Sets, set: u32, element: u32, to: &mut Vec<u8>)
    requires set { set < length sets.now }
    requires arity { arity ≡ (set_at sets.now set).arity }
    requires element { element < (set_at sets.now set).count }
    requires capacity { vec_len to.old + length (endpoints_text arity (set_at sets.now set) element) ≤ vec_capacity to.old }
    ensures { Appends to.old to.new (endpoints_text arity (set_at sets.now set) element) }
{
    for position in 0..arity {
        let endpoint = sets.end(set, element, position);
        write_word(position as usize, 0, u64::from(endpoint), to);
    }
}

/// Appends the words of an element, as a line goes on with them after so many endpoints.
fn write_words(arity: u32, columns: &[Column], words: &[&[u64]], element: u32, to: &mut Vec<u8>)
    requires few { arity ≤ MOST_ENDPOINTS }
    requires scales { All (λ column. column.scale ≤ MOST_FIELD_SCALE) columns.now }
    requires as_many { length words.now ≡ length columns.now }
    requires element { All (λ column. element < length column.now) words.now }
    requires capacity { vec_len to.old + length (words_text arity columns.now (map (λ column. column.now) words.now) element) ≤ vec_capacity to.old }
    ensures { Appends to.old to.new (words_text arity columns.now (map (λ column. column.now) words.now) element) }
{
    for (k, column) in columns.iter().enumerate() {
        let word = words[k][element as usize];
        write_word(arity as usize + k, column.scale, word, to);
    }
}

/// Appends the text of a word at a scale as the cell of a column, and before it what parts it from the last.
#[inline]
fn write_word(column: usize, scale: u32, word: u64, to: &mut Vec<u8>)
    requires scale { scale ≤ MOST_FIELD_SCALE }
    requires capacity { vec_len to.old + length (separated column (text scale word)) ≤ vec_capacity to.old }
    ensures { Appends to.old to.new (separated column (text scale word)) }
{
    separate(column, to);
    write_cell(scale, word, to);
}

/// Appends what stands before the cell of a column: a comma, but for the first.
#[inline]
fn separate(column: usize, to: &mut Vec<u8>)
    requires { vec_len to.old + length (separator column) ≤ vec_capacity to.old }
    ensures { Appends to.old to.new (separator column) }
{
    if column != 0 {
        append(&[COMMA], to);
    }
}
