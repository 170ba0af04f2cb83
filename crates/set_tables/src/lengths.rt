//! The length of a table's text.
ghost use Rattle.std.specs.Prelude.{◌≡◌, ◌≤◌, ◌<◌, ◌+◌, ◌*◌, ◌^◌, All, length};
ghost use Rattle.vocabulary.specs.declared.limits.TheConstants.{MOST_COLUMNS, MOST_ELEMENTS, MOST_ENDPOINTS, MOST_FIELD_SCALE};
ghost use Rattle.hypergraph.specs.Sets.{set_at};
ghost use Rattle.set_tables.specs.Schema.{Fits, IsSchema, endpoint_heading};
ghost use Rattle.set_tables.specs.Output.{name_line, table_text};
ghost use Rattle.set_tables.specs.WritingSteps.{column_headings_size, column_size, columns_size, element_endpoints_size, endpoint_headings_size, endpoints_size, marks};

use crate::schema::{Column, Schema};
use hypergraph::Sets;
use itoa::Buffer;
use ring_words::cell_len;

/// The length of the text of a set's table, in bytes.
pub fn text_len(schema: &Schema, sets: &Sets, set: u32) -> usize
    requires schema { IsSchema schema.now }
    requires set { set < length sets.now }
    requires fits { Fits schema.now (set_at sets.now set) }
    ensures { result ≡ length (table_text schema.now (set_at sets.now set)) }
{
    let columns = schema.columns.items();
    let lines = 1 + sets.count(set) as usize;
    let marks = lines * marks_len(schema.arity, sets.columns(set));
    let header = endpoint_headings_len(schema.arity) + column_headings_len(columns);
    let cells = endpoints_len(schema.arity, sets, set) + columns_len(columns, sets, set);
    name_len(schema.name.as_str()) + marks + header + cells
}

/// The length of the line that names a set.
fn name_len(name: &str) -> usize
    requires { length name.now < 2 ^ 32 }
    ensures value { result ≡ length (name_line name.now) }
    ensures bound { result ≤ 5 + 2 ^ 32 }
{
    "set ".len() + name.len() + 1
}

/// How many commas and line feeds a line has, with a cell for each endpoint and for each column.
fn marks_len(arity: u32, columns: u32) -> usize
    requires endpoints { arity ≤ MOST_ENDPOINTS }
    requires columns { columns ≤ MOST_COLUMNS }
    ensures value { result ≡ marks (arity + columns) }
    ensures bound { result ≤ 1 + MOST_ENDPOINTS + MOST_COLUMNS }
{
    let width = arity as usize + columns as usize;
    if width == 0 { 1 } else { width }
}

/// The length of the headings of so many endpoints.
fn endpoint_headings_len(arity: u32) -> usize
    requires { arity ≤ MOST_ENDPOINTS }
    ensures value { result ≡ endpoint_headings_size arity }
    ensures bound { result ≤ MOST_ENDPOINTS * 41 }
{
    let mut total = 0;
    for position in 0..arity {
        total += endpoint_heading_len(position);
    }
    total
}

/// The length of the heading of the endpoints at a position.
fn endpoint_heading_len(position: u32) -> usize
    ensures value { result ≡ length (endpoint_heading position) }
    ensures bound { result ≤ 41 }
{
    "p".len() + Buffer::new().format(position).len()
}

/// The length of the columns' headings.
fn column_headings_len(columns: &[Column]) -> usize
    requires few { length columns.now ≤ MOST_COLUMNS }
    requires short { All (λ column. length column.heading < 2 ^ 32) columns.now }
    ensures value { result ≡ column_headings_size columns.now }
    ensures bound { result ≤ MOST_COLUMNS * 2 ^ 32 }
{
    let mut total = 0;
    for column in columns {
        total += column.heading.as_str().len();
    }
    total
}

/// The length of the cells of a set's endpoints.
fn endpoints_len(arity: u32, sets: &Sets, set: u32) -> usize
    requires set { set < length sets.now }
    requires arity { arity ≡ (set_at sets.now set).arity }
    requires few { arity ≤ MOST_ENDPOINTS }
    ensures value { result ≡ endpoints_size arity (set_at sets.now set) }
    ensures bound { result ≤ MOST_ELEMENTS * (MOST_ENDPOINTS * 21) }
{
    let mut total = 0;
    for element in 0..sets.count(set) {
        total += element_endpoints_len(arity, sets, set, element);
    }
    total
}

/// The length of the cells of an element's endpoints.
fn element_endpoints_len(arity: u32, sets: &Sets, set: u32, element: u32) -> usize
    requires set { set < length sets.now }
    requires arity { arity ≡ (set_at sets.now set).arity }
    requires few { arity ≤ MOST_ENDPOINTS }
    requires element { element < (set_at sets.now set).count }
    ensures value { result ≡ element_endpoints_size arity (set_at sets.now set) element }
    ensures bound { result ≤ MOST_ENDPOINTS * 21 }
{
    let mut total = 0;
    for position in 0..arity {
        total += cell_len(0, u64::from(sets.end(set, element, position)));
    }
    total
}

/// The length of the cells of a set's columns.
fn columns_len(columns: &[Column], sets: &Sets, set: u32) -> usize
    requires set { set < length sets.now }
    requires as_many { length (set_at sets.now set).columns ≡ length columns.now }
    requires few_elements { (set_at sets.now set).count ≤ MOST_ELEMENTS }
    requires scales { All (λ column. column.scale ≤ MOST_FIELD_SCALE) columns.now }
    ensures value { result ≡ columns_size columns.now (set_at sets.now set).columns }
    ensures one_each { All (λ words. length words ≡ (set_at sets.now set).count) (set_at sets.now set).columns }
    ensures bound { result ≤ MOST_COLUMNS * (MOST_ELEMENTS * 21) }
{
    let mut total = 0;
    for column in 0..sets.columns(set) {
        let scale = columns[column as usize].scale;
        total += column_len(scale, sets.column(set, column));
    }
    total
}

/// The length of the cells of a column.
fn column_len(scale: u32, words: &[u64]) -> usize
    requires scale { scale ≤ MOST_FIELD_SCALE }
    requires few { length words.now ≤ MOST_ELEMENTS }
    ensures value { result ≡ column_size scale words.now }
    ensures bound { result ≤ MOST_ELEMENTS * 21 }
{
    let mut total = 0;
    for word in words {
        total += cell_len(scale, *word);
    }
    total
}
