//! What a set's table has to look like.
ghost use Rattle.std.specs.Prelude.{◌≡◌, ◌<◌, ◌+◌, [], length, slice_index_or};
ghost use Rattle.std.specs.Str.{bytes_eq};
ghost use Rattle.set_tables.specs.Schema.{IsSchema, endpoint_heading, headings};

use itoa::Buffer;
use vocabulary::{L, Text};

/// A set's name, how many endpoints each of its elements has, and its columns in order.
#[derive(Drop)]
pub struct Schema {
    pub name: Text,
    pub arity: u32,
    pub columns: L<Column>,
}

/// A column's heading, and the scale of its cells: a cell counts units of 1/10^scale.
#[derive(Drop)]
pub struct Column {
    pub heading: Text,
    pub scale: u32,
}

/// How many cells a row has: one for each endpoint and one for each column.
#[tactic(auto, using(crate::proofs::Headings::headings_width))]
pub(crate) fn width_of(schema: &Schema) -> usize
    requires { IsSchema schema.now }
    ensures value { result ≡ length (headings schema.now) }
    ensures parts { result ≡ schema.now.arity + length schema.now.columns }
{
    schema.arity as usize + schema.columns.items().len()
}

/// Whether the bytes are the heading of a column.
#[tactic(auto, using(crate::proofs::Headings::endpoint_heading_at, crate::proofs::Headings::column_heading_at))]
pub(crate) fn is_heading(schema: &Schema, column: usize, bytes: &[u8]) -> bool
    requires schema { IsSchema schema.now }
    requires within { column < schema.now.arity + length schema.now.columns }
    ensures { result ≡ bytes_eq (slice_index_or (headings schema.now) column []) bytes.now }
{
    let arity = schema.arity as usize;
    if column < arity {
        is_endpoint_heading(column as u32, bytes)
    } else {
        schema.columns.items()[column - arity]
            .heading
            .has_bytes(bytes)
    }
}

/// Whether the bytes are the heading of the endpoints at a position.
fn is_endpoint_heading(position: u32, bytes: &[u8]) -> bool
    ensures { result ≡ bytes_eq (endpoint_heading position) bytes.now }
{
    match bytes.split_first() {
        Some((first, rest)) => {
            *first == b'p' && Buffer::new().format(position).as_bytes() == rest
        }
        None => false,
    }
}
