//! What the table of a set looks like.

ghost use Rattle.std.specs.Prelude.{◌≡◌, ◌+◌, ◌^◌, ◌<◌, ◌≤◌, ◌++◌, [], ◌∷◌, All, IfOk, OnOk, length, string_bytes};
ghost use Rattle.std.specs.Bool.{OnTrue};
ghost use Rattle.std.specs.List.{flat_map, range_with_len};
ghost use Rattle.vocabulary.specs.declared.limits.TheConstants.{MOST_COLUMNS};
ghost use Rattle.typed_tree.specs.Declarations.{columns_of};
ghost use Rattle.block_types.specs.Readings.{set_fields};
ghost use Rattle.set_tables.specs.Schema.{IsSchema};
ghost use Rattle.write_back.specs.Schemas as spec;

use block_types::Typed;
use loop_laws::row_laws;
use set_tables::{Column, Schema};
use std::alloc::Global;
use type_rules::BlockShape;
use typed_tree::TypedField;
use vocabulary::{L, NoMemory, Text};

/// The heading of an entry, by that of what it belongs to.
fn entry_heading(alloc: Global, heading: &str, index: u32) -> Result<String, NoMemory>
    ensures { IfOk result (λ text. string_bytes text ≡ spec.entry_heading heading.now index) }
{
    match format!(in alloc; "{heading}.{index}") {
        Ok(text) => Ok(text),
        Err(_) => Err(NoMemory),
    }
}

/// Appends the column of an entry.
fn push_entry(
    alloc: Global,
    heading: &str,
    index: u32,
    scale: u32,
    columns: &mut L<Column>,
) -> Result<(), NoMemory>
    ensures { OnOk result (columns.new ≡ columns.old ++ spec.column scale (spec.entry_heading heading.now index) ∷ []) }
{
    let heading = entry_heading(alloc, heading, index)?;
    columns.push(Column {
        heading: Text::of(heading),
        scale,
    })
}

/// Appends the columns of so many entries.
fn push_entries(
    alloc: Global,
    heading: &str,
    count: u32,
    scale: u32,
    columns: &mut L<Column>,
) -> Result<(), NoMemory>
    ensures { OnOk result (columns.new ≡ columns.old ++ spec.entry_columns scale heading.now count) }
{
    row_laws::<Column>();
    for index in 0..count {
        push_entry(alloc, heading, index, scale, columns)?;
    }
    Ok(())
}

/// Appends the columns of a matrix, row by row.
fn push_rows(
    alloc: Global,
    heading: &str,
    rows: u32,
    count: u32,
    scale: u32,
    columns: &mut L<Column>,
) -> Result<(), NoMemory>
    ensures { OnOk result (columns.new ≡ columns.old ++ flat_map (λ row. spec.entry_columns scale (spec.entry_heading heading.now row) count) (range_with_len 0 rows)) }
{
    row_laws::<Column>();
    for row in 0..rows {
        let row_heading = entry_heading(alloc, heading, row)?;
        push_entries(alloc, row_heading.as_str(), count, scale, columns)?;
    }
    Ok(())
}

/// Appends the columns of a field.
fn push_field(alloc: Global, field: &TypedField, columns: &mut L<Column>) -> Result<(), NoMemory>
    ensures { OnOk result (columns.new ≡ columns.old ++ spec.field_columns field.now) }
{
    let name = field.name.as_str();
    let scale = field.scale;
    match field.block {
        BlockShape::Number => columns.push(Column {
            heading: field.name.copy(alloc)?,
            scale,
        }),
        BlockShape::Vector(side) => push_entries(alloc, name, side, scale, columns),
        BlockShape::Matrix(rows, count) => push_rows(alloc, name, rows, count, scale, columns),
    }
}

/// The columns of fields.
#[tactic(auto, using(crate::proofs::Lists::items_grown))]
fn columns_of(alloc: Global, fields: &[TypedField]) -> Result<L<Column>, NoMemory>
    ensures { IfOk result (λ columns. columns ≡ flat_map spec.field_columns fields.now) }
{
    let mut columns = L::empty(alloc);
    for field in fields {
        push_field(alloc, field, &mut columns)?;
    }
    Ok(columns)
}

/// Whether a text has fewer than 2^32 bytes.
fn is_short(text: &Text) -> bool
    ensures { OnTrue result (length text.now < 2 ^ 32) }
{
    u32::try_from(text.as_str().len()).is_ok()
}

/// Whether each heading has fewer than 2^32 bytes.
fn are_short(columns: &[Column]) -> bool
    ensures { OnTrue result (All (λ column. length column.heading < 2 ^ 32) columns.now) }
{
    columns.iter().all(|column| is_short(&column.heading))
}

/// The name of a set.
fn name_of(alloc: Global, typed: &Typed, set: u32) -> Result<Text, NoMemory>
    requires { set < length typed.now.sets }
    ensures { IfOk result (λ name. name ≡ spec.set_name typed.now set) }
{
    match String::from_str(alloc, typed.set_name(set)) {
        Ok(name) => Ok(Text::of(name)),
        Err(_) => Err(NoMemory),
    }
}

/// The schema of a set's table: its name, how many endpoints its elements have, and a column for each entry of each
/// field: `k` for a number, `x.0`, `x.1` for a vector, `m.0.0`, `m.0.1`, `m.1.0` for a matrix, row by row. A name or a
/// heading of 2^32 bytes or more is out of memory.
#[tactic(auto, unfolding(crate::specs::Schemas::schema_of))]
pub fn schema(alloc: Global, typed: &Typed, set: u32) -> Result<Schema, NoMemory>
    requires { set < length typed.now.sets }
    ensures value { IfOk result (λ schema. schema ≡ spec.schema_of typed.now set) }
    ensures readable { IfOk result (λ schema. IsSchema schema) }
    ensures few_columns { IfOk result (λ schema. schema.arity + length schema.columns ≤ MOST_COLUMNS) }
    ensures columns { IfOk result (λ schema. length schema.columns ≡ columns_of (set_fields typed.now set)) }
{
    let name = name_of(alloc, typed, set)?;
    let columns = columns_of(alloc, typed.fields(set))?;
    if !is_short(&name) || !are_short(columns.items()) {
        return Err(NoMemory);
    }
    Ok(Schema {
        name,
        arity: typed.arity(set),
        columns,
    })
}
