//! Other words for a field of a set.

ghost use Rattle.std.specs.Prelude.{◌≡◌, ◌<◌, ◌*◌, OnErr, OnOk, length, slice_set};
ghost use Rattle.hypergraph.specs.Sets.{set_at};
ghost use Rattle.block_types.specs.Readings.{set_fields};
ghost use Rattle.value_algebra.specs.Fields as fields;
ghost use Rattle.write_back.specs.Assigned.{IsAssigned, width};

use block_types::Typed;
use hypergraph::Sets;
use std::alloc::Global;
use value_algebra::with_field;
use vocabulary::{L, NoMemory};

/// Gives a field of a set other words, one block an element, each row by row: all of its columns at once. Out of memory
/// nothing changes.
pub fn assign(
    alloc: Global,
    sets: &mut Sets,
    typed: &Typed,
    set: u32,
    field: u32,
    words: L<u64>,
) -> Result<(), NoMemory>
    requires set { set < length sets.old }
    requires field { field < length (set_fields typed.now set) }
    requires words { length words ≡ (set_at sets.old set).count * width (set_fields typed.now set) field }
    ensures assigned { OnOk result (sets.new ≡ slice_set sets.old set (fields.with_field (set_fields typed.now set) (set_at sets.old set) field words)) }
    ensures columns { OnOk result (IsAssigned (set_fields typed.now set) field words (set_at sets.old set) (set_at sets.new set)) }
    ensures unchanged { OnErr result (sets.new ≡ sets.old) }
{
    with_field(alloc, typed.fields(set), sets, set, field, words)?;
    Ok(())
}
