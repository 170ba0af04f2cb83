//! Puts the tables of sets, one after another, each made whole before it is put.

ghost use Rattle.std.specs.Prelude.{◌≡◌, ◌<◌, ◌≤◌, OnOk, OnErr, length, vec_capacity};
ghost use Rattle.simit_io.specs.Inputs.{Rose};
ghost use Rattle.simit_io.specs.Sink.{Puts, PutsPrefix};
ghost use Rattle.hypergraph.specs.Sets.{set_at};
ghost use Rattle.set_tables.specs.Output.{table_text};
ghost use Rattle.simit_run.specs.Output.{texts_of};
ghost use Rattle.simit_run.specs.Schemas.{schema_at};
ghost use Rattle.simit_run.specs.TableContracts.{HaveTables, IsLongest};

use hypergraph::Sets;
use set_tables::{Schema, text_len, write_table};
use simit_io::{Failed, Sink, put_all, putting_law};

/// The length of the longest text of the sets.
pub fn longest(schemas: &[Schema], sets: &Sets) -> usize
    requires { HaveTables schemas.now sets.now }
    ensures { IsLongest schemas.now sets.now result }
{
    let mut longest = 0;
    for number in 0..sets.len() {
        longest = text_len(&schemas[number as usize], sets, number).max(longest);
    }
    longest
}

/// Puts the table of a set, as far as the sink takes it. The buffer has the capacity for the longest.
pub fn put_table<O: Sink>(
    out: &mut O,
    schemas: &[Schema],
    sets: &Sets,
    number: u32,
    buffer: &mut Vec<u8>,
) -> Result<(), Failed>
    requires tables { HaveTables schemas.now sets.now }
    requires set { number < length sets.now }
    requires capacity { IsLongest schemas.now sets.now (vec_capacity buffer.old) }
    ensures whole { OnOk result (Puts (O.written out.old) (O.written out.new) (table_text (schema_at schemas.now number) (set_at sets.now number))) }
    ensures prefix { OnErr result (PutsPrefix (O.written out.old) (O.written out.new) (table_text (schema_at schemas.now number) (set_at sets.now number))) }
    ensures failed { OnErr result (Rose (O.faults out.old) (O.faults out.new)) }
    ensures counted { O.faults out.old ≤ O.faults out.new }
    ensures capacity { vec_capacity buffer.new ≡ vec_capacity buffer.old }
{
    buffer.clear();
    write_table(&schemas[number as usize], sets, number, buffer);
    put_all(out, buffer)
}

/// Puts the tables up to the first that the sink doesn't take whole. The buffer has the capacity for the longest.
pub fn put_tables<O: Sink>(
    out: &mut O,
    schemas: &[Schema],
    sets: &Sets,
    buffer: &mut Vec<u8>,
) -> Result<(), Failed>
    requires tables { HaveTables schemas.now sets.now }
    requires capacity { IsLongest schemas.now sets.now (vec_capacity buffer.old) }
    ensures whole { OnOk result (Puts (O.written out.old) (O.written out.new) (texts_of schemas.now sets.now)) }
    ensures prefix { OnErr result (PutsPrefix (O.written out.old) (O.written out.new) (texts_of schemas.now sets.now)) }
    ensures failed { OnErr result (Rose (O.faults out.old) (O.faults out.new)) }
    ensures counted { O.faults out.old ≤ O.faults out.new }
{
    putting_law();
    for number in 0..sets.len() {
        put_table(out, schemas, sets, number, buffer)?;
    }
    Ok(())
}
