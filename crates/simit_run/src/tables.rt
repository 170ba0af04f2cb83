//! Reads the tables of a program's sets, one after another, each over those that were read before it.

ghost use Rattle.std.specs.Prelude.{◌≡◌, ◌<◌, ◌≤◌, [], IfOk, IfSome, ℕ, length};
ghost use Rattle.vocabulary.specs.Answers.{Answers};
ghost use Rattle.simit_io.specs.Inputs.{Rose};
ghost use Rattle.hypergraph.specs.SetValue.{EndpointsBelow};
ghost use Rattle.hypergraph.specs.Sets.{count_over};
ghost use Rattle.block_types.specs.Readings.{over};
ghost use Rattle.block_types.specs.WellDeclared.{IsWellDeclared};
ghost use Rattle.write_back.specs.Schemas.{schema_of};
ghost use Rattle.simit_run.specs.Answer as spec;
ghost use Rattle.simit_run.specs.Output.{schemas_of};
ghost use Rattle.simit_run.specs.Stage.{fold_stages, refused};
ghost use Rattle.simit_run.specs.Shown.{Shows};
ghost use Rattle.simit_run.specs.TableContracts.{AreRead, IsAsDeclared, IsReadable, IsRunnable};

use crate::file::read_file;
use block_types::Typed;
use hypergraph::SetData;
use run_notes::{Failure, FileRole, Refusal};
use set_tables::{Schema, TableFault, read_table};
use simit_io::Inputs;
use std::alloc::Global;
use vocabulary::limits::{MOST_SETS, MOST_TABLE_BYTES};
use vocabulary::{L, NoMemory, Text};

/// The schemas of a program's sets.
pub fn schemas_of(alloc: Global, typed: &Typed) -> Result<Vec<Schema>, NoMemory>
    ensures value { IfOk result (λ schemas. schemas.items ≡ schemas_of typed.now) }
    ensures readable { IfOk result (λ schemas. (number : ℕ) → number < length typed.now.sets → IsReadable typed.now number) }
{
    let mut schemas = L::empty(alloc);
    for number in 0..typed.set_count() {
        schemas.push(write_back::schema(alloc, typed, number)?)?;
    }
    Ok(schemas.into_vec())
}

/// How many elements the set has in which endpoints lie; 0 where there are none.
fn bound_over(sets: &[SetData], over: Option<u32>) -> u32
    requires { IfSome over (λ over. over < length sets.now) }
    ensures { result ≡ count_over sets.now over }
{
    match over {
        None => 0,
        Some(over) => sets[over as usize].count(),
    }
}

/// The set that the bytes of a table state, after the sets that were read before it.
fn set_in(
    alloc: Global,
    typed: &Typed,
    schema: &Schema,
    sets: &[SetData],
    bytes: &[u8],
) -> Result<SetData, Failure>
    requires within { length sets.now < length typed.now.sets }
    requires few { length sets.now ≤ MOST_SETS }
    requires declared { IsWellDeclared typed.now (length sets.now) }
    requires schema { schema.now ≡ schema_of typed.now (length sets.now) }
    requires readable { IsReadable typed.now (length sets.now) }
    requires size { length bytes.now ≤ MOST_TABLE_BYTES }
    ensures value { Answers Failure.Memory (refused (spec.set_in typed.now sets.now bytes.now)) result }
    ensures declared { IfOk result (λ set. IsAsDeclared typed.now (length sets.now) set) }
    ensures endpoints_below { IfOk result (λ set. EndpointsBelow set (count_over sets.now (over typed.now (length sets.now)))) }
{
    let number = sets.len() as u32;
    let over = typed.over(number);
    let bound = bound_over(sets, over);
    match read_table(alloc, schema, over, bound, bytes) {
        Ok(set) => Ok(set),
        Err(TableFault::Memory) => Err(Failure::Memory),
        Err(fault) => Err(Failure::Refused(Refusal::Table { set: number, fault })),
    }
}

/// The set that the file of the next table states, after the sets that were read before it.
fn read_set<I: Inputs>(
    alloc: Global,
    inputs: &mut I,
    typed: &Typed,
    schema: &Schema,
    name: &str,
    sets: &[SetData],
) -> Result<SetData, Failure>
    requires within { length sets.now < length typed.now.sets }
    requires few { length sets.now ≤ MOST_SETS }
    requires declared { IsWellDeclared typed.now (length sets.now) }
    requires schema { schema.now ≡ schema_of typed.now (length sets.now) }
    requires readable { IsReadable typed.now (length sets.now) }
    ensures shows { Shows (λ set. set) (I.holds inputs.old) (Rose (I.faults inputs.old) (I.faults inputs.new))
        (spec.set_stage typed.now sets.now name.now) result }
    ensures declared { IfOk result (λ set. IsAsDeclared typed.now (length sets.now) set) }
    ensures endpoints_below { IfOk result (λ set. EndpointsBelow set (count_over sets.now (over typed.now (length sets.now)))) }
    ensures same_files { I.holds inputs.new ≡ I.holds inputs.old }
    ensures counted { I.faults inputs.old ≤ I.faults inputs.new }
{
    let role = FileRole::Table(sets.len() as u32);
    let bytes = read_file(alloc, inputs, name, role)?;
    let set = set_in(alloc, typed, schema, sets, &bytes)?;
    Ok(set)
}

/// The sets that the files of a program's tables state.
pub fn read_sets<I: Inputs>(
    alloc: Global,
    inputs: &mut I,
    typed: &Typed,
    schemas: &[Schema],
    names: &[Text],
) -> Result<Vec<SetData>, Failure>
    requires runnable { IsRunnable typed.now }
    requires schemas { schemas.now ≡ schemas_of typed.now }
    requires names { length names.now ≡ length typed.now.sets }
    ensures shows { Shows (λ sets. sets.items) (I.holds inputs.old) (Rose (I.faults inputs.old) (I.faults inputs.new))
        (fold_stages (spec.with_set typed.now) [] names.now) result }
    ensures read { IfOk result (λ sets. AreRead typed.now sets.items) }
    ensures all { IfOk result (λ sets. length sets.items ≡ length typed.now.sets) }
    ensures same_files { I.holds inputs.new ≡ I.holds inputs.old }
    ensures counted { I.faults inputs.old ≤ I.faults inputs.new }
{
    let mut sets = Vec::new(alloc);
    for number in 0..names.len() {
        let name = names[number].as_str();
        let set = read_set(alloc, inputs, typed, &schemas[number], name, &sets)?;
        sets.push(set).map_err(|_| Failure::Memory)?;
    }
    Ok(sets)
}
