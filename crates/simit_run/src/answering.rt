//! From the command to the output: the program's file and the tables' files are read and judged in turn, the program
//! runs, and all the memory for its output is taken before any of it is put.

ghost use Rattle.std.specs.Prelude.{◌≡◌, ◌<◌, ◌≤◌, IfSome, Some, Ok, length, ℕ, List};
ghost use Rattle.vocabulary.specs.Answers.{Answers};
ghost use Rattle.simit_io.specs.Inputs.{IsMissing, Rose};
ghost use Rattle.hypergraph.specs.SetValue.{EndpointsBelow};
ghost use Rattle.hypergraph.specs.Sets.{AllLieOverEarlier, endpoint_bound, set_at};
ghost use Rattle.algebra_meaning.specs.Linked.{linked};
ghost use Rattle.simit_run.specs.Answer as spec;
ghost use Rattle.simit_run.specs.Ending.{first_file};
ghost use Rattle.simit_run.specs.Hosts.{hosts_of};
ghost use Rattle.simit_run.specs.Output as out;
ghost use Rattle.command_words.specs.Job.{HasPoints};
ghost use Rattle.simit_run.specs.CommandContracts.{text_of};
ghost use Rattle.simit_run.specs.Shown.{Shows};
ghost use Rattle.simit_run.specs.Stage.{refused};
ghost use Rattle.simit_run.specs.TableContracts.{AreRead, IsRunnable};

use crate::choosing::chosen_in;
use crate::front::read_program;
use crate::made_job::made_line;
use crate::output::{Output, Tables};
use crate::running::{Engine, Manner, sets_after};
use crate::tables::{read_sets, schemas_of};
use block_types::Typed;
use command_words::Words;
use host_table::{HostMeaning, HostTable};
use hypergraph::{SetData, Sets};
use run_notes::{Failure, FileRole, Refusal};
use set_tables::Schema;
use simit_io::Inputs;
use std::alloc::Global;
use vocabulary::Text;
use vocabulary::limits::MOST_SETS;

/// The sets of a list in which each endpoint is an element.
fn sets_of(list: Vec<SetData>) -> Sets
    requires few { length list.items ≤ MOST_SETS }
    requires over_earlier { AllLieOverEarlier list.items }
    requires endpoints_below { (number : ℕ) → number < length list.items → EndpointsBelow (set_at list.items number) (endpoint_bound list.items number) }
    ensures { result ≡ list.items }
{
    match Sets::of(list) {
        Ok(sets) => sets,
        Err(_) => unreachable!(),
    }
}

/// What is put out of the sets that were read, once the program has run on them.
#[tactic(auto, unfolding(crate::specs::Output::output_of))]
fn output_of<H: HostMeaning>(
    alloc: Global,
    hosts: &HostTable<H>,
    typed: &Typed,
    manner: Manner,
    chosen: Option<u32>,
    schemas: Vec<Schema>,
    list: Vec<SetData>,
) -> Result<Tables, Failure>
    requires runnable { IsRunnable typed.now }
    requires chosen { IfSome chosen (λ number. number < length typed.now.sets) }
    requires schemas { schemas.items ≡ out.schemas_of typed.now }
    requires read { AreRead typed.now list.items }
    requires all { length list.items ≡ length typed.now.sets }
    ensures { Answers Failure.Memory (refused (out.output_of (linked H.answer typed.now) manner.turns chosen list.items)) result }
{
    let after = sets_after(alloc, hosts, typed, manner, sets_of(list))?;
    let output = Tables::of(alloc, chosen, schemas, after).map_err(|_| Failure::Memory)?;
    Ok(output)
}

/// The output of a program, of all sets or of the chosen one, from the files of its tables.
fn run_on_tables<I: Inputs, H: HostMeaning>(
    alloc: Global,
    inputs: &mut I,
    hosts: &HostTable<H>,
    typed: &Typed,
    manner: Manner,
    chosen: Option<u32>,
    names: &[Text],
) -> Result<Tables, Failure>
    requires { IfSome chosen (λ number. number < length typed.now.sets) }
    ensures shows { Shows (λ output. output) (I.holds inputs.old) (Rose (I.faults inputs.old) (I.faults inputs.new))
        (spec.tables_stage (linked H.answer typed.now) manner.turns chosen names.now) result }
    ensures same_files { I.holds inputs.new ≡ I.holds inputs.old }
    ensures counted { I.faults inputs.old ≤ I.faults inputs.new }
{
    let sets = typed.typed_program().sets.items();
    if names.len() != sets.len() {
        return Err(Failure::Refused(Refusal::FileCount {
            files: names.len(),
            sets: sets.len(),
        }));
    }
    let schemas = schemas_of(alloc, typed).map_err(|_| Failure::Memory)?;
    let read = read_sets(alloc, inputs, typed, &schemas, names)?;
    let output = output_of(alloc, hosts, typed, manner, chosen, schemas, read)?;
    Ok(output)
}

/// The output of a program, of all sets or of the one of a name, from the files of its tables.
fn run_typed<I: Inputs, H: HostMeaning>(
    alloc: Global,
    inputs: &mut I,
    hosts: &HostTable<H>,
    typed: &Typed,
    manner: Manner,
    only: &Option<Text>,
    names: &[Text],
) -> Result<Tables, Failure>
    ensures shows { Shows (λ output. output) (I.holds inputs.old) (Rose (I.faults inputs.old) (I.faults inputs.new))
        (spec.typed_stage (linked H.answer typed.now) manner.turns only.now names.now) result }
    ensures same_files { I.holds inputs.new ≡ I.holds inputs.old }
    ensures counted { I.faults inputs.old ≤ I.faults inputs.new }
{
    let chosen = chosen_in(typed, only)?;
    let output = run_on_tables(alloc, inputs, hosts, typed, manner, chosen, names)?;
    Ok(output)
}

/// The output of the program that a file states, from the files of its tables.
fn run_files<I: Inputs, H: HostMeaning>(
    alloc: Global,
    inputs: &mut I,
    hosts: &HostTable<H>,
    program: &Text,
    manner: Manner,
    only: &Option<Text>,
    tables: &[Text],
) -> Result<Tables, Failure>
    ensures shows { Shows (λ output. output) (I.holds inputs.old) (Rose (I.faults inputs.old) (I.faults inputs.new))
        (spec.files_stage (hosts_of H.answer hosts.now) program.now manner.turns only.now tables.now) result }
    ensures missing { IsMissing (I.holds inputs.old) program.now → result ≡ Err (Failure.ReadFault FileRole.Program) }
    ensures same_files { I.holds inputs.new ≡ I.holds inputs.old }
    ensures counted { I.faults inputs.old ≤ I.faults inputs.new }
{
    let typed = read_program(alloc, inputs, program.as_str(), hosts)?;
    let output = run_typed(alloc, inputs, hosts, &typed, manner, only, tables)?;
    Ok(output)
}

/// The output of a command, whose program may call these host functions, or why there is none.
#[tactic(auto, unfolding(crate::specs::Answer::command_stage))]
pub fn answer<I: Inputs, H: HostMeaning>(
    alloc: Global,
    inputs: &mut I,
    hosts: &HostTable<H>,
    words: &Words,
) -> Result<Output, Failure>
    requires { HasPoints words.now }
    ensures shows { Shows text_of (I.holds inputs.old) (Rose (I.faults inputs.old) (I.faults inputs.new))
        (spec.command_stage (hosts_of H.answer hosts.now) words.now) result }
    ensures missing { (name : List ℕ) → first_file (Ok words.now) ≡ Some name → IsMissing (I.holds inputs.old) name
        → result ≡ Err (Failure.ReadFault FileRole.Program) }
    ensures same_files { I.holds inputs.new ≡ I.holds inputs.old }
    ensures counted { I.faults inputs.old ≤ I.faults inputs.new }
{
    match words {
        Words::Run {
            program,
            sets,
            turns,
            only,
            ..
        } => {
            let manner = Manner {
                engine: Engine::Words,
                turns: *turns,
            };
            match run_files(alloc, inputs, hosts, program, manner, only, sets.items()) {
                Ok(tables) => Ok(Output::Tables(tables)),
                Err(failure) => Err(failure),
            }
        }
        Words::Plan { .. } => Err(Failure::Refused(Refusal::NotYet)),
        Words::Plain {
            program,
            sets,
            turns,
            only,
        } => {
            let manner = Manner {
                engine: Engine::Plain,
                turns: *turns,
            };
            match run_files(alloc, inputs, hosts, program, manner, only, sets.items()) {
                Ok(tables) => Ok(Output::Tables(tables)),
                Err(failure) => Err(failure),
            }
        }
        Words::Make { seed, n, .. } => match made_line(alloc, hosts, *seed, *n) {
            Ok(line) => Ok(Output::Line(line)),
            Err(failure) => Err(failure),
        },
    }
}
