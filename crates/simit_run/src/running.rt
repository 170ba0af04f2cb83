//! The run of a typed program over sets: by one of two engines, within the limit of dense matrices.

ghost use Rattle.std.specs.Prelude.{◌≡◌, IfOk};
ghost use Rattle.vocabulary.specs.Answers.{Answers};
ghost use Rattle.algebra_meaning.specs.Linked.{linked};
ghost use Rattle.run_laws.specs.Shapes.{DifferInWords};
ghost use Rattle.simit_run.specs.Running.{ending_within, sets_after, sets_left};
ghost use Rattle.simit_run.specs.Stage.{refused};

use algebra_meaning::Stop;
use block_types::Typed;
use dense_sizes::{MOST_DENSE_WORDS, dense_words};
use global_algebra::{Ending, PlainFault, plain};
use host_table::{HostMeaning, HostTable};
use hypergraph::Sets;
use proc_engine::execute;
use run_laws::shape_law;
use run_notes::{Failure, Refusal};
use std::alloc::Global;
use vocabulary::NoMemory;

/// What runs a program. Both give what the definition of its run gives.
#[derive(Clone, Copy)]
pub enum Engine {
    /// Functions run on words, and contributions are added as they come.
    Words,
    /// All is computed as the definition says it.
    Plain,
}

/// How a program is run: by which engine, and with how many turns.
#[derive(Clone, Copy)]
pub struct Manner {
    pub engine: Engine,
    pub turns: u32,
}

/// How the run on words ends.
#[tactic(auto, unfolding(crate::specs::Running::ending_within))]
fn words_ending<H: HostMeaning>(
    alloc: Global,
    hosts: &HostTable<H>,
    typed: &Typed,
    turns: u32,
    sets: Sets,
) -> Result<Ending, Failure>
    ensures { Answers Failure.Memory (refused (ending_within (linked H.answer typed.now) turns sets)) result }
{
    if dense_words(typed.typed_program(), &sets) > u128::from(MOST_DENSE_WORDS) {
        return Err(Failure::Refused(Refusal::DenseWords));
    }
    match execute(alloc, typed, hosts, sets, turns) {
        Ok(ending) => Ok(ending),
        Err(NoMemory) => Err(Failure::Memory),
    }
}

/// How the plain run ends.
#[tactic(auto, unfolding(crate::specs::Running::ending_within, global_algebra::specs::Ending::plain_answer))]
fn plain_ending<H: HostMeaning>(
    alloc: Global,
    hosts: &HostTable<H>,
    typed: &Typed,
    turns: u32,
    sets: Sets,
) -> Result<Ending, Failure>
    ensures { Answers Failure.Memory (refused (ending_within (linked H.answer typed.now) turns sets)) result }
{
    match plain(alloc, typed, hosts, sets, turns) {
        Ok(ending) => Ok(ending),
        Err(PlainFault::OverDense) => Err(Failure::Refused(Refusal::DenseWords)),
        Err(PlainFault::Memory) => Err(Failure::Memory),
    }
}

/// How the run ends, where the dense matrices of the run over the sets are within their limit.
fn ending_within<H: HostMeaning>(
    alloc: Global,
    hosts: &HostTable<H>,
    typed: &Typed,
    manner: Manner,
    sets: Sets,
) -> Result<Ending, Failure>
    ensures { Answers Failure.Memory (refused (ending_within (linked H.answer typed.now) manner.turns sets)) result }
{
    match manner.engine {
        Engine::Words => words_ending(alloc, hosts, typed, manner.turns, sets),
        Engine::Plain => plain_ending(alloc, hosts, typed, manner.turns, sets),
    }
}

/// The sets that an ending leaves, or why it leaves none.
fn sets_left(ending: Ending) -> Result<Sets, Failure>
    ensures { result ≡ refused (sets_left ending) }
{
    match ending {
        Ending::Done(after) => Ok(after),
        Ending::Trap {
            line,
            element,
            kind,
        } => {
            let stop = Stop::Trap {
                line,
                element,
                kind,
            };
            Err(Failure::Refused(Refusal::Stopped(stop)))
        }
        Ending::Spent => Err(Failure::Refused(Refusal::Stopped(Stop::Spent))),
    }
}

/// The sets after the program, or why there are none.
#[tactic(auto, unfolding(crate::specs::Running::sets_after))]
pub fn sets_after<H: HostMeaning>(
    alloc: Global,
    hosts: &HostTable<H>,
    typed: &Typed,
    manner: Manner,
    sets: Sets,
) -> Result<Sets, Failure>
    ensures value { Answers Failure.Memory (refused (sets_after (linked H.answer typed.now) manner.turns sets)) result }
    ensures words { IfOk result (λ after. DifferInWords sets after) }
{
    shape_law();
    let ending = ending_within(alloc, hosts, typed, manner, sets)?;
    let after = sets_left(ending)?;
    Ok(after)
}
