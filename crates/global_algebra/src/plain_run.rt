//! The plain run, with which every faster one is compared.

ghost use Rattle.vocabulary.specs.Answers.{Answers};
ghost use Rattle.algebra_meaning.specs.Linked.{linked};
ghost use Rattle.run_laws.specs.Laws.{AnswersOnly, IsAnswered};
ghost use Rattle.run_sizes.specs.Laws.{AreMeantInRuns, FitInRuns};
ghost use Rattle.global_algebra.specs.Ending.{plain_answer};
ghost use Rattle.global_algebra.specs.declared.plain_run.PlainFault.TheVariants.{Memory};

use crate::ending::Ending;
use crate::maps::PlainMaps;
use crate::statements::run;
use algebra_meaning::LinkedProgram;
use block_types::Typed;
use dense_sizes::{MOST_DENSE_WORDS, dense_words};
use host_table::{HostMeaning, HostTable};
use hypergraph::Sets;
use run_laws::run_law;
use run_sizes::run_size_law;
use std::alloc::Global;
use thiserror::Error;

/// Why the plain run doesn't begin, or doesn't come to its ending.
#[derive(Clone, Copy, Debug, PartialEq, Eq, Error)]
pub enum PlainFault {
    /// Its dense matrices have more words than `MOST_DENSE_WORDS`.
    #[error("over {MOST_DENSE_WORDS} dense words")]
    OverDense,
    #[error("out of memory")]
    Memory,
}

/// How a program, linked to host functions, ends over sets, each matrix dense, the elements in their order, with so many
/// turns: what the run is by its definition, which is the one outcome that the run has as a relation by cases. Wherever a
/// run comes, what names stand for has the sizes of their types, and index expressions mean their sums. `OverDense` exactly
/// where its dense matrices have too many words, unless memory runs out before.
#[tactic(auto, unfolding(crate::specs::Ending::plain_answer))]
pub fn plain<H: HostMeaning>(
    alloc: Global,
    typed: &Typed,
    hosts: &HostTable<H>,
    sets: Sets,
    turns: u32,
) -> Result<Ending, PlainFault>
    ensures answered { Answers Memory (plain_answer (linked H.answer typed.now) sets turns) result }
    ensures holds { IsAnswered }
    ensures only { AnswersOnly }
    ensures fit { FitInRuns }
    ensures meant { AreMeantInRuns }
{
    run_law();
    run_size_law();
    if dense_words(typed.typed_program(), &sets) > u128::from(MOST_DENSE_WORDS) {
        return Err(PlainFault::OverDense);
    }
    let program = LinkedProgram {
        typed: typed.typed_program(),
        hosts,
    };
    match run(alloc, &PlainMaps, &program, sets, turns) {
        Ok(ending) => Ok(ending),
        Err(_) => Err(PlainFault::Memory),
    }
}
