//! Runs a program over sets.

ghost use Rattle.std.specs.Prelude.{◌≡◌, IfOk};
ghost use Rattle.algebra_meaning.specs.Linked.{linked};
ghost use Rattle.algebra_meaning.specs.Run.{run};
ghost use Rattle.global_algebra.specs.Ending.{ending_of};

use crate::word_maps::WordMaps;
use algebra_meaning::LinkedProgram;
use block_types::Typed;
use global_algebra::{Ending, run};
use host_table::{HostMeaning, HostTable};
use hypergraph::Sets;
use std::alloc::Global;
use vocabulary::NoMemory;

/// How a program, linked to host functions, ends over sets, with so many turns. Out of memory the sets are given up.
pub fn execute<H: HostMeaning>(
    alloc: Global,
    typed: &Typed,
    hosts: &HostTable<H>,
    sets: Sets,
    turns: u32,
) -> Result<Ending, NoMemory>
    ensures { IfOk result (λ ending. ending ≡ ending_of (run (linked H.answer typed.now) sets turns)) }
{
    let program = LinkedProgram {
        typed: typed.typed_program(),
        hosts,
    };
    run(alloc, &WordMaps, &program, sets, turns)
}
