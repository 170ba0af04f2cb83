ghost use Rattle.std.specs.Prelude.{◌≡◌, ◌≤◌, IfOk};
ghost use Rattle.job_maker.specs.declared.made.TheConstants.{MOST_POINTS};
ghost use Rattle.job_maker.specs.Program.{program};
ghost use Rattle.job_maker.specs.Job.{made_sets};

use crate::point_set::points;
use crate::spring_set::springs;
use crate::text::program;
use hypergraph::Sets;
use std::alloc::Global;
use vocabulary::{L, NoMemory};

/// The most points of a made job. It has twice as many springs.
pub const MOST_POINTS: u32 = 524_288;

/// A made job: the text of a program, and the sets that it runs on.
#[derive(Drop)]
pub struct Made {
    pub program: L<u8>,
    pub sets: Sets,
}

/// The job of `n` points, 1 to `MOST_POINTS`, and `2 * n` springs between them, by a seed.
#[tactic(auto, using(crate::proofs::Sets::lie_over_earlier, crate::proofs::Sets::none_bad))]
pub fn make(alloc: Global, seed: u32, n: u32) -> Result<Made, NoMemory>
    requires some { 1 ≤ n }
    requires few { n ≤ MOST_POINTS }
    ensures program { IfOk result (λ made. made.program ≡ program) }
    ensures sets { IfOk result (λ made. made.sets ≡ made_sets seed n) }
{
    let program = program(alloc)?;
    let mut list = Vec::with_capacity(alloc, 2).map_err(|_| NoMemory)?;
    list.push_reserved(points(alloc, seed, n)?);
    list.push_reserved(springs(alloc, seed, n)?);
    match Sets::of(list) {
        Ok(sets) => Ok(Made { program, sets }),
        Err(_) => unreachable!(),
    }
}
