//! The points of a made job.
ghost use Rattle.std.specs.Prelude.{◌≡◌, ◌≤◌, IfOk, map};
ghost use Rattle.std.specs.List.{range_with_len};
ghost use Rattle.job_maker.specs.declared.made.TheConstants.{MOST_POINTS};
ghost use Rattle.job_maker.specs.Job as spec;

use hypergraph::SetData;
use std::alloc::Global;
use vocabulary::{L, NoMemory};

/// The set of `n` points: the column of their positions, and one of zeros for the forces.
#[tactic(auto, using(crate::proofs::Sets::are_points))]
pub(crate) fn points(alloc: Global, seed: u32, n: u32) -> Result<SetData, NoMemory>
    requires { n ≤ MOST_POINTS }
    ensures { IfOk result (λ set. set ≡ spec.points seed n) }
{
    let mut columns = Vec::with_capacity(alloc, 2).map_err(|_| NoMemory)?;
    columns.push_reserved(positions(alloc, seed, n)?);
    columns.push_reserved(forces(alloc, n)?);
    Ok(SetData::new(n, None, 0, Vec::new(alloc), L::of(columns)))
}

/// Where the points lie.
#[tactic(auto, unfolding(crate::specs::Job::position), using(crate::proofs::Ranges::map_range_more))]
fn positions(alloc: Global, seed: u32, n: u32) -> Result<L<u64>, NoMemory>
    requires { n ≤ MOST_POINTS }
    ensures { IfOk result (λ column. column ≡ map (spec.position seed) (range_with_len 0 n)) }
{
    let mut column = Vec::with_capacity(alloc, n as usize).map_err(|_| NoMemory)?;
    for i in 0..n as u64 {
        column.push_reserved((i * i + seed as u64) % 1000);
    }
    Ok(L::of(column))
}

/// The forces on the points before the run.
#[tactic(auto, unfolding(crate::specs::Job::force), using(crate::proofs::Ranges::map_range_more))]
fn forces(alloc: Global, n: u32) -> Result<L<u64>, NoMemory>
    ensures { IfOk result (λ column. column ≡ map spec.force (range_with_len 0 n)) }
{
    let mut column = Vec::with_capacity(alloc, n as usize).map_err(|_| NoMemory)?;
    for _i in 0..n as u64 {
        column.push_reserved(0);
    }
    Ok(L::of(column))
}
