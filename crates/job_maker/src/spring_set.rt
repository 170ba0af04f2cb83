//! The springs of a made job.
ghost use Rattle.std.specs.Prelude.{◌≡◌, ◌≤◌, ◌+◌, ◌*◌, ◌++◌, IfOk, map, vec_len, vec_capacity};
ghost use Rattle.std.specs.List.{range_with_len};
ghost use Rattle.job_maker.specs.declared.made.TheConstants.{MOST_POINTS};
ghost use Rattle.job_maker.specs.Job as spec;

use hypergraph::SetData;
use std::alloc::Global;
use vocabulary::{L, NoMemory};

/// The set of `2 * n` springs between `n` points.
#[tactic(auto, using(crate::proofs::Sets::are_springs))]
pub(crate) fn springs(alloc: Global, seed: u32, n: u32) -> Result<SetData, NoMemory>
    requires some { 1 ≤ n }
    requires few { n ≤ MOST_POINTS }
    ensures { IfOk result (λ set. set ≡ spec.springs seed n) }
{
    let endpoints = endpoints(alloc, seed, n)?;
    let mut columns = Vec::with_capacity(alloc, 1).map_err(|_| NoMemory)?;
    columns.push_reserved(strengths(alloc, n)?);
    Ok(SetData::new(2 * n, Some(0), 2, endpoints, L::of(columns)))
}

/// The points that the springs join, spring after spring.
#[tactic(auto, unfolding(crate::specs::Job::endpoints), using(crate::proofs::Ranges::flat_range_more))]
fn endpoints(alloc: Global, seed: u32, n: u32) -> Result<Vec<u32>, NoMemory>
    requires some { 1 ≤ n }
    requires few { n ≤ MOST_POINTS }
    ensures { IfOk result (λ ends. ends.items ≡ spec.endpoints seed n) }
{
    let mut ends = Vec::with_capacity(alloc, 4 * n as usize).map_err(|_| NoMemory)?;
    for j in 0..2 * n {
        push_joined(seed, n, j, &mut ends);
    }
    Ok(ends)
}

/// Appends the points that spring `j` joins, for which there is the capacity.
#[tactic(auto, unfolding(crate::specs::Job::joined))]
fn push_joined(seed: u32, n: u32, j: u32, ends: &mut Vec<u32>)
    requires some { 1 ≤ n }
    requires capacity { vec_len ends.old + 2 ≤ vec_capacity ends.old }
    ensures items { ends.new.items ≡ ends.old.items ++ spec.joined seed n j }
    ensures len { vec_len ends.new ≡ vec_len ends.old + 2 }
    ensures capacity { vec_capacity ends.new ≡ vec_capacity ends.old }
{
    let points = n as u64;
    ends.push_reserved(j % n);
    ends.push_reserved(((7 * j as u64 + seed as u64) % points) as u32);
}

/// How stiff the springs are.
#[tactic(auto, unfolding(crate::specs::Job::strength), using(crate::proofs::Ranges::map_range_more))]
fn strengths(alloc: Global, n: u32) -> Result<L<u64>, NoMemory>
    requires { n ≤ MOST_POINTS }
    ensures { IfOk result (λ column. column ≡ map spec.strength (range_with_len 0 (2 * n))) }
{
    let count = 2 * n as u64;
    let mut column = Vec::with_capacity(alloc, count as usize).map_err(|_| NoMemory)?;
    for j in 0..count {
        column.push_reserved(j % 97 + 1);
    }
    Ok(L::of(column))
}
