//! Jobs worked out by hand, the largest one, and a sum whose signed reading is negative.
ghost use Rattle.std.specs.Prelude.{◌≤◌};
ghost use Rattle.job_maker.specs.declared.made.TheConstants.{MOST_POINTS};

use crate::{MOST_POINTS, make, weighted};
use std::alloc::Global;
use std::test::Fail;
use vocabulary::{L, NoMemory};

/// A seed, a number of points, their positions, and the springs: the two points that each joins, and how stiff it is.
static JOBS: [(u32, u32, &[u64], &[(u32, u32, u64)]); 2] = [
    (
        7,
        3,
        &[7, 8, 11],
        &[
            (0, 1, 1),
            (1, 2, 2),
            (2, 0, 3),
            (0, 1, 4),
            (1, 2, 5),
            (2, 0, 6),
        ],
    ),
    (0, 1, &[0], &[(0, 0, 1), (0, 0, 2)]),
];

#[test]
fn small_jobs(rt: HostRuntime) -> Result<(), Fail> {
    for (seed, n, positions, springs) in JOBS {
        assert!(rt; 1 <= n && n <= MOST_POINTS);
        let sets = make(rt.alloc(), seed, n)?.sets;
        assert_eq!(rt; sets.column(0, 0), positions);
        assert_eq!(rt; sets.count(1) as usize, springs.len());
        for (j, (from, to, stiffness)) in springs.iter().enumerate() {
            let spring = j as u32;
            assert!(rt; spring < sets.count(1));
            assert_eq!(rt; sets.end(1, spring, 0), *from);
            assert_eq!(rt; sets.end(1, spring, 1), *to);
            assert_eq!(rt; sets.column(1, 0).get(j), Some(stiffness));
        }
    }
    Ok(())
}

/// How many bytes, points and springs a job of `n` points has, and its weighted sum before the run.
fn sizes(alloc: Global, n: u32) -> Result<(usize, u32, u32, u64), NoMemory>
    requires some { 1 ≤ n }
    requires few { n ≤ MOST_POINTS }
{
    let made = make(alloc, u32::MAX, n)?;
    let sum = weighted(&made.sets);
    let bytes = made.program.items().len();
    Ok((bytes, made.sets.count(0), made.sets.count(1), sum))
}

#[test]
fn largest_job(rt: HostRuntime) -> Result<(), Fail> {
    let found = sizes(rt.alloc(), MOST_POINTS)?;
    assert_eq!(rt; found, (407, 524_288, 1_048_576, 0));
    Ok(())
}

#[test]
fn weighted_sum_below_zero(rt: HostRuntime) -> Result<(), Fail> {
    let mut sets = make(rt.alloc(), 7, 3)?.sets;
    let forces = L::of(vec![in rt.alloc(); 41, 16, 0u64.wrapping_sub(57)]?);
    sets.set_column(0, 1, forces);
    assert_eq!(rt; weighted(&sets), 0u64.wrapping_sub(98));
    Ok(())
}
