//! Declarations of points and of links between them, and sets of these.
ghost use Rattle.std.specs.Prelude.{◌≡◌, ◌≤◌, IfOk, length, None, Some};

use hypergraph::{SetData, Sets};
use std::alloc::{AllocError, Global};
use std::test::Fail;
use vocabulary::L;

/// Points with blocks, and links between points.
pub const DECLARATIONS: &str =
    "element P x : int(0); y : int(2); v : vector[2](int(0)); m : matrix[2,2](int(0)); end
element L k : int(0); w : vector[2](int(0)); h : int(2); end
extern ps : set{P};
extern ls : set{L}(ps, ps);
";

/// The heading of a function over links, which may write a vector of blocks, numbers at the links, a matrix of blocks, and
/// a matrix of numbers whose sides are two sets.
pub const OVER_LINKS: &str =
    "func f(a : int(0), s : L, p : (P*2)) -> (b : vector[ps](vector[2](int(0))),
    e : vector[ls](int(0)), K : matrix[ps,ps](matrix[2,2](int(0))), M : matrix[ls,ps](int(0)))
";

/// A column of numbers.
fn column(alloc: Global, numbers: &[i64]) -> Result<L<u64>, AllocError>
    ensures { IfOk result (λ column. length column ≡ length numbers.now) }
{
    let words = numbers
        .iter()
        .map(|number| number.cast_unsigned())
        .collect(alloc)?;
    Ok(L::of(words))
}

/// Four points: x, y with two decimals, v and m.
fn points(alloc: Global) -> Result<SetData, AllocError>
    ensures over { IfOk result (λ set. set.over ≡ None) }
    ensures arity { IfOk result (λ set. set.arity ≡ 0) }
{
    let columns = vec![in alloc;
        column(alloc, &[3, -1, 0, 7])?,
        column(alloc, &[150, -25, 0, 99])?,
        column(alloc, &[1, 2, -3, 0])?,
        column(alloc, &[0, 5, 1, -2])?,
        column(alloc, &[1, 2, 0, -1])?,
        column(alloc, &[0, 1, 3, 2])?,
        column(alloc, &[2, 0, -1, 1])?,
        column(alloc, &[1, -1, 1, 0])?,
    ]?;
    Ok(SetData::new(4, None, 0, Vec::new(alloc), L::of(columns)))
}

/// Six links, one from a point to itself and two between the same two: k, w, and h with two decimals.
fn links(alloc: Global) -> Result<SetData, AllocError>
    ensures { IfOk result (λ set. set.over ≡ Some 0) }
{
    let endpoints = vec![in alloc; 0, 1, 1, 2, 2, 0, 1, 1, 3, 0, 0, 1]?;
    let columns = vec![in alloc;
        column(alloc, &[2, -3, 4, 5, 0, 1])?,
        column(alloc, &[1, 0, -1, 2, 3, 1])?,
        column(alloc, &[2, 1, 1, 0, -2, 1])?,
        column(alloc, &[125, -250, 0, 333, 5, -1])?,
    ]?;
    Ok(SetData::new(6, Some(0), 2, endpoints, L::of(columns)))
}

/// Four points and six links between them.
pub fn graph(alloc: Global) -> Result<Sets, Fail> {
    let points = points(alloc)?;
    let links = links(alloc)?;
    match Sets::of(vec![in alloc; points, links]?) {
        Ok(sets) => Ok(sets),
        Err(_) => Err(Fail::new("a bad endpoint")),
    }
}

/// So many points without columns, and no links between them.
pub fn points_alone(alloc: Global, count: u32) -> Result<Sets, Fail>
    requires { count ≤ 4096 }
{
    let points = SetData::new(count, None, 0, Vec::new(alloc), L::empty(alloc));
    let links = SetData::new(0, Some(0), 2, Vec::new(alloc), L::empty(alloc));
    match Sets::of(vec![in alloc; points, links]?) {
        Ok(sets) => Ok(sets),
        Err(_) => Err(Fail::new("a bad endpoint")),
    }
}
