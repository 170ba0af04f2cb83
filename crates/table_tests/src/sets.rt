//! Sets: a small graph, each answer worked out by hand.
ghost use Rattle.std.specs.Prelude.{◌≡◌, IfOk, length, None, Some};
ghost use Rattle.hypergraph.specs.Sets.{AllLieOverEarlier, set_at};

use hypergraph::{SetData, Sets};
use std::alloc::{AllocError, Global};
use std::test::Fail;
use vocabulary::L;

/// Four points, of which the last is alone, with two columns.
fn points(alloc: Global) -> Result<SetData, AllocError>
    ensures over { IfOk result (λ set. set.over ≡ None) }
    ensures arity { IfOk result (λ set. set.arity ≡ 0) }
    ensures columns { IfOk result (λ set. length set.columns ≡ 2) }
{
    let x = L::of(vec![in alloc; 0, 10, 25, 40]?);
    let f = L::of(vec![in alloc; 1, 2, 3, 4]?);
    let columns = L::of(vec![in alloc; x, f]?);
    Ok(SetData::new(4, None, 0, Vec::new(alloc), columns))
}

/// Four springs over the points: one to itself, and two between the same two. The last has these endpoints.
fn springs(alloc: Global, from: u32, to: u32) -> Result<SetData, AllocError>
    ensures over { IfOk result (λ set. set.over ≡ Some 0) }
    ensures columns { IfOk result (λ set. length set.columns ≡ 1) }
{
    let endpoints = vec![in alloc; 0, 1, 1, 1, 1, 2, from, to]?;
    let k = L::of(vec![in alloc; 5, 6, 7, 8]?);
    let columns = L::of(vec![in alloc; k]?);
    Ok(SetData::new(4, Some(0), 2, endpoints, columns))
}

/// Points, and springs of which the last has these endpoints.
fn graph(alloc: Global, from: u32, to: u32) -> Result<Vec<SetData>, AllocError>
    ensures few { IfOk result (λ list. length list.items ≡ 2) }
    ensures over_earlier { IfOk result (λ list. AllLieOverEarlier list.items) }
    ensures columns { IfOk result (λ list. (length (set_at list.items 0).columns ≡ 2)
        × (length (set_at list.items 1).columns ≡ 1)) }
{
    let points = points(alloc)?;
    let springs = springs(alloc, from, to)?;
    let list = vec![in alloc; points, springs]?;
    Ok(list)
}

/// A set, a vertex, and the elements of the set that have it.
static INCIDENT: [(u32, u32, &[u32]); 6] = [
    (1, 0, &[0]),
    (1, 1, &[0, 1, 2, 3]),
    (1, 2, &[2, 3]),
    (1, 3, &[]),
    // no such point
    (1, 4, &[]),
    // a set without endpoints
    (0, 0, &[]),
];

#[test]
fn elements_are_found_by_their_endpoints(rt: HostRuntime) -> Result<(), Fail> {
    let alloc = rt.alloc();
    let sets = Sets::of(graph(alloc, 1, 2)?)?;
    assert_eq!(rt; sets.len(), 2);
    for (set, vertex, want) in &INCIDENT {
        assert!(rt; *set < 2);
        let elements = sets.incident(alloc, *set, *vertex)?;
        assert_eq!(rt; elements.as_slice(), *want, "of {vertex} in {set}");
    }
    Ok(())
}

#[test]
fn columns_are_replaced_and_copied(rt: HostRuntime) -> Result<(), Fail> {
    let alloc = rt.alloc();
    let mut sets = Sets::of(graph(alloc, 1, 2)?)?;
    let before = sets.copy(alloc)?;
    assert_eq!(rt; sets.len(), 2);
    assert_eq!(rt; sets.count(0), 4);
    let words = L::of(vec![in alloc; 9, 8, 7, 6]?);
    let old = sets.set_column(0, 1, words);
    assert_eq!(rt; old.items(), [1, 2, 3, 4].as_slice());
    assert_eq!(rt; before.column(0, 1), [1, 2, 3, 4].as_slice());
    assert_eq!(rt; sets.column(0, 0), [0, 10, 25, 40].as_slice());
    assert_eq!(rt; sets.column(0, 1), [9, 8, 7, 6].as_slice());
    assert_eq!(rt; sets.column(1, 0), [5, 6, 7, 8].as_slice());
    Ok(())
}

/// The endpoints of the last spring, and the fault that is displayed of them.
static BAD: [(u32, u32, &str); 3] = [
    (0, 4, "no such endpoint: place 1 of element 3 of set 1"),
    (4, 0, "no such endpoint: place 0 of element 3 of set 1"),
    (9, 4, "no such endpoint: place 0 of element 3 of set 1"),
];

#[test]
fn the_first_bad_endpoint_is_named(rt: HostRuntime) -> Result<(), Fail> {
    for (from, to, want) in &BAD {
        let Err(bad) = Sets::of(graph(rt.alloc(), *from, *to)?) else {
            panic!(rt; "at {from} and {to}");
        };
        let found = format!(in rt.alloc(); "{bad}")?;
        assert_eq!(rt; found.as_str(), *want, "at {from} and {to}");
    }
    Ok(())
}
