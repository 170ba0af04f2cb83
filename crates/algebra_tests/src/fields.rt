//! The schemas of a program's sets, and fields that are assigned whole.
use crate::graphs::{DECLARATIONS, graph};
use crate::typing::typed;
use block_types::Typed;
use hypergraph::Sets;
use std::process::Abort;
use std::test::Fail;
use value_algebra::{block_of, entries};
use vocabulary::L;
use write_back::{assign, schema};

/// Points and links, and nothing to do.
fn declared(rt: &(impl Abort + AllocGlobal)) -> Result<Typed, Fail> {
    let text = [DECLARATIONS, "proc main end"].concat(rt.alloc())?;
    typed(rt, text.as_str())
}

/// A set's name, how many endpoints its elements have, and its headings with their scales.
static SCHEMAS: [(&str, u32, &[(&str, u32)]); 2] = [
    (
        "ps",
        0,
        &[
            ("x", 0),
            ("y", 2),
            ("v.0", 0),
            ("v.1", 0),
            ("m.0.0", 0),
            ("m.0.1", 0),
            ("m.1.0", 0),
            ("m.1.1", 0),
        ],
    ),
    ("ls", 2, &[("k", 0), ("w.0", 0), ("w.1", 0), ("h", 2)]),
];

#[test]
fn schemas_of_sets(rt: HostRuntime) -> Result<(), Fail> {
    let typed = declared(&rt)?;
    let mut set = 0;
    for (name, arity, columns) in &SCHEMAS {
        assert!(rt; set < typed.set_count());
        let schema = schema(rt.alloc(), &typed, set)?;
        assert_eq!(rt; schema.name.as_str(), *name);
        assert_eq!(rt; schema.arity, *arity, "endpoints of {name}");
        assert_eq!(rt;
            schema.columns.items().len(),
            columns.len(),
            "columns of {name}"
        );
        for (column, (heading, scale)) in schema.columns.items().iter().zip(*columns) {
            assert_eq!(rt; column.heading.as_str(), *heading, "of {name}");
            assert_eq!(rt; column.scale, *scale, "scale of {heading} of {name}");
        }
        set = set.saturating_add(1);
    }
    Ok(())
}

/// A set, a field of it, and its new words, element after element; then its first column, and the words of its columns.
type AssignedRow = (u32, u32, &'static [u64], u32, &'static [&'static [u64]]);

static ASSIGNED: [AssignedRow; 4] = [
    // m, row by row
    (
        0,
        3,
        &[1, 2, 3, 4, 5, 6, 7, 8, 9, 10, 11, 12, 13, 14, 15, 16],
        4,
        &[
            &[1, 5, 9, 13],
            &[2, 6, 10, 14],
            &[3, 7, 11, 15],
            &[4, 8, 12, 16],
        ],
    ),
    // w
    (
        1,
        1,
        &[1, 2, 3, 4, 5, 6, 7, 8, 9, 10, 11, 12],
        1,
        &[&[1, 3, 5, 7, 9, 11], &[2, 4, 6, 8, 10, 12]],
    ),
    // x and h
    (0, 0, &[9, 8, 7, 6], 0, &[&[9, 8, 7, 6]]),
    (1, 2, &[6, 5, 4, 3, 2, 1], 3, &[&[6, 5, 4, 3, 2, 1]]),
];

/// Gives a field other words.
fn give(
    rt: &(impl Abort + AllocGlobal),
    typed: &Typed,
    sets: &mut Sets,
    field: (u32, u32),
    words: &[u64],
) -> Result<(), Fail> {
    let (set, field) = field;
    assert!(rt; set < sets.len());
    assert!(rt; (field as usize) < typed.fields(set).len());
    let width = entries(block_of(typed.fields(set), field));
    assert!(rt; width <= 36);
    assert!(rt; words.len() as u64 == u64::from(sets.count(set)) * width);
    let words = L::of(words.to_vec(rt.alloc())?);
    assign(rt.alloc(), sets, typed, set, field, words)?;
    Ok(())
}

/// The words of a column, by those from a first column on.
fn words_at<'a>(columns: &[&'a [u64]], first: u32, column: u32) -> Option<&'a [u64]> {
    let entry = column.checked_sub(first)?;
    columns.get(entry as usize).copied()
}

/// Asserts that the columns of a set from one on are these, and that all others are as they were.
fn assert_columns(
    rt: &impl Abort,
    before: &Sets,
    after: &Sets,
    first: (u32, u32),
    columns: &[&[u64]],
) {
    let (changed, first) = first;
    assert_eq!(rt; before.len(), after.len());
    for set in 0..after.len() {
        assert!(rt; set < before.len());
        assert_eq!(rt; before.columns(set), after.columns(set));
        for column in 0..after.columns(set) {
            assert!(rt; column < before.columns(set));
            let want = match words_at(columns, first, column) {
                Some(words) if set == changed => words,
                _ => before.column(set, column),
            };
            assert_eq!(rt; after.column(set, column), want, "column {column} of {set}");
        }
    }
}

#[test]
fn fields_are_assigned_whole(rt: HostRuntime) -> Result<(), Fail> {
    let typed = declared(&rt)?;
    for (set, field, words, first, columns) in &ASSIGNED {
        let mut sets = graph(rt.alloc())?;
        let before = sets.copy(rt.alloc())?;
        give(&rt, &typed, &mut sets, (*set, *field), words)?;
        assert_columns(&rt, &before, &sets, (*set, *first), columns);
    }
    Ok(())
}
