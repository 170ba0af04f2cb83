//! The types of references that an index expression makes, with no index, one or two; and what kinds of faults are
//! called.
use BlockShape::{Matrix, Number};
use NodeType::{Local, SystemMatrix, SystemVector};
use std::test::Fail;
use type_rules::{BlockShape, NodeType, TypeKind, rank_rule};

const NUMBER: NodeType = Local {
    block: Number,
    scale: 1,
};

/// A matrix of one element.
const TWO_BY_THREE: NodeType = Local {
    block: Matrix(2, 3),
    scale: 2,
};

/// A vector over the set 0.
const NUMBERS: NodeType = SystemVector {
    set: 0,
    block: Number,
    scale: 2,
};

/// Rows over the set 1 and columns over the set 0.
const SYSTEM: NodeType = SystemMatrix {
    rows: 1,
    columns: 0,
    block: Matrix(2, 3),
    scale: 2,
};

/// A value, how many indices a reference has, and whether it may have them.
static RANKS: [(NodeType, u32, bool); 10] = [
    (NUMBER, 0, true),
    (NUMBERS, 1, true),
    (SYSTEM, 2, true),
    (NUMBER, 1, false),
    (NUMBER, 2, false),
    (NUMBERS, 0, false),
    (NUMBERS, 2, false),
    (SYSTEM, 0, false),
    (SYSTEM, 1, false),
    (TWO_BY_THREE, 2, false),
];

#[test]
fn types_of_references_with_indices(rt: HostRuntime) -> Result<(), Fail> {
    for (value, rank, allowed) in &RANKS {
        let want = if *allowed {
            Ok(*value)
        } else {
            Err(TypeKind::Shape)
        };
        assert!(rt;
            rank_rule(*value, *rank) == want,
            "of {value:?} with {rank}"
        );
    }
    Ok(())
}

static KINDS: [(TypeKind, &str); 8] = [
    (TypeKind::Unknown, "unknown name"),
    (TypeKind::Twice, "declared twice"),
    (TypeKind::NotConstant, "not a constant"),
    (TypeKind::NotAPlace, "not a place"),
    (TypeKind::Shape, "shape"),
    (TypeKind::Set, "set"),
    (TypeKind::Scale, "scale"),
    (TypeKind::TooLarge, "too large"),
];

#[test]
fn texts_of_kinds(rt: HostRuntime) -> Result<(), Fail> {
    for (kind, want) in &KINDS {
        let text = format!(in rt.alloc(); "{kind}")?;
        assert_eq!(rt; text.as_str(), *want);
    }
    Ok(())
}
