//! What the calls of a typed program answer, about programs of models.

ghost use Rattle.std.specs.Prelude.{◌≡◌, length};
ghost use Rattle.block_types.specs.Readings.{set_fields};

use BlockShape::{Matrix, Number, Vector};
use NodeType::{Local, SystemMatrix, SystemVector};
use block_types::{FieldShape, Typed, check};
use main_hosts::main_hosts;
use sim_lexer::lex;
use sim_parser::parse;
use sim_syntax::Lowered;
use std::alloc::{AllocError, Global};
use std::process::Abort;
use std::test::Fail;
use type_rules::{BlockShape, NodeType};
use typed_measures::program_nodes;
use typed_tree::Named;
use worked_texts::{DOUBLED, GRADIENTS, POINTS_AND_SPRINGS, PULLING, RATIO, STIFFNESS, SUMMED};

/// The typed program of a text that has one, by the names of the functions that `simit` has.
fn typed(rt: &(impl Abort + AllocGlobal), text: &str) -> Result<Typed, Fail> {
    assert!(rt; text.len() <= 1 << 20);
    let tokens = lex(rt.alloc(), text.as_bytes())?;
    let program = parse(rt.alloc(), text.as_bytes(), &tokens)?;
    let Ok(lowered) = Lowered::of(program) else {
        return Err(Fail::new("an index expression"));
    };
    let hosts = main_hosts(rt.alloc())?.names(rt.alloc())?;
    match check(rt.alloc(), lowered, &hosts) {
        Ok(typed) => Ok(typed),
        Err(_) => Err(Fail::new("a program that is refused")),
    }
}

/// The type of a node, and what its name stands for.
type NodeRow = (NodeType, Option<Named>);

/// Asserts what the nodes of a program are, in their order.
fn assert_nodes(
    rt: &(impl Abort + AllocGlobal),
    typed: &Typed,
    rows: &[NodeRow],
) -> Result<(), Fail> {
    let nodes = program_nodes(rt.alloc(), typed.typed_program())?;
    assert_eq!(rt; nodes.items().len(), rows.len());
    let mut node = 0u32;
    for (value_type, named) in rows {
        assert!(rt; (node as usize) < nodes.items().len());
        assert!(rt; typed.type_of(node) == *value_type, "the type of {node}");
        assert!(rt; typed.stands_for(node) == *named, "the name of {node}");
        node = node.saturating_add(1);
    }
    Ok(())
}

/// Asserts what the variables of the main procedure are, in their order.
fn assert_variables(
    rt: &(impl Abort + AllocGlobal),
    typed: &Typed,
    types: &[NodeType],
) -> Result<(), Fail> {
    let count = typed.typed_program().variables.items().len();
    assert_eq!(rt; count, types.len());
    let mut variable = 0u32;
    for value_type in types {
        assert!(rt; (variable as usize) < count);
        assert!(rt;
            typed.variable_type(variable) == *value_type,
            "the type of {variable}"
        );
        variable = variable.saturating_add(1);
    }
    Ok(())
}

/// Asserts what the sets of a program are, in their order: their names, and the set of their endpoints.
fn assert_sets(
    rt: &(impl Abort + AllocGlobal),
    typed: &Typed,
    sets: &[(&str, Option<u32>)],
) -> Result<(), Fail> {
    assert_eq!(rt; typed.set_count() as usize, sets.len());
    let mut set = 0u32;
    for (name, over) in sets {
        assert!(rt; set < typed.set_count());
        assert_eq!(rt; typed.set_name(set), *name);
        assert_eq!(rt; typed.over(set), *over);
        assert_eq!(rt; typed.find_set(name), Some(set));
        set = set.saturating_add(1);
    }
    Ok(())
}

/// How many fields the elements of a set have.
fn field_count(typed: &Typed, set: u32) -> usize
    ensures { result ≡ length (set_fields typed.now set) }
{
    let program = typed.typed_program();
    let Some(declared) = program.sets.items().get(set as usize) else {
        return 0;
    };
    match program
        .elements
        .items()
        .get(declared.shape.element as usize)
    {
        Some(element) => element.fields.items().len(),
        None => 0,
    }
}

/// A number of scale 0, and what such a number may be named.
const ZERO: NodeType = Local {
    block: Number,
    scale: 0,
};

const LITERAL: NodeRow = (ZERO, None);

const LOCAL: NodeRow = (ZERO, Some(Named::Local));

/// The stiffness of a spring.
const OWN: NodeRow = (ZERO, Some(Named::Own { field: 0 }));

/// The position of a spring's point.
const END: NodeRow = (ZERO, Some(Named::End { field: 0 }));

/// Numbers over the points, and over the springs.
const POINTS: NodeType = SystemVector {
    set: 0,
    block: Number,
    scale: 0,
};

const SPRINGS: NodeType = SystemVector {
    set: 1,
    block: Number,
    scale: 0,
};

/// Numbers over pairs of points.
const PAIRS: NodeType = SystemMatrix {
    rows: 0,
    columns: 0,
    block: Number,
    scale: 0,
};

const POSITIONS: NodeRow = (POINTS, Some(Named::Field { set: 0, field: 0 }));

const STIFFNESSES: NodeRow = (SPRINGS, Some(Named::Field { set: 1, field: 0 }));

const FIRST_VARIABLE: NodeRow = (PAIRS, Some(Named::Variable(0)));

static OF_PULLING: [NodeRow; 10] = [
    // s.k * (p(1).x - p(0).x)
    OWN, LITERAL, END, LITERAL, END, LITERAL, LITERAL,
    // d
    LOCAL,
    // -d
    LOCAL, LITERAL,
];

static OF_STIFFNESS: [NodeRow; 10] = [
    // s.k, twice -s.k, and s.k
    OWN,
    OWN,
    LITERAL,
    OWN,
    LITERAL,
    OWN,
    // -(K*points.x)
    FIRST_VARIABLE,
    POSITIONS,
    (POINTS, None),
    (POINTS, None),
];

static OF_RESCALED: [NodeRow; 10] = [
    OWN,
    OWN,
    LITERAL,
    OWN,
    LITERAL,
    OWN,
    // rescale(K,0)*points.x
    FIRST_VARIABLE,
    (PAIRS, None),
    POSITIONS,
    (POINTS, None),
];

static OF_WRITTEN: [NodeRow; 13] = [
    OWN,
    OWN,
    LITERAL,
    OWN,
    LITERAL,
    OWN,
    // springs.k + springs.k
    STIFFNESSES,
    STIFFNESSES,
    (SPRINGS, None),
    // -(K*points.x)
    FIRST_VARIABLE,
    POSITIONS,
    (POINTS, None),
    (POINTS, None),
];

/// quot(100, s.k, 0)
static OF_RATIO: [NodeRow; 3] = [LITERAL, OWN, LITERAL];

static OF_TWO_RATIOS: [NodeRow; 8] = [
    LITERAL, OWN, LITERAL,
    // quot(1, s.k - 1, 0)
    LITERAL, OWN, LITERAL, LITERAL, LITERAL,
];

static OF_DOUBLED: [NodeRow; 5] = [
    OWN,
    OWN,
    // A*points.x
    FIRST_VARIABLE,
    POSITIONS,
    (POINTS, None),
];

static OF_SUMMED: [NodeRow; 1] = [OWN];

/// Asserts what the nodes of the program of a text are, in their order.
fn assert_nodes_of(
    rt: &(impl Abort + AllocGlobal),
    text: &str,
    rows: &[NodeRow],
) -> Result<(), Fail> {
    let typed = typed(rt, text)?;
    assert_nodes(rt, &typed, rows)
}

#[test]
fn nodes_of_pulling_springs(rt: HostRuntime) -> Result<(), Fail> {
    assert_nodes_of(&rt, PULLING, &OF_PULLING)
}

#[test]
fn nodes_of_a_stiffness_matrix(rt: HostRuntime) -> Result<(), Fail> {
    assert_nodes_of(&rt, STIFFNESS, &OF_STIFFNESS)
}

#[test]
fn nodes_of_a_rescaled_matrix(rt: HostRuntime) -> Result<(), Fail> {
    let text = STIFFNESS.replace(rt.alloc(), "-(K*points.x)", "rescale(K,0)*points.x")?;
    assert_nodes_of(&rt, text.as_str(), &OF_RESCALED)
}

#[test]
fn nodes_of_a_field_that_a_matrix_reads(rt: HostRuntime) -> Result<(), Fail> {
    let line = "reduce +;\n  springs.k = springs.k + springs.k;";
    let text = STIFFNESS.replace(rt.alloc(), "reduce +;", line)?;
    assert_nodes_of(&rt, text.as_str(), &OF_WRITTEN)
}

#[test]
fn nodes_of_a_ratio(rt: HostRuntime) -> Result<(), Fail> {
    assert_nodes_of(&rt, RATIO, &OF_RATIO)
}

#[test]
fn nodes_of_two_ratios(rt: HostRuntime) -> Result<(), Fail> {
    let text = two_ratios(rt.alloc())?;
    assert_nodes_of(&rt, text.as_str(), &OF_TWO_RATIOS)
}

#[test]
fn nodes_of_places_that_are_written_twice(rt: HostRuntime) -> Result<(), Fail> {
    assert_nodes_of(&rt, DOUBLED, &OF_DOUBLED)
}

#[test]
fn nodes_of_sums_over_springs(rt: HostRuntime) -> Result<(), Fail> {
    assert_nodes_of(&rt, SUMMED, &OF_SUMMED)
}

/// A call of a host function, whose number is 2, and a sum.
const CALLED: &str = "extern func most(int(0), int(2)) -> int(1);
proc main
  var a = most(1, 2.00) + 0.5;
end
";

const WITH_ONE_DECIMAL: NodeType = Local {
    block: Number,
    scale: 1,
};

const WITH_TWO_DECIMALS: NodeType = Local {
    block: Number,
    scale: 2,
};

static OF_CALLED: [NodeRow; 5] = [
    LITERAL,
    (WITH_TWO_DECIMALS, None),
    (WITH_ONE_DECIMAL, Some(Named::Host(2))),
    (WITH_ONE_DECIMAL, None),
    (WITH_ONE_DECIMAL, None),
];

#[test]
fn nodes_of_a_call(rt: HostRuntime) -> Result<(), Fail> {
    let text = [POINTS_AND_SPRINGS, CALLED].concat(rt.alloc())?;
    assert_nodes_of(&rt, text.as_str(), &OF_CALLED)
}

/// A quotient for each spring, and another.
fn two_ratios(alloc: Global) -> Result<String, AllocError> {
    let other = "func other(s : Spring, p : (Point*2)) -> (K : matrix[points,points](int(0)))
  K(p(0),p(1)) = quot(1, s.k - 1, 0);
end
proc main
";
    let text = RATIO.replace(alloc, "proc main\n", other)?;
    let line = "reduce +;\n  var M = map other to springs reduce +;";
    text.replace(alloc, "reduce +;", line)
}

/// Fixed point numbers of scale 4, and products of two of them.
const FOUR: NodeType = Local {
    block: Number,
    scale: 4,
};

const EIGHT: NodeType = Local {
    block: Number,
    scale: 8,
};

const BLOCK: NodeType = Local {
    block: Matrix(3, 3),
    scale: 4,
};

const VECTOR: NodeType = SystemVector {
    set: 0,
    block: Vector(3),
    scale: 4,
};

const LONG_VECTOR: NodeType = SystemVector {
    set: 0,
    block: Vector(3),
    scale: 8,
};

const MATRIX: NodeType = SystemMatrix {
    rows: 0,
    columns: 0,
    block: Matrix(3, 3),
    scale: 4,
};

const UNSCALED: NodeType = Local {
    block: Matrix(3, 3),
    scale: 0,
};

static OF_GRADIENTS: [NodeRow; 86] = [
    // s.k * [1, 0, 0; 0, 1, 0; 0, 0, 1]
    (FOUR, Some(Named::Own { field: 0 })),
    LITERAL,
    LITERAL,
    LITERAL,
    LITERAL,
    LITERAL,
    LITERAL,
    LITERAL,
    LITERAL,
    LITERAL,
    (UNSCALED, None),
    (BLOCK, None),
    // B, -B, -B, B
    (BLOCK, Some(Named::Local)),
    (BLOCK, Some(Named::Local)),
    (BLOCK, None),
    (BLOCK, Some(Named::Local)),
    (BLOCK, None),
    (BLOCK, Some(Named::Local)),
    // 1.0000 * [1, 0, 0; 0, 1, 0; 0, 0, 1]
    (FOUR, None),
    LITERAL,
    LITERAL,
    LITERAL,
    LITERAL,
    LITERAL,
    LITERAL,
    LITERAL,
    LITERAL,
    LITERAL,
    (UNSCALED, None),
    (BLOCK, None),
    // A + M
    (MATRIX, Some(Named::Variable(0))),
    (MATRIX, Some(Named::Variable(1))),
    (MATRIX, None),
    // nodes.x
    (VECTOR, Some(Named::Field { set: 0, field: 1 })),
    // nodes.b - rescale(H*x, 4)
    (VECTOR, Some(Named::Field { set: 0, field: 0 })),
    (MATRIX, Some(Named::Variable(2))),
    (VECTOR, Some(Named::Variable(3))),
    (LONG_VECTOR, None),
    (VECTOR, None),
    (VECTOR, None),
    // r
    (VECTOR, Some(Named::Variable(4))),
    // dot(r, r)
    (VECTOR, Some(Named::Variable(4))),
    (VECTOR, Some(Named::Variable(4))),
    (EIGHT, None),
    // 0:50
    LITERAL,
    LITERAL,
    // rr > 0.00000000
    (EIGHT, Some(Named::Variable(6))),
    (EIGHT, None),
    // rescale(H*q, 4)
    (MATRIX, Some(Named::Variable(2))),
    (VECTOR, Some(Named::Variable(5))),
    (LONG_VECTOR, None),
    (VECTOR, None),
    // dot(q, w)
    (VECTOR, Some(Named::Variable(5))),
    (VECTOR, Some(Named::Variable(7))),
    (EIGHT, None),
    // d != 0.00000000
    (EIGHT, Some(Named::Variable(8))),
    (EIGHT, None),
    // quot(rr, d, 4)
    (EIGHT, Some(Named::Variable(6))),
    (EIGHT, Some(Named::Variable(8))),
    (FOUR, None),
    // x + rescale(a*q, 4)
    (VECTOR, Some(Named::Variable(3))),
    (FOUR, Some(Named::Variable(9))),
    (VECTOR, Some(Named::Variable(5))),
    (LONG_VECTOR, None),
    (VECTOR, None),
    (VECTOR, None),
    // r - rescale(a*w, 4)
    (VECTOR, Some(Named::Variable(4))),
    (FOUR, Some(Named::Variable(9))),
    (VECTOR, Some(Named::Variable(7))),
    (LONG_VECTOR, None),
    (VECTOR, None),
    (VECTOR, None),
    // dot(r, r)
    (VECTOR, Some(Named::Variable(4))),
    (VECTOR, Some(Named::Variable(4))),
    (EIGHT, None),
    // quot(t, rr, 4)
    (EIGHT, Some(Named::Variable(10))),
    (EIGHT, Some(Named::Variable(6))),
    (FOUR, None),
    // r + rescale(c*q, 4)
    (VECTOR, Some(Named::Variable(4))),
    (FOUR, Some(Named::Variable(11))),
    (VECTOR, Some(Named::Variable(5))),
    (LONG_VECTOR, None),
    (VECTOR, None),
    (VECTOR, None),
    // t
    (EIGHT, Some(Named::Variable(10))),
    // x
    (VECTOR, Some(Named::Variable(3))),
];

/// The variables A, M, H, x, r, q, rr, w, d, a, t and c.
static VARIABLES: [NodeType; 12] = [
    MATRIX, MATRIX, MATRIX, VECTOR, VECTOR, VECTOR, EIGHT, VECTOR, EIGHT, FOUR, EIGHT, FOUR,
];

/// Names, and which sets, functions and variables they are.
static NAMES: [(&str, Option<u32>, Option<u32>, Option<u32>); 22] = [
    ("nodes", Some(0), None, None),
    ("links", Some(1), None, None),
    ("stiff", None, Some(0), None),
    ("mass", None, Some(1), None),
    ("A", None, None, Some(0)),
    ("M", None, None, Some(1)),
    ("H", None, None, Some(2)),
    ("x", None, None, Some(3)),
    ("q", None, None, Some(5)),
    ("rr", None, None, Some(6)),
    ("c", None, None, Some(11)),
    // an element type, locals, and no names at all
    ("Node", None, None, None),
    ("i", None, None, None),
    ("B", None, None, None),
    ("s", None, None, None),
    ("n", None, None, None),
    ("b", None, None, None),
    ("node", None, None, None),
    ("nodes1", None, None, None),
    ("Stiff", None, None, None),
    ("rrr", None, None, None),
    ("", None, None, None),
];

/// Asserts what the sets, functions and variables of some names are.
fn assert_names(
    rt: &(impl Abort + AllocGlobal),
    typed: &Typed,
    rows: &[(&str, Option<u32>, Option<u32>, Option<u32>)],
) -> Result<(), Fail> {
    for row in rows {
        assert!(rt; typed.find_set(row.0) == row.1);
        assert!(rt; typed.find_function(row.0) == row.2);
        assert!(rt; typed.find_variable(row.0) == row.3);
    }
    Ok(())
}

#[test]
fn nodes_of_gradients(rt: HostRuntime) -> Result<(), Fail> {
    assert_nodes_of(&rt, GRADIENTS, &OF_GRADIENTS)
}

#[test]
fn variables_of_gradients(rt: HostRuntime) -> Result<(), Fail> {
    let typed = typed(&rt, GRADIENTS)?;
    assert_variables(&rt, &typed, &VARIABLES)
}

#[test]
fn sets_of_gradients(rt: HostRuntime) -> Result<(), Fail> {
    let typed = typed(&rt, GRADIENTS)?;
    assert_sets(&rt, &typed, &[("nodes", None), ("links", Some(0))])
}

#[test]
fn names_of_gradients(rt: HostRuntime) -> Result<(), Fail> {
    let typed = typed(&rt, GRADIENTS)?;
    assert_names(&rt, &typed, &NAMES)
}

#[test]
fn trees_of_gradients(rt: HostRuntime) -> Result<(), Fail> {
    let typed = typed(&rt, GRADIENTS)?;
    assert_eq!(rt; typed.program().body.len(), 9);
    assert_eq!(rt; typed.typed_program().functions.items().len(), 2);
    Ok(())
}

/// Elements with blocks of every form, three sets of which the last is of edges, and variables of one name in lists of
/// their own.
const BLOCKS: &str = "element P
  x : int(1);
  v : vector[3](int(2));
  m : matrix[2,3](int(3));
  w : vector[1](int(4));
  y : int(5);
end
element S
  n : matrix[3,1](int(6));
  k : int(7);
end
extern qs : set{P};
extern ps : set{P};
extern es : set{S}(ps, ps, ps);
func f(a : int(2), s : S, p : (P*3)) -> (r : vector[ps](int(4)))
  for i in 0:3
    r(p(i)) = a*p(i).v(i) - i*0.0001;
    r(p(0)) = rescale(s.n(i,0), 4);
  end
end
proc main
  var n = dot(ps.v, ps.v);
  if n > 0.0000
    var q = es.n;
  else
    var q = ps.m;
    q = q*2;
  end
  for i in 0:3
    var q = i + 1;
    es.k = es.k*q;
  end
  var r = map f(0.25) to es reduce +;
  r = -r;
end
";

const TWO: NodeType = Local {
    block: Number,
    scale: 2,
};

const SIX: NodeType = Local {
    block: Number,
    scale: 6,
};

const FINE: NodeType = SystemVector {
    set: 2,
    block: Matrix(3, 1),
    scale: 6,
};

const WIDE: NodeType = SystemVector {
    set: 1,
    block: Matrix(2, 3),
    scale: 3,
};

const STEADY: NodeType = SystemVector {
    set: 2,
    block: Number,
    scale: 7,
};

const ADDED: NodeType = SystemVector {
    set: 1,
    block: Number,
    scale: 4,
};

const VECTORS: NodeRow = (
    SystemVector {
        set: 1,
        block: Vector(3),
        scale: 2,
    },
    Some(Named::Field { set: 1, field: 1 }),
);

static OF_BLOCKS: [NodeRow; 34] = [
    // a*p(i).v(i) - i*0.0001
    (TWO, Some(Named::Local)),
    LOCAL,
    LOCAL,
    (TWO, Some(Named::End { field: 1 })),
    (FOUR, None),
    LOCAL,
    (FOUR, None),
    (FOUR, None),
    (FOUR, None),
    // rescale(s.n(i,0), 4)
    LOCAL,
    LITERAL,
    (SIX, Some(Named::Own { field: 0 })),
    (FOUR, None),
    // dot(ps.v, ps.v)
    VECTORS,
    VECTORS,
    (FOUR, None),
    // n > 0.0000
    (FOUR, Some(Named::Variable(0))),
    (FOUR, None),
    // es.n
    (FINE, Some(Named::Field { set: 2, field: 0 })),
    // ps.m
    (WIDE, Some(Named::Field { set: 1, field: 2 })),
    // q*2
    (WIDE, Some(Named::Variable(2))),
    LITERAL,
    (WIDE, None),
    // 0:3
    LITERAL,
    LITERAL,
    // i + 1
    LOCAL,
    LITERAL,
    LITERAL,
    // es.k*q
    (STEADY, Some(Named::Field { set: 2, field: 1 })),
    (ZERO, Some(Named::Variable(3))),
    (STEADY, None),
    // 0.25
    (TWO, None),
    // -r
    (ADDED, Some(Named::Variable(4))),
    (ADDED, None),
];

/// A set, a field, the field's first column, its rows and columns, and its scale.
static FIELDS: [(u32, u32, u32, u32, u32, u32); 12] = [
    (0, 0, 0, 1, 1, 1),
    (0, 1, 1, 3, 1, 2),
    (0, 2, 4, 2, 3, 3),
    (0, 3, 10, 1, 1, 4),
    (0, 4, 11, 1, 1, 5),
    (1, 0, 0, 1, 1, 1),
    (1, 1, 1, 3, 1, 2),
    (1, 2, 4, 2, 3, 3),
    (1, 3, 10, 1, 1, 4),
    (1, 4, 11, 1, 1, 5),
    (2, 0, 0, 3, 1, 6),
    (2, 1, 3, 1, 1, 7),
];

/// A field of a set: the set, the field, its first column, its sides and its scale.
type FieldRow = (u32, u32, u32, u32, u32, u32);

/// Asserts what the fields of sets are.
fn assert_fields(
    rt: &(impl Abort + AllocGlobal),
    typed: &Typed,
    rows: &[FieldRow],
) -> Result<(), Fail> {
    for row in rows {
        let (set, field, column, high, wide, scale) = *row;
        assert!(rt; (field as usize) < field_count(typed, set));
        let want = FieldShape {
            set,
            column,
            high,
            wide,
            scale,
        };
        assert!(rt; typed.field(set, field) == want, "of {set} and {field}");
    }
    Ok(())
}

#[test]
fn nodes_of_blocks(rt: HostRuntime) -> Result<(), Fail> {
    assert_nodes_of(&rt, BLOCKS, &OF_BLOCKS)
}

#[test]
fn variables_of_blocks(rt: HostRuntime) -> Result<(), Fail> {
    let typed = typed(&rt, BLOCKS)?;
    assert_variables(&rt, &typed, &[FOUR, FINE, WIDE, ZERO, ADDED])
}

#[test]
fn sets_of_blocks(rt: HostRuntime) -> Result<(), Fail> {
    let typed = typed(&rt, BLOCKS)?;
    assert_sets(&rt, &typed, &[("qs", None), ("ps", None), ("es", Some(1))])
}

#[test]
fn fields_of_blocks(rt: HostRuntime) -> Result<(), Fail> {
    let typed = typed(&rt, BLOCKS)?;
    assert_fields(&rt, &typed, &FIELDS)
}

/// Names in the program of blocks: q and r are those of several variables, of which the first is found.
static OF_NAMES: [(&str, Option<u32>, Option<u32>, Option<u32>); 5] = [
    ("q", None, None, Some(1)),
    ("r", None, None, Some(4)),
    ("i", None, None, None),
    ("P", None, None, None),
    ("f", None, Some(0), None),
];

#[test]
fn names_of_blocks(rt: HostRuntime) -> Result<(), Fail> {
    let typed = typed(&rt, BLOCKS)?;
    assert_names(&rt, &typed, &OF_NAMES)
}
