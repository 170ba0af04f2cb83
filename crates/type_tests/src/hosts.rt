//! Host functions, of which there are `clamp0`, `least`, `most`, `mix` and `square`: declarations and calls that have no
//! types, with the line and the kind of the fault that is named, and others that have.
use crate::checked_texts::{Row, assert_accepted, assert_refused};
use TypeKind::{NotConstant, Scale, Set, Shape, Twice, Unknown};
use std::test::Fail;
use type_rules::TypeKind;

/// The end of a program.
const MAIN: &str = "\nproc main\nend";

/// Element types, sets and a function, in lines 1 to 5.
const DECLARED: &str = "element P x : int(0); end
element S end
extern ps : set{P};
extern es : set{S}(ps, ps);
func f(e : P) -> (r : vector[ps](int(0))) end
";

/// Declarations from line 6 on.
static DECLARATIONS: [Row; 47] = [
    // no such host function
    ("extern func h(int(0)) -> int(0);", 6, Unknown),
    ("\nextern func h(int(0), int(0)) -> int(0);", 7, Unknown),
    ("extern func ps(int(0)) -> int(0);", 6, Unknown),
    ("extern func f(int(0)) -> int(0);", 6, Unknown),
    ("extern func leas(int(0), int(0)) -> int(0);", 6, Unknown),
    ("extern func least1(int(0), int(0)) -> int(0);", 6, Unknown),
    ("extern func Least(int(0), int(0)) -> int(0);", 6, Unknown),
    // names that are taken
    (
        "extern func mix(int(0)) -> int(0);\nextern func mix(int(0)) -> int(0);",
        7,
        Twice,
    ),
    (
        "element mix end\nextern func mix(int(0)) -> int(0);",
        7,
        Twice,
    ),
    (
        "extern mix : set{P};\nextern func mix(int(0)) -> int(0);",
        7,
        Twice,
    ),
    (
        "func mix(e : P) -> (r : vector[ps](int(0))) end\nextern func mix(int(0)) -> int(0);",
        7,
        Twice,
    ),
    (
        "extern func mix(int(0)) -> int(0);\nelement mix end",
        7,
        Twice,
    ),
    (
        "extern func mix(int(0)) -> int(0);\nextern mix : set{P};",
        7,
        Twice,
    ),
    (
        "extern func mix(int(0)) -> int(0);\nfunc mix(e : P) -> (r : vector[ps](int(0))) end",
        7,
        Twice,
    ),
    (
        "extern func mix(int(0)) -> int(0);\nfunc g(mix : P) -> (r : vector[ps](int(0))) end",
        7,
        Twice,
    ),
    (
        "extern func mix(int(0)) -> int(0);\nfunc g(e : P) -> (mix : vector[ps](int(0))) end",
        7,
        Twice,
    ),
    (
        "extern func mix(int(0)) -> int(0);\nfunc g(e : P) -> (r : vector[ps](int(0)))\nvar mix = 1;\nend",
        8,
        Twice,
    ),
    // a host function where another sort of name is asked
    (
        "extern func mix(int(0)) -> int(0);\nextern a : set{mix};",
        7,
        Unknown,
    ),
    (
        "extern func mix(int(0)) -> int(0);\nextern a : set{S}(mix);",
        7,
        Unknown,
    ),
    // scales with a point
    ("extern func mix(int(0.0)) -> int(0);", 6, NotConstant),
    ("extern func mix(int(0)) -> int(1.0);", 6, NotConstant),
    (
        "extern func least(int(1.5), int(0)) -> int(0);",
        6,
        NotConstant,
    ),
    (
        "extern func least(int(0), int(1.5)) -> int(0);",
        6,
        NotConstant,
    ),
    // another number of arguments than the function has
    ("extern func mix(int(0), int(0)) -> int(0);", 6, Shape),
    ("extern func least(int(0)) -> int(0);", 6, Shape),
    (
        "extern func least(int(0), int(0), int(0)) -> int(0);",
        6,
        Shape,
    ),
    (
        "\nextern\nfunc square(int(0), int(0), int(0)) -> int(0);",
        7,
        Shape,
    ),
    // scales over 36
    ("extern func mix(int(37)) -> int(0);", 6, Scale),
    ("extern func mix(int(0)) -> int(37);", 6, Scale),
    ("extern func least(int(37), int(36)) -> int(36);", 6, Scale),
    ("extern func least(int(36), int(37)) -> int(36);", 6, Scale),
    ("extern func mix(int(4294967296)) -> int(0);", 6, Scale),
    (
        "extern func mix(int(0)) -> int(18446744073709551616);",
        6,
        Scale,
    ),
    // several kinds at one declaration
    ("extern func h(int(0.5)) -> int(0);", 6, Unknown),
    ("extern func h(int(37)) -> int(0);", 6, Unknown),
    (
        "extern func h(int(0), int(0), int(0)) -> int(0);",
        6,
        Unknown,
    ),
    (
        "extern mix : set{P};\nextern func mix(int(0.5)) -> int(0);",
        7,
        Twice,
    ),
    (
        "extern mix : set{P};\nextern func mix(int(0), int(0)) -> int(0);",
        7,
        Twice,
    ),
    (
        "extern mix : set{P};\nextern func mix(int(37)) -> int(0);",
        7,
        Twice,
    ),
    (
        "extern func mix(int(0), int(0.5)) -> int(0);",
        6,
        NotConstant,
    ),
    (
        "extern func least(int(37), int(0)) -> int(0.5);",
        6,
        NotConstant,
    ),
    ("extern func least(int(37)) -> int(0);", 6, Shape),
    ("extern func mix(int(0), int(0)) -> int(37);", 6, Shape),
    // two declarations
    (
        "extern a : set{Q};\nextern func h(int(0)) -> int(0);",
        6,
        Unknown,
    ),
    (
        "extern a : set{S}(es);\nextern func h(int(0)) -> int(0);",
        6,
        Set,
    ),
    (
        "extern func mix(int(37)) -> int(0);\nextern func h(int(0)) -> int(0);",
        6,
        Scale,
    ),
    (
        "extern func h(int(0)) -> int(0);\nextern a : set{S}(es);",
        6,
        Unknown,
    ),
];

/// Declarations that have types.
static ACCEPTED_DECLARATIONS: [&str; 5] = [
    "extern func least(int(0), int(36)) -> int(36);",
    "extern func least(int(36), int(0)) -> int(0);",
    "extern func mix(int(036)) -> int(00);",
    "extern func clamp0(int(1)) -> int(2);
extern func least(int(1), int(2)) -> int(3);
extern func most(int(0), int(0)) -> int(0);
extern func mix(int(0)) -> int(0);
extern func square(int(18)) -> int(36);",
    "element least x : int(0); end\nextern mix : set{least};\nfunc most(square : P) -> (r : vector[ps](int(0))) end",
];

#[test]
fn declarations_of_host_functions(rt: HostRuntime) -> Result<(), Fail> {
    assert_refused(&rt, [DECLARED, ""], &DECLARATIONS, MAIN)?;
    assert_accepted(&rt, [DECLARED, ""], &ACCEPTED_DECLARATIONS, MAIN)
}

/// Declarations in lines 1 to 6: two host functions, of which one has arguments of different scales.
const HOSTED: &str = "element P x : int(0); v : vector[3](int(0)); end
element S k : int(0); h : int(2); end
extern ps : set{P};
extern es : set{S}(ps, ps);
extern func least(int(0), int(2)) -> int(1);
extern func square(int(0)) -> int(0);
";

/// The heading of a function, in line 7.
const OF_SPRINGS: &str = "func f(a : int(2), s : S, p : (P*2)) -> (r : vector[ps](int(0)))\n";

/// Expressions of a function in line 8.
static IN_FUNCTIONS: [Row; 24] = [
    // one that isn't declared, and one that is no host function
    ("most(1, 2)", 8, Unknown),
    ("z(1)", 8, Unknown),
    ("square(z)", 8, Unknown),
    ("square(\nz)", 9, Unknown),
    // a field of what is neither the element nor an endpoint
    ("square.x", 8, Unknown),
    ("square(1).x", 8, Unknown),
    // numbers of arguments
    ("square", 8, Shape),
    ("square(1, 2)", 8, Shape),
    ("least(1)", 8, Shape),
    ("least(1, 2.00, 3)", 8, Shape),
    // arguments that are no numbers
    ("square([1,2])", 8, Shape),
    ("square([1,2;3,4])", 8, Shape),
    ("square(p(0).v)", 8, Shape),
    ("least(1, [1.00,2.00])", 8, Shape),
    // scales of arguments, and of what is answered
    ("square(1.5)", 8, Scale),
    ("square(a)", 8, Scale),
    ("least(1, 2)", 8, Scale),
    ("least(1.00, 2.00)", 8, Scale),
    ("least(s.h, s.k)", 8, Scale),
    ("least(1, 2.00) + 1", 8, Scale),
    ("[square(1), least(1, 2.00)]", 8, Scale),
    // several kinds at one call
    ("square(1.5, 2)", 8, Shape),
    ("least(1.5, [1,2])", 8, Shape),
    // arguments in their order, before the call
    ("least(square(1.5), z)", 8, Scale),
];

/// Expressions of a function that have types.
static ACCEPTED_IN_FUNCTIONS: [&str; 8] = [
    "square(1)",
    "square(square(-s.k))",
    "least(s.k, s.h) + 1.5",
    "least(square(2), a)",
    "square(p(1).x*2)*[1,2,3]",
    "square(p(0).v(2))",
    "rescale(least(1, rescale(s.h, 2)), 0)",
    "quot(square(1), square(2), 3)",
];

/// Expressions of the main procedure in line 8.
static IN_MAIN: [Row; 14] = [
    ("most(1, 2)", 8, Unknown),
    ("square(z)", 8, Unknown),
    ("square.x", 8, Unknown),
    ("map square to ps reduce +", 8, Unknown),
    ("square", 8, Shape),
    ("square(1, 2)", 8, Shape),
    ("least(1)", 8, Shape),
    ("square(ps.x)", 8, Shape),
    ("square([1,2])", 8, Shape),
    ("least(1, es.h)", 8, Shape),
    ("square(1.5)", 8, Scale),
    ("least(1, 2)", 8, Scale),
    ("least(1, 2.00) + 1", 8, Scale),
    ("least(1.5, ps.x)", 8, Shape),
];

/// Expressions of the main procedure that have types.
static ACCEPTED_IN_MAIN: [&str; 5] = [
    "square(1)",
    "square(square(-2))*ps.x",
    "least(dot(ps.x, ps.x), 2.00) + 1.5",
    "least(1, 2.00)*least(2, 1.00)",
    "quot(square(1), square(2), 3)",
];

#[test]
fn calls_of_host_functions(rt: HostRuntime) -> Result<(), Fail> {
    let declared = [HOSTED, OF_SPRINGS].concat(rt.alloc())?;
    let in_function = [declared.as_str(), "var n = "];
    let after = ";\nend\nproc main\nend";
    assert_refused(&rt, in_function, &IN_FUNCTIONS, after)?;
    assert_accepted(&rt, in_function, &ACCEPTED_IN_FUNCTIONS, after)?;
    let in_main = [HOSTED, "proc main\nvar n = "];
    assert_refused(&rt, in_main, &IN_MAIN, ";\nend")?;
    assert_accepted(&rt, in_main, &ACCEPTED_IN_MAIN, ";\nend")
}
