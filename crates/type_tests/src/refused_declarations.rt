//! Declarations that have no types, with the line and the kind of the fault that is named.
use crate::checked_texts::{Row, assert_refused};
use TypeKind::{NotConstant, Scale, Set, Shape, TooLarge, Twice, Unknown};
use std::test::Fail;
use type_rules::TypeKind;

/// The end of a program.
const MAIN: &str = "\nproc main\nend";

/// Fields from line 2 on.
static FIELDS: [Row; 41] = [
    // names
    ("x : int(0); x : int(0);", 2, Twice),
    ("x : int(0);\nx : vector[2](int(0));", 3, Twice),
    ("x : int(0);\ny : int(0);\nx : int(0);", 4, Twice),
    ("key : int(0);", 2, Twice),
    ("p0 : int(0);", 2, Twice),
    ("x : int(0);\np7 : vector[2](int(0));", 3, Twice),
    // scales and sides with a point
    ("x : int(0.0);", 2, NotConstant),
    ("x : int(1.5);", 2, NotConstant),
    ("x : vector[2.0](int(0));", 2, NotConstant),
    ("x : vector[2](int(0.0));", 2, NotConstant),
    ("x : matrix[2.5,2](int(0));", 2, NotConstant),
    ("x : matrix[2,2.5](int(0));", 2, NotConstant),
    ("x : matrix[2,2](int(1.0));", 2, NotConstant),
    // scales over 18
    ("x : int(19);", 2, Scale),
    ("x : int(36);", 2, Scale),
    ("x : int(99999999999999999999);", 2, Scale),
    ("x : int(18446744073709551616);", 2, Scale),
    ("x : int(4294967296);", 2, Scale),
    ("x : vector[2](int(19));", 2, Scale),
    ("x : matrix[2,2](int(19));", 2, Scale),
    // sides of 0 or over 6
    ("x : vector[0](int(0));", 2, TooLarge),
    ("x : vector[7](int(0));", 2, TooLarge),
    ("x : vector[18446744073709551617](int(0));", 2, TooLarge),
    ("x : vector[4294967297](int(0));", 2, TooLarge),
    ("x : matrix[0,1](int(0));", 2, TooLarge),
    ("x : matrix[1,0](int(0));", 2, TooLarge),
    ("x : matrix[7,1](int(0));", 2, TooLarge),
    ("x : matrix[1,7](int(0));", 2, TooLarge),
    // two kinds at one field
    ("key : int(0.0);", 2, Twice),
    ("p1 : vector[7](int(0));", 2, Twice),
    ("p2 : int(19);", 2, Twice),
    ("x : vector[0.0](int(19));", 2, NotConstant),
    ("x : vector[7](int(0.0));", 2, NotConstant),
    ("x : matrix[2.0,7](int(0));", 2, NotConstant),
    ("x : vector[7](int(19));", 2, Scale),
    ("x : matrix[0,2](int(19));", 2, Scale),
    // two fields
    ("x : vector[7](int(0));\nx : int(0);", 2, TooLarge),
    ("x : int(0);\nx : int(19);\nkey : int(0.0);", 3, Twice),
    ("x : int(0);\ny : int(19);\ny : int(0.0);", 3, Scale),
    // the line is that of the name
    ("x\n:\nint(19);", 2, Scale),
    ("\nx : matrix[1,\n7](int(0));", 3, TooLarge),
];

/// Declarations from line 1 on.
static ELEMENTS: [Row; 11] = [
    ("element P end\nelement P end", 2, Twice),
    ("element P end element Q end\nelement\nP end", 2, Twice),
    (
        "element P x : int(0); end\nextern ps : set{P};\nelement ps\nend",
        3,
        Twice,
    ),
    (
        "element P x : int(0); end\nextern ps : set{P};\nfunc f(e : P) -> (r : vector[ps](int(0))) end\nelement f end",
        4,
        Twice,
    ),
    // the fields of an element come before it
    (
        "element P end\nelement P\nx : int(0.0);\nend",
        3,
        NotConstant,
    ),
    (
        "element P end\nelement P\nx : int(0);\nx : int(19);\nend",
        4,
        Twice,
    ),
    // a set of what is declared after it
    ("extern ps : set{P};\nelement P x : int(0); end", 1, Unknown),
    (
        "element P x : int(0); end\nextern es : set{P}(ps);\nextern ps : set{P};",
        2,
        Unknown,
    ),
    // faults of two declarations
    (
        "element P x : vector[9](int(0)); end\nextern ps : set{Q};",
        1,
        TooLarge,
    ),
    (
        "extern ps : set{Q};\nelement P x : vector[9](int(0)); end",
        1,
        Unknown,
    ),
    (
        "element P end\nextern ps : set{P};\nelement P end",
        2,
        Shape,
    ),
];

/// Element types, sets and a function, in lines 1 to 9.
const DECLARED: &str = "element P
  x : int(0);
end
element S
end
extern ps : set{P};
extern es : set{S}(ps, ps);
extern qs : set{P};
func f(e : P) -> (r : vector[ps](int(0))) end
";

/// Sets from line 10 on.
static SETS: [Row; 37] = [
    // no element type, or no set
    ("extern a : set{Q};", 10, Unknown),
    ("extern a : set{ps};", 10, Unknown),
    ("extern a : set{f};", 10, Unknown),
    ("extern a : set{a};", 10, Unknown),
    ("extern a : set{x};", 10, Unknown),
    ("extern a : set{S}(ts);", 10, Unknown),
    ("extern a : set{S}(ps, ts);", 10, Unknown),
    ("extern a : set{S}(P, P);", 10, Unknown),
    ("extern a : set{S}(ps, P);", 10, Unknown),
    ("extern a : set{S}(f);", 10, Unknown),
    ("extern a : set{S}(a, a);", 10, Unknown),
    ("extern a : set{Q}(ps);", 10, Unknown),
    // names
    ("extern ps : set{P};", 10, Twice),
    ("extern P : set{P};", 10, Twice),
    ("extern f : set{P};", 10, Twice),
    ("extern es : set{S}(ps);", 10, Twice),
    ("extern a : set{P};\nextern a : set{P};", 11, Twice),
    // no column
    ("extern a : set{S};", 10, Shape),
    // endpoints in two sets, or in an edge set
    ("extern a : set{S}(ps, qs);", 10, Set),
    ("extern a : set{S}(ps, ps, qs);", 10, Set),
    ("extern a : set{S}(ps, qs, ps);", 10, Set),
    ("extern a : set{S}(ps, ps, qs, qs);", 10, Set),
    ("extern a : set{S}(es);", 10, Set),
    ("extern a : set{S}(es, es);", 10, Set),
    ("extern a : set{S}(ps, es);", 10, Set),
    // endpoints
    (
        "extern a : set{S}(ps,ps,ps,ps,ps,ps,ps,ps,ps);",
        10,
        TooLarge,
    ),
    // two kinds at one set
    ("extern ps : set{Q};", 10, Unknown),
    ("extern a : set{Q}(ps, qs);", 10, Unknown),
    ("extern P : set{S}(es, ts);", 10, Unknown),
    ("extern a : set{S}(ps,ps,ps,ps,ps,ps,ps,ps,z);", 10, Unknown),
    ("extern P : set{S};", 10, Twice),
    ("extern ps : set{S}(ps, qs);", 10, Twice),
    ("extern f : set{S}(ps,ps,ps,ps,ps,ps,ps,ps,ps);", 10, Twice),
    ("extern a : set{S}(ps,ps,ps,ps,ps,ps,ps,ps,qs);", 10, Set),
    // two sets
    ("extern a : set{Q};\nextern ps : set{P};", 10, Unknown),
    ("extern a : set{S}(es);\nextern b : set{Q};", 10, Set),
    ("\nextern\na : set{Q};", 11, Unknown),
];

#[test]
fn refused_elements_and_sets(rt: HostRuntime) -> Result<(), Fail> {
    let after = "\nend\nextern ps : set{P};\nproc main end";
    assert_refused(&rt, ["element P\n", ""], &FIELDS, after)?;
    assert_refused(&rt, ["", ""], &ELEMENTS, MAIN)?;
    assert_refused(&rt, [DECLARED, ""], &SETS, MAIN)
}

/// Parameters of a function whose line is 10.
static PARAMETERS: [Row; 43] = [
    // no element type
    ("\ne : Q", 11, Unknown),
    ("\ne : ps", 11, Unknown),
    ("\ne : f", 11, Unknown),
    ("\ne : g", 11, Unknown),
    ("\ne : e", 11, Unknown),
    ("e : P,\np : (Q*2)", 11, Unknown),
    ("e : P,\np : (ps*2)", 11, Unknown),
    ("e : P,\np : (e*2)", 11, Unknown),
    // names
    ("\nP : P", 11, Twice),
    ("\nps : P", 11, Twice),
    ("\nf : P", 11, Twice),
    ("\nps : int(0), e : P", 11, Twice),
    ("a : int(0),\na : P", 11, Twice),
    ("a : int(0),\na : int(0), e : P", 11, Twice),
    ("e : P,\ne : (P*2)", 11, Twice),
    // scales and counts with a point
    ("\na : int(0.0), e : P", 11, NotConstant),
    ("e : P,\np : (P*2.0)", 11, NotConstant),
    // scales over 36
    ("\na : int(37), e : P", 11, Scale),
    ("\na : int(40000000000000000000), e : P", 11, Scale),
    // counts of 0 or over 8
    ("e : P,\np : (P*0)", 11, TooLarge),
    ("e : P,\np : (P*9)", 11, TooLarge),
    ("e : P,\np : (P*18446744073709551618)", 11, TooLarge),
    ("e : P,\np : (P*4294967298)", 11, TooLarge),
    // two kinds at one parameter
    ("\nP : Q", 11, Unknown),
    ("e : P,\ne : (Q*2.0)", 11, Unknown),
    ("e : P,\np : (Q*9)", 11, Unknown),
    ("\nps : int(0.5), e : P", 11, Twice),
    ("\nps : int(37), e : P", 11, Twice),
    ("e : P,\ne : (P*9)", 11, Twice),
    // two parameters
    ("\na : int(0.5),\nb : int(37), e : P", 11, NotConstant),
    ("\na : int(37),\nb : int(0.5), e : P", 11, Scale),
    ("\np : (P*9),\ne : Q", 11, TooLarge),
    // neither scalars, then one element, then at most one tuple of endpoints: a fault of the function
    ("\na : int(0)", 10, Shape),
    ("\np : (P*2)", 10, Shape),
    ("\np : (P*2),\ne : P", 10, Shape),
    ("\ne : P,\na : int(0)", 10, Shape),
    ("\ne : P,\nd : P", 10, Shape),
    ("\ne : P,\np : (P*2),\nq : (P*2)", 10, Shape),
    ("\ne : P,\np : (P*2),\na : int(0)", 10, Shape),
    ("\na : int(0),\np : (P*1)", 10, Shape),
    ("\na : int(0),\ne : P,\nb : int(0),\np : (P*1)", 10, Shape),
    // its parameters come before it
    ("\na : int(0),\nb : int(37)", 12, Scale),
    // and before its results
    (
        "\ne : P,\np : (P*9)) -> (\nt : vector[Q](int(0))) end func h(e : P",
        12,
        TooLarge,
    ),
];

/// Results of a function whose line is 10.
static RESULTS: [Row; 38] = [
    // no set
    ("\nr : vector[Q](int(0))", 11, Unknown),
    ("\nr : vector[P](int(0))", 11, Unknown),
    ("\nr : vector[f](int(0))", 11, Unknown),
    ("\nr : vector[g](int(0))", 11, Unknown),
    ("\nr : vector[e](int(0))", 11, Unknown),
    ("\nr : vector[r](int(0))", 11, Unknown),
    ("\nr : matrix[ps,Q](int(0))", 11, Unknown),
    ("\nr : matrix[Q,ps](int(0))", 11, Unknown),
    ("\nr : matrix[ps,P](int(0))", 11, Unknown),
    // names
    ("\ne : vector[ps](int(0))", 11, Twice),
    ("\np : vector[ps](int(0))", 11, Twice),
    ("\nps : vector[ps](int(0))", 11, Twice),
    ("\nP : vector[ps](int(0))", 11, Twice),
    ("\nf : matrix[ps,ps](int(0))", 11, Twice),
    ("r : vector[ps](int(0)),\nr : vector[ps](int(0))", 11, Twice),
    // scales and sides with a point
    ("\nr : vector[ps](int(0.0))", 11, NotConstant),
    ("\nr : vector[ps](vector[2.0](int(0)))", 11, NotConstant),
    (
        "\nr : matrix[ps,ps](matrix[2,2.0](int(0)))",
        11,
        NotConstant,
    ),
    (
        "\nr : matrix[ps,ps](matrix[2.0,2](int(0)))",
        11,
        NotConstant,
    ),
    // blocks of the other form
    ("\nr : vector[ps](matrix[2,2](int(0)))", 11, Shape),
    ("\nr : matrix[ps,ps](vector[2](int(0)))", 11, Shape),
    // scales over 36
    ("\nr : vector[ps](int(37))", 11, Scale),
    ("\nr : matrix[ps,qs](int(37))", 11, Scale),
    ("\nr : vector[ps](vector[2](int(37)))", 11, Scale),
    // sides of 0 or over 6
    ("\nr : vector[ps](vector[0](int(0)))", 11, TooLarge),
    ("\nr : vector[ps](vector[7](int(0)))", 11, TooLarge),
    ("\nr : matrix[ps,ps](matrix[7,1](int(0)))", 11, TooLarge),
    ("\nr : matrix[ps,ps](matrix[1,0](int(0)))", 11, TooLarge),
    // two kinds at one result
    ("\ne : vector[Q](int(0))", 11, Unknown),
    ("\nr : matrix[ps,Q](vector[2](int(0)))", 11, Unknown),
    ("\ne : vector[ps](int(0.5))", 11, Twice),
    ("\ne : vector[ps](matrix[2,2](int(0)))", 11, Twice),
    ("\nr : vector[ps](matrix[2,2.0](int(0)))", 11, NotConstant),
    ("\nr : vector[ps](matrix[2,2](int(37)))", 11, Shape),
    ("\nr : matrix[ps,ps](vector[7](int(0)))", 11, Shape),
    ("\nr : vector[ps](vector[7](int(37)))", 11, Scale),
    // two results
    (
        "\nr : vector[ps](int(37)),\nt : vector[Q](int(0))",
        11,
        Scale,
    ),
    (
        "r : vector[ps](int(0)),\nt : vector[t](int(0)),\nr : vector[ps](int(0))",
        11,
        Unknown,
    ),
];

/// Functions from line 10 on.
static FUNCTIONS: [Row; 14] = [
    ("func f(e : P) -> (r : vector[ps](int(0)))\nend", 10, Twice),
    ("func ps(e : P) -> (r : vector[ps](int(0)))\nend", 10, Twice),
    ("func P(e : P) -> (r : vector[ps](int(0)))\nend", 10, Twice),
    (
        "\nfunc\nf(e : P) -> (r : vector[ps](int(0)))\nend",
        11,
        Twice,
    ),
    // two kinds at one function
    (
        "func f(a : int(0)) -> (r : vector[ps](int(0)))\nend",
        10,
        Twice,
    ),
    // parameters, then results, then the body, then the function
    (
        "func g(ps : P) -> (r : vector[ps](int(0)))\nvar d = z;\nend",
        10,
        Twice,
    ),
    (
        "func g(e : P) -> (r : vector[ps](int(37)))\nvar d = z;\nend",
        10,
        Scale,
    ),
    (
        "func f(e : P) -> (r : vector[ps](int(0)))\nvar d = z;\nend",
        11,
        Unknown,
    ),
    (
        "func g(a : int(0)) -> (r : vector[ps](int(0)))\nvar d = z;\nend",
        11,
        Unknown,
    ),
    (
        "func g(p : (P*2)) -> (r : vector[ps](int(0)))\nr(p(2)) = 1;\nend",
        11,
        TooLarge,
    ),
    (
        "func g(\ne : P) -> (\nr : vector[Q](int(0)),\ne : vector[ps](int(0)))\nend",
        12,
        Unknown,
    ),
    // two functions
    (
        "func g(e : P) -> (r : vector[ps](int(0))) end\nfunc g(e : P) -> (r : vector[ps](int(0))) end",
        11,
        Twice,
    ),
    (
        "func g(e : P) -> (r : vector[ps](int(0)))\nr(e) = i; end\nfunc f(e : Q) -> (r : vector[ps](int(0))) end",
        11,
        Unknown,
    ),
    // a set that is declared after the function
    (
        "func g(e : P) -> (r : vector[ts](int(0))) end\nextern ts : set{P};",
        10,
        Unknown,
    ),
];

#[test]
fn refused_functions(rt: HostRuntime) -> Result<(), Fail> {
    let after = ") -> (r : vector[ps](int(0)))\nend\nproc main\nend";
    assert_refused(&rt, [DECLARED, "func g("], &PARAMETERS, after)?;
    let before = [DECLARED, "func g(e : P, p : (P*2)) -> ("];
    assert_refused(&rt, before, &RESULTS, ")\nend\nproc main\nend")?;
    assert_refused(&rt, [DECLARED, ""], &FUNCTIONS, MAIN)
}
