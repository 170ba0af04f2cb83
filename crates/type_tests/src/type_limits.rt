//! The limits of programs: the last value that is accepted, and the next.
use crate::checked_texts::{Row, assert_accepted, assert_refused, fault_of};
use TypeKind::{Scale, Set, Shape, TooLarge, Twice, Unknown};
use std::alloc::{AllocError, Global};
use std::process::Abort;
use std::test::Fail;
use type_rules::TypeKind;

/// So many times what stands before and after a number, which counts from 0 on, and what stands between them.
fn numbered(
    alloc: Global,
    count: u32,
    before: &str,
    after: &str,
    between: &str,
) -> Result<String, AllocError> {
    let mut text = String::new(alloc);
    for number in 0..count {
        let comma = if number == 0 { "" } else { between };
        let part = format!(in alloc; "{comma}{before}{number}{after}")?;
        text.push_str(part.as_str())?;
    }
    Ok(text)
}

/// Asserts that a text of so many parts, of those between two texts, is accepted, and with one more is too large at a
/// line.
fn assert_most(
    rt: &(impl Abort + AllocGlobal),
    most: u32,
    line: u32,
    before: &str,
    part: [&str; 3],
    after: &str,
) -> Result<(), Fail> {
    let alloc = rt.alloc();
    let [front, back, between] = part;
    for (count, want) in [
        (most, None),
        (most.saturating_add(1), Some((line, TooLarge))),
    ] {
        let parts = numbered(alloc, count, front, back, between)?;
        let text = format!(in alloc; "{before}{parts}{after}")?;
        let fault = fault_of(rt, text.as_bytes())?;
        assert!(rt; fault == want, "{fault:?} of {count} times {front}");
    }
    Ok(())
}

const ONE_SET: &str = "element P x : int(0); end\nextern ps : set{P};\n";

#[test]
fn limits_of_lists(rt: HostRuntime) -> Result<(), Fail> {
    // fields of an element type
    let after = "end\nextern ps : set{P};\nproc main end";
    assert_most(
        &rt,
        32,
        2,
        "\nelement P\n",
        ["f", " : int(0);\n", ""],
        after,
    )?;
    // sets
    let before = "element P x : int(0); end\n\n";
    assert_most(
        &rt,
        8,
        11,
        before,
        ["extern s", " : set{P};\n", ""],
        "proc main end",
    )?;
    // scalar arguments of a function
    let before = "element P x : int(0); end\nextern ps : set{P};\nfunc f(\n";
    let after = ",\ne : P) -> (r : vector[ps](int(0)))\nend proc main end";
    assert_most(&rt, 8, 3, before, ["a", " : int(0)", ",\n"], after)?;
    // results of a function
    let before = "element P x : int(0); end\nextern ps : set{P};\nfunc f(e : P) -> (\n";
    assert_most(
        &rt,
        4,
        3,
        before,
        ["r", " : vector[ps](int(0))", ",\n"],
        ")\nend proc main end",
    )
}

/// What is both past a limit and of an earlier kind: an element type, a ninth set, and functions with nine scalars, five
/// results or a cost that is too large, in line 3.
static EARLIER: [Row; 10] = [
    (
        "extern a : set{P}; extern b : set{P}; extern c : set{P}; extern d : set{P}; extern e : set{P}; extern f : set{P}; extern g : set{P}; extern\nh : set{Q};",
        3,
        Unknown,
    ),
    (
        "extern a : set{P}; extern b : set{P}; extern c : set{P}; extern d : set{P}; extern e : set{P}; extern f : set{P}; extern g : set{P}; extern\na : set{P};",
        3,
        Twice,
    ),
    (
        "extern a : set{P}; extern b : set{P}; extern c : set{P}; extern d : set{P}; extern e : set{P}; extern f : set{P}; extern g : set{P}; extern\nh : set{P}(ps, a);",
        3,
        Set,
    ),
    (
        "extern a : set{P}; extern b : set{P}; extern c : set{P}; extern d : set{P}; extern e : set{P}; extern f : set{P}; extern g : set{P}; extern\nh : set{P};",
        3,
        TooLarge,
    ),
    (
        "func P(e : P) -> (a : vector[ps](int(0)), b : vector[ps](int(0)), c : vector[ps](int(0)), d : vector[ps](int(0)), r : vector[ps](int(0))) end",
        3,
        Twice,
    ),
    (
        "func f(a : int(0), b : int(0), c : int(0), d : int(0), e : int(0), f : int(0), g : int(0), h : int(0), i : int(0)) -> (r : vector[ps](int(0))) end",
        3,
        Shape,
    ),
    (
        "func f(a : int(0), b : int(0), c : int(0), d : int(0), e : int(0), f : int(0), g : int(0), h : int(0), i : int(0), p : P) -> (r : vector[ps](int(0))) end",
        3,
        TooLarge,
    ),
    (
        "func ps(e : P) -> (r : vector[ps](int(0))) for i in 0:4096 for j in 0:4096 r(e) = 1; end end end",
        3,
        Twice,
    ),
    (
        "func f(e : P, d : P) -> (r : vector[ps](int(0))) for i in 0:4096 for j in 0:4096 r(e) = 1; end end end",
        3,
        Shape,
    ),
    (
        "func f(e : P) -> (r : vector[ps](int(0))) for i in 0:4096 for j in 0:4096 r(e) = 1; end end end",
        3,
        TooLarge,
    ),
];

/// Fields of an element type and a set of it in line 2, or an edge set in line 3.
static COLUMNS: [&str; 4] = [
    "element P a : matrix[6,6](int(0)); b : matrix[4,6](int(0)); c : vector[4](int(0)); end\nextern ps : set{P};\n",
    "element P a : matrix[6,6](int(0)); b : matrix[4,5](int(0)); end element Q x : int(0); end\nextern ps : set{Q};\nextern es : set{P}(ps,ps,ps,ps,ps,ps,ps,ps);",
    "element P a : matrix[6,6](int(0)); b : matrix[4,6](int(0)); c : int(0); d : vector[2](int(0)); end\nextern ps : set{P};\nextern es : set{P}(ps);",
    // more columns where no set has them
    "element P a : matrix[6,6](int(0)); b : matrix[6,6](int(0)); end",
];

static TOO_MANY_COLUMNS: [Row; 7] = [
    (
        "element P a : matrix[6,6](int(0)); b : matrix[4,6](int(0)); c : vector[5](int(0)); end\nextern ps : set{P};\n",
        2,
        TooLarge,
    ),
    (
        "element P a : matrix[6,6](int(0)); b : matrix[4,6](int(0)); c : vector[4](int(0)); d : int(0); end\nextern ps : set{P};\n",
        2,
        TooLarge,
    ),
    (
        "element P a : matrix[6,6](int(0)); b : matrix[4,5](int(0)); c : int(0); end element Q x : int(0); end\nextern ps : set{Q};\nextern es : set{P}(ps,ps,ps,ps,ps,ps,ps,ps);",
        3,
        TooLarge,
    ),
    (
        "element P a : matrix[6,6](int(0)); b : matrix[4,6](int(0)); c : vector[4](int(0)); end\nextern ps : set{P};\nextern es : set{P}(ps);",
        3,
        TooLarge,
    ),
    (
        "element P a : matrix[6,6](int(0)); b : matrix[6,6](int(0)); end\nextern ps : set{P};",
        2,
        TooLarge,
    ),
    // earlier kinds
    (
        "element P a : matrix[6,6](int(0)); b : matrix[6,6](int(0)); end\nextern P : set{P};",
        2,
        Twice,
    ),
    (
        "element P a : matrix[6,6](int(0)); b : matrix[6,6](int(0)); end element Q x : int(0); end extern ps : set{Q}; extern qs : set{Q};\nextern es : set{P}(ps,qs);",
        2,
        Set,
    ),
];

/// Endpoints of a set and of a function, sides of a block, and scales.
static LAST: [&str; 5] = [
    "extern es : set{P}(ps,ps,ps,ps,ps,ps,ps,ps);",
    "func f(e : P, p : (P*8)) -> (r : vector[ps](int(0))) r(p(7)) = p(7).x; end",
    "element Q a : vector[6](int(0)); b : matrix[6,6](int(0)); end",
    "element Q a : int(18); b : vector[2](int(18)); c : matrix[2,2](int(18)); end",
    "func f(a : int(36), e : P) -> (r : vector[ps](int(36)), t : matrix[ps,ps](matrix[6,6](int(36)))) end",
];

static NEXT: [Row; 12] = [
    (
        "extern es : set{P}(ps,ps,ps,ps,ps,ps,ps,ps,ps);",
        3,
        TooLarge,
    ),
    (
        "func f(e : P, p : (P*9)) -> (r : vector[ps](int(0))) end",
        3,
        TooLarge,
    ),
    (
        "func f(e : P, p : (P*8)) -> (r : vector[ps](int(0)))\nr(p(8)) = 1; end",
        4,
        TooLarge,
    ),
    (
        "func f(e : P, p : (P*8)) -> (r : vector[ps](int(0)))\nr(p(0)) = p(8).x; end",
        4,
        TooLarge,
    ),
    ("element Q\na : vector[7](int(0)); end", 4, TooLarge),
    ("element Q\na : matrix[6,7](int(0)); end", 4, TooLarge),
    ("element Q\na : matrix[7,6](int(0)); end", 4, TooLarge),
    ("element Q\na : int(19); end", 4, Scale),
    (
        "func f(\na : int(37), e : P) -> (r : vector[ps](int(0))) end",
        4,
        Scale,
    ),
    ("func f(e : P) -> (\nr : vector[ps](int(37))) end", 4, Scale),
    (
        "func f(e : P) -> (\nr : matrix[ps,ps](int(37))) end",
        4,
        Scale,
    ),
    (
        "func f(e : P) -> (\nr : vector[ps](vector[7](int(0)))) end",
        4,
        TooLarge,
    ),
];

/// Statements of a function after a variable of scale 18, one of 36 and one of 1.
static LAST_STEPS: [&str; 22] = [
    "for i in 0:4096 end",
    "for i in 4095:4096 end",
    "var q = 9223372036854775807;",
    "var q = 9.223372036854775807;",
    "var q = 0.000000000000000001;",
    "var q = a*a;",
    "var q = b*1;",
    "var q = [1,2,3,4,5,6];",
    "var q = [1,1,1,1,1,1;2,2,2,2,2,2;3,3,3,3,3,3;4,4,4,4,4,4;5,5,5,5,5,5;6,6,6,6,6,6];",
    "var q = rescale(a, 0);",
    "var q = rescale(a, 36);",
    "var q = rescale(b, 18);",
    "var q = rescale(c, 19);",
    "var q = quot(1, 1, 18);",
    "var q = quot(c, 1, 19);",
    "var q = quot(a, 1, 36);",
    "var q = quot(b, a, 36);",
    "var q = quot(b, a, 18);",
    "var q = isqrt(1, 9);",
    "var q = isqrt(b, 18);",
    "var q = isqrt(b, 27);",
    "var q = isqrt(a, 9);",
];

static NEXT_STEPS: [Row; 29] = [
    ("for i in 0:4097 end", 4, TooLarge),
    ("for i in 4096:4097 end", 4, TooLarge),
    ("for i in 4096:4096 end", 4, TooLarge),
    ("var q = 9223372036854775808;", 4, TooLarge),
    ("var q = 9.223372036854775808;", 4, TooLarge),
    ("var q = 0.0000000000000000001;", 4, Scale),
    ("var q = a*a*c;", 4, Scale),
    ("var q = b*1.0;", 4, Scale),
    ("var q = [1,2,3,4,5,6,7];", 4, TooLarge),
    ("var q = [1;2;3;4;5;6;7];", 4, TooLarge),
    ("var q = rescale(a, 37);", 4, Scale),
    ("var q = rescale(b, 17);", 4, Scale),
    ("var q = rescale(b, 37);", 4, Scale),
    ("var q = rescale(c, 20);", 4, Scale),
    ("var q = rescale(rescale(a, 19), 0);", 4, Scale),
    ("var q = quot(1, 1, 19);", 4, Scale),
    ("var q = quot(c, 1, 20);", 4, Scale),
    ("var q = quot(c, 1, 0);", 4, Scale),
    ("var q = quot(a, 1, 37);", 4, Scale),
    ("var q = quot(b, a, 37);", 4, Scale),
    ("var q = quot(b, a, 17);", 4, Scale),
    ("var q = quot(rescale(a, 19), 1, 37);", 4, Scale),
    ("var q = isqrt(1, 10);", 4, Scale),
    ("var q = isqrt(c, 10);", 4, Scale),
    ("var q = isqrt(c, 0);", 4, Scale),
    ("var q = isqrt(b, 17);", 4, Scale),
    ("var q = isqrt(b, 28);", 4, Scale),
    ("var q = isqrt(b, 37);", 4, Scale),
    ("var q = isqrt(a, 8);", 4, Scale),
];

#[test]
fn limits_of_values(rt: HostRuntime) -> Result<(), Fail> {
    assert_accepted(&rt, ["", ""], &COLUMNS, "\nproc main end")?;
    assert_refused(&rt, ["", ""], &TOO_MANY_COLUMNS, "\nproc main end")?;
    assert_accepted(&rt, [ONE_SET, ""], &LAST, "\nproc main end")?;
    assert_refused(&rt, [ONE_SET, ""], &NEXT, "\nproc main end")?;
    assert_refused(&rt, [ONE_SET, ""], &EARLIER, "\nproc main end")?;
    let function =
        "func g(a : int(18), b : int(36), c : int(1), e : P) -> (r : vector[ps](int(0)))\n";
    assert_accepted(&rt, [ONE_SET, function], &LAST_STEPS, " end proc main end")?;
    assert_refused(&rt, [ONE_SET, function], &NEXT_STEPS, " end proc main end")
}

/// 1,000 statements in each of two functions, in loops and branches, and 2,096 or 2,097 in the main procedure.
#[test]
fn limit_of_statements(rt: HostRuntime) -> Result<(), Fail> {
    let alloc = rt.alloc();
    let body = "for i in 0:1 if 1 == 1 assert 1 == 1; else assert 1 == 1; end end ".repeat(
        alloc, 250,
    )?;
    let head = "element P x : int(0); end extern ps : set{P};";
    let result = "(e : P) -> (r : vector[ps](int(0)))";
    let functions = format!(in alloc;
        "{head}func f{result} {body} end func g{result} {body} end proc main\n"
    )?;
    let before = format!(in alloc; "{functions}var n = 1;\n")?;
    assert_most(&rt, 2095, 2098, before.as_str(), ["n = ", ";\n", ""], "end")?;
    // a statement stands after those inside it
    let inside = format!(in alloc; "{before}while 1 == 1\nif 1 == 1\n")?;
    assert_most(
        &rt,
        2093,
        3,
        inside.as_str(),
        ["n = ", ";\n", ""],
        "end end end",
    )?;
    let inside = format!(in alloc; "{before}if 1 == 1\n")?;
    assert_most(
        &rt,
        2094,
        3,
        inside.as_str(),
        ["n = ", ";\n", ""],
        "end end",
    )?;
    // a statement past the limit with a fault of an earlier kind
    let others = "n = 2;".repeat(alloc, 2095)?;
    for (last, kind) in [
        ("var n = 1;", Twice),
        ("z = 1;", Unknown),
        ("assert 1 == 1;", TooLarge),
    ] {
        let text = format!(in alloc; "{before}{others}\n{last} end")?;
        assert_eq!(rt; fault_of(&rt, text.as_bytes())?, Some((4, kind)));
    }
    // in a function, too
    let before = format!(in alloc; "{head}\nfunc f{result}\n")?;
    let part = ["for i", " in 0:1 end\n", ""];
    assert_most(&rt, 4096, 4099, before.as_str(), part, "end proc main end")
}

/// Statements of a function, and what they cost.
static COSTS: [(&str, u32); 50] = [
    ("for i in 0:1 end", 1),
    ("var q = 1;", 2),
    ("var q = n;", 2),
    ("n = 1;", 2),
    ("r(s) = 1;", 2),
    ("r(p(1)) = 1;", 2),
    ("u(p(0),p(1)) = 1;", 2),
    ("var q = s.v;", 7),
    ("var q = s.m;", 37),
    ("var q = s.v(0);", 3),
    ("var q = s.m(0,1);", 4),
    ("var q = p(1).x;", 3),
    ("var q = p(1).v(5);", 4),
    ("var q = p(1).v;", 8),
    ("var q = -1;", 3),
    ("var q = 1 + 2;", 4),
    ("var q = -1 + 2;", 5),
    ("var q = 1 - 2 + 3;", 6),
    ("var q = 2*3*4;", 6),
    ("var q = -s.m;", 73),
    ("var q = s.m + s.m - s.m;", 181),
    ("var q = s.m';", 73),
    ("var q = 2*s.m;", 74),
    ("var q = 2*s.v*3;", 21),
    ("var q = s.m*s.m;", 289),
    ("var q = s.m*s.v;", 79),
    ("var q = s.m*s.m*s.v;", 331),
    ("var q = s.m*(s.m*s.v);", 151),
    ("var q = s.a*s.b;", 43),
    ("var q = s.b'*s.a';", 61),
    ("var q = s.a*[1,2,3];", 19),
    ("var q = s.v.*s.v;", 19),
    ("var q = dot(s.v, s.v);", 19),
    ("var q = [1,2,3];", 7),
    ("var q = [1,2;3,4];", 9),
    ("var q = [1+1];", 5),
    ("var q = rescale(s.v, 1);", 13),
    ("var q = quot(1, 2, 3);", 4),
    ("var q = isqrt(4, 0);", 3),
    ("assert 1 < 2;", 3),
    ("assert 1 < 2 and 3 < 4 or not 5 == 6;", 7),
    ("if 1 < 2 end", 3),
    ("if 1 < 2 var q = 1; end", 5),
    ("if 1 < 2 var q = 1; else var q = 1 + 2; end", 9),
    ("for i in 2:5 var q = i; end", 7),
    ("for i in 0:4096 end", 1),
    ("for i in 0:10 for j in 3:10 var q = j; end end", 151),
    (
        "for i in 0:4 if i == 2 n = i; else n = 1; n = 2; end end",
        37,
    ),
    ("for i in 0:4096 for j in 0:7 n = j; end end", 61441),
    (
        "for i in 0:4096 for j in 0:14 for k in 0:1 end end end",
        61441,
    ),
];

/// A function with blocks of sides 6, of 2 and 3, and of 3 and 4, in line 4, and its first statement, which costs 2.
const COSTLY: &str =
    "element S v : vector[6](int(0)); m : matrix[6,6](int(0)); a : matrix[2,3](int(0)); b : matrix[3,4](int(0)); end
element P x : int(0); v : vector[6](int(0)); end
extern ps : set{P};
func g(s : S, p : (P*2)) -> (r : vector[ps](int(0)), u : matrix[ps,ps](int(0)))
var n = 0;
";

/// Statements that cost so much: loops in a loop, each of which costs 1.
fn costing(alloc: Global, cost: u32) -> Result<String, AllocError> {
    let mut text = String::new(alloc);
    for _ in 0..cost / 4097 {
        text.push_str("for i in 0:4096 for j in 0:1 end end\n")?;
    }
    let rest = cost % 4097;
    if rest == 1 {
        text.push_str("for i in 0:1 end\n")?;
    } else if rest > 1 {
        let turns = rest - 1;
        let part = format!(in alloc; "for i in 0:{turns} for j in 0:1 end end\n")?;
        text.push_str(part.as_str())?;
    }
    Ok(text)
}

/// What a function may cost beside its first statement.
const MOST: u32 = 65_534;

#[test]
fn limit_of_cost(rt: HostRuntime) -> Result<(), Fail> {
    let alloc = rt.alloc();
    for (statement, cost) in &COSTS {
        let rest = MOST.saturating_sub(*cost);
        for (more, want) in [(rest, None), (rest.saturating_add(1), Some((4, TooLarge)))] {
            let others = costing(alloc, more)?;
            let text = format!(in alloc; "{COSTLY}{statement}\n{others}end\nproc main end")?;
            let fault = fault_of(&rt, text.as_bytes())?;
            assert!(rt; fault == want, "{fault:?} of {statement} and {more}");
        }
    }
    Ok(())
}

/// Loops in loops, each with the most turns: the cost has more than 700 binary digits.
#[test]
fn cost_of_60_nested_loops(rt: HostRuntime) -> Result<(), Fail> {
    let alloc = rt.alloc();
    let loops = numbered(alloc, 60, "for i", " in 0:4096 ", "")?;
    let ends = "end ".repeat(alloc, 60)?;
    let text = format!(in alloc; "{COSTLY}{loops}n = 1; {ends}end\nproc main end")?;
    assert_eq!(rt; fault_of(&rt, text.as_bytes())?, Some((4, TooLarge)));
    // of nothing at all, and one with no turn inside it
    let text = format!(in alloc; "{COSTLY}{loops}{ends}end\nproc main end")?;
    assert_eq!(rt; fault_of(&rt, text.as_bytes())?, Some((4, TooLarge)));
    let text = format!(in alloc; "{COSTLY}{loops}\nfor i in 3:3 end {ends}end\nproc main end")?;
    assert_eq!(rt; fault_of(&rt, text.as_bytes())?, Some((7, TooLarge)));
    Ok(())
}
