//! Expressions and statements of the main procedure that have no types, with the line and the kind of the fault that is
//! named.
use crate::checked_texts::{Row, assert_refused, fault_of};
use crate::heads::{SETS, STATE};
use TypeKind::{NotAPlace, NotConstant, Scale, Set, Shape, TooLarge, Twice, Unknown};
use std::test::Fail;
use type_rules::TypeKind;
use worked_texts::PULLING;

/// Names and entries on the right side of a variable q, in line 10.
static NAMES: [Row; 50] = [
    // not known, or of another sort
    ("i", 10, Unknown),
    ("q", 10, Unknown),
    ("s", 10, Unknown),
    ("e", 10, Unknown),
    ("r", 10, Unknown),
    ("a", 10, Unknown),
    ("ps", 10, Unknown),
    ("P", 10, Unknown),
    ("f", 10, Unknown),
    ("main1", 10, Unknown),
    ("f(n)", 10, Unknown),
    ("g(d)", 10, Unknown),
    ("i(0)", 10, Unknown),
    // no set before a field
    ("n.x", 10, Unknown),
    ("B.x", 10, Unknown),
    ("P.x", 10, Unknown),
    ("f.x", 10, Unknown),
    ("i.x", 10, Unknown),
    ("p(0).x", 10, Unknown),
    // no field of its elements
    ("ps.z", 10, Unknown),
    ("ps.k", 10, Unknown),
    ("es.x", 10, Unknown),
    ("ps.key", 10, Unknown),
    ("es.p0", 10, Unknown),
    // indices come first
    ("ps.x(\ni)", 11, Unknown),
    ("n(\ni)", 11, Unknown),
    ("i(\nn + d)", 11, Scale),
    // entries and blocks
    ("n(0)", 10, Shape),
    ("B(0)", 10, Shape),
    ("A(0,0)", 10, Shape),
    ("ps.x(0)", 10, Shape),
    ("ps.v(0)", 10, Shape),
    ("ps.m(0,0)", 10, Shape),
    ("ps(0).x", 10, Shape),
    ("ps(n).x", 10, Shape),
    ("B(1.5)", 10, Shape),
    ("ps.v(9)", 10, Shape),
    ("[1]", 10, Shape),
    ("[1,2]", 10, Shape),
    ("[1;2]", 10, Shape),
    ("[n, B]", 10, Shape),
    ("[1, 2.0]", 10, Shape),
    ("[1,2,3,4,5,6,7]", 10, Shape),
    ("n*\n[1,2]", 11, Shape),
    ("[1,\ni]", 11, Unknown),
    ("[1,\nn + d]", 11, Scale),
    // literals
    ("0.1234567890123456789", 10, Scale),
    ("9223372036854775808", 10, TooLarge),
    ("0.9223372036854775808", 10, Scale),
    ("n +\n922337203685.4775808", 11, TooLarge),
];

/// Sums and products on the right side of a variable q, in line 10.
static SUMS: [Row; 54] = [
    // sums of two forms or blocks
    ("n + B", 10, Shape),
    ("B + n", 10, Shape),
    ("B + A", 10, Shape),
    ("ps.x + ps.v", 10, Shape),
    ("ps.v - ps.m", 10, Shape),
    ("H + U", 10, Shape),
    ("H + H'", 10, Shape),
    // over two sets
    ("ps.x + qs.x", 10, Set),
    ("ps.v - es.v", 10, Set),
    ("A + U", 10, Set),
    ("U + U'", 10, Set),
    // of two scales
    ("n + d", 10, Scale),
    ("ps.x + ps.y", 10, Scale),
    ("A - rescale(A, 1)", 10, Scale),
    // two kinds at one sum
    ("n + ps.y", 10, Shape),
    ("ps.x + es.v", 10, Shape),
    ("A + H", 10, Shape),
    ("ps.x + qs.y", 10, Set),
    ("A + rescale(U, 1)", 10, Set),
    // one after another
    ("n + d + B", 10, Scale),
    ("ps.x + qs.x +\ni", 10, Set),
    ("n + n +\ni", 11, Unknown),
    ("n + (\nps.x + qs.y)", 11, Set),
    // products of forms or blocks that don't fit
    ("ps.x*ps.x", 10, Shape),
    ("ps.v*ps.v", 10, Shape),
    ("ps.x*A", 10, Shape),
    ("H*H", 10, Shape),
    ("A*H", 10, Shape),
    ("H*A", 10, Shape),
    ("U*qs.v", 10, Shape),
    ("H*qs.x", 10, Shape),
    ("H'*ps.v", 10, Shape),
    ("H'*ps.m", 10, Shape),
    ("H*qs.m", 10, Shape),
    ("n*A*H", 10, Shape),
    // inner sets that differ
    ("U*ps.x", 10, Set),
    ("U*A", 10, Set),
    ("U*U", 10, Set),
    ("U'*U'", 10, Set),
    ("A*U'", 10, Set),
    ("H*ps.v", 10, Set),
    ("A*qs.x", 10, Set),
    ("A*es.k", 10, Set),
    ("U*ps.x +\ni", 10, Set),
    // scales are added
    ("1.000000000000000000*1.000000000000000000*d", 10, Scale),
    ("rescale(rescale(U,18),36)*rescale(qs.x,1)", 10, Scale),
    ("d*rescale(rescale(ps.x,18),36)", 10, Scale),
    // two kinds at one product
    ("H*ps.x", 10, Shape),
    ("ps.x*qs.x", 10, Shape),
    ("rescale(rescale(U,18),36)*rescale(qs.v,1)", 10, Shape),
    ("rescale(rescale(H,18),36)*ps.v", 10, Set),
    // one after another
    ("A*B*\ni", 11, Unknown),
    ("U*B*\ni", 10, Set),
    ("B*A*\ni", 10, Shape),
];

/// Other expressions on the right side of a variable q, in line 10.
static OTHERS: [Row; 46] = [
    // products by entries, and scalar products
    ("n.*n", 10, Shape),
    ("A.*A", 10, Shape),
    ("B.*n", 10, Shape),
    ("B.*A", 10, Shape),
    ("ps.x.*ps.v", 10, Shape),
    ("ps.v.*ps.m", 10, Shape),
    ("ps.x.*qs.x", 10, Set),
    ("ps.v.*es.v", 10, Set),
    ("rescale(rescale(B,18),36).*ps.y", 10, Scale),
    ("ps.x.*es.v", 10, Shape),
    ("rescale(rescale(B,18),36).*qs.y", 10, Set),
    ("dot(n, n)", 10, Shape),
    ("dot(A, A)", 10, Shape),
    ("dot(A, B)", 10, Shape),
    ("dot(ps.x, ps.v)", 10, Shape),
    ("dot(ps.x, qs.x)", 10, Set),
    ("dot(rescale(rescale(B,18),36), ps.y)", 10, Scale),
    ("dot(ps.x, es.v)", 10, Shape),
    ("dot(ps.x, qs.y)", 10, Set),
    ("dot(\nn + d, i)", 11, Scale),
    // only a system matrix is transposed
    ("n'", 10, Shape),
    ("B'", 10, Shape),
    ("ps.m'", 10, Shape),
    ("ps.x'", 10, Shape),
    ("(\nA + U)'", 11, Set),
    ("(\nn + n)'", 10, Shape),
    // other scales
    ("rescale(A, 1.0)", 10, NotConstant),
    ("rescale(A, 19)", 10, Scale),
    ("rescale(ps.v, 20)", 10, Scale),
    ("rescale(n, 37)", 10, Scale),
    ("rescale(rescale(rescale(B,18),36),17)", 10, Scale),
    // quotients and roots
    ("quot(n, n, 0.0)", 10, NotConstant),
    ("quot(B, n, 0)", 10, Shape),
    ("quot(n, A, 0)", 10, Shape),
    ("quot(ps.x, ps.x, 0)", 10, Shape),
    ("quot(n, n, 19)", 10, Scale),
    ("quot(d, n, 0)", 10, Scale),
    ("quot(B, n, 0.5)", 10, NotConstant),
    ("quot(n, B, 19)", 10, Shape),
    ("isqrt(n, 0.0)", 10, NotConstant),
    ("isqrt(B, 0)", 10, Shape),
    ("isqrt(A, 0)", 10, Shape),
    ("isqrt(n, 10)", 10, Scale),
    ("isqrt(d, 0)", 10, Scale),
    ("isqrt(ps.v, 10)", 10, Shape),
    ("quot(n,\nn + B, 0)", 11, Shape),
];

#[test]
fn refused_expressions_of_main(rt: HostRuntime) -> Result<(), Fail> {
    assert_refused(&rt, [STATE, "var q = "], &NAMES, ";\nend")?;
    assert_refused(&rt, [STATE, "var q = "], &SUMS, ";\nend")?;
    assert_refused(&rt, [STATE, "var q = "], &OTHERS, ";\nend")
}

/// Variables and what is mapped, from line 10 on.
static VARIABLES: [Row; 50] = [
    ("var n = 1;", 10, Twice),
    ("var A = B;", 10, Twice),
    ("var ps = 1;", 10, Twice),
    ("var P = 1;", 10, Twice),
    ("var f = 1;", 10, Twice),
    ("var q = 1;\nvar q = 1;", 11, Twice),
    ("for i in 0:2\nvar i = 1;\nend", 11, Twice),
    ("var n =\ni;", 11, Unknown),
    ("var n =\nn + d;", 11, Scale),
    // no function, or no set
    ("var q = map z to es reduce +;", 10, Unknown),
    ("var q = map ps to es reduce +;", 10, Unknown),
    ("var q = map P to ps reduce +;", 10, Unknown),
    ("var q = map n to ps reduce +;", 10, Unknown),
    ("var q, w = map f to zs reduce +;", 10, Unknown),
    ("var q, w = map f to f reduce +;", 10, Unknown),
    ("var q, w = map f to S reduce +;", 10, Unknown),
    ("var q, w = map f to B reduce +;", 10, Unknown),
    // names of variables
    ("var q, q = map f to es reduce +;", 10, Twice),
    ("var q, n = map f to es reduce +;", 10, Twice),
    ("var n, q = map f to es reduce +;", 10, Twice),
    ("var q, ps = map f to es reduce +;", 10, Twice),
    // as many names as results
    ("var q = map f to es reduce +;", 10, Shape),
    ("var q, w, z = map f to es reduce +;", 10, Shape),
    ("var q, w = map g(d) to ps reduce +;", 10, Shape),
    // as many arguments as scalar parameters, and scalars
    ("var q = map g to ps reduce +;", 10, Shape),
    ("var q = map g(d, d) to ps reduce +;", 10, Shape),
    ("var q, w = map f(n) to es reduce +;", 10, Shape),
    ("var q = map g(B) to ps reduce +;", 10, Shape),
    ("var q = map g(A) to ps reduce +;", 10, Shape),
    // another element, other endpoints, another set that is written
    ("var q, w = map f to ps reduce +;", 10, Set),
    ("var q, w = map f to ts reduce +;", 10, Set),
    ("var q, w = map h to es reduce +;", 10, Set),
    ("var q = map g(d) to es reduce +;", 10, Set),
    ("var q = map g(d) to qs reduce +;", 10, Set),
    // scales of arguments
    ("var q = map g(n) to ps reduce +;", 10, Scale),
    ("var q = map g(1.50) to ps reduce +;", 10, Scale),
    // two kinds at one map
    ("var n = map z to es reduce +;", 10, Unknown),
    ("var q, q = map f to zs reduce +;", 10, Unknown),
    ("var q = map z(d) to zs reduce +;", 10, Unknown),
    ("var n = map f to es reduce +;", 10, Twice),
    ("var q, q = map f to ps reduce +;", 10, Twice),
    ("var q = map g to es reduce +;", 10, Shape),
    ("var q = map f to ps reduce +;", 10, Shape),
    ("var q = map g(B) to es reduce +;", 10, Shape),
    ("var q = map g(n) to es reduce +;", 10, Set),
    ("var q = map g(n) to qs reduce +;", 10, Set),
    // arguments come first
    ("var q = map z(\ni) to es reduce +;", 11, Unknown),
    ("var n = map z(\nn + d) to es reduce +;", 11, Scale),
    ("var q = map g(q) to ps reduce +;", 10, Unknown),
    ("var q = map g(d,\ni) to ps reduce +;", 11, Unknown),
];

/// Assignments from line 10 on.
static ASSIGNMENTS: [Row; 63] = [
    // not known, or of another sort
    ("i = 1;", 10, Unknown),
    ("ps = B;", 10, Unknown),
    ("P = 1;", 10, Unknown),
    ("f = 1;", 10, Unknown),
    ("ps.z = B;", 10, Unknown),
    ("es.x = B;", 10, Unknown),
    ("ps.p0 = B;", 10, Unknown),
    ("n.x = B;", 10, Unknown),
    ("B.x = B;", 10, Unknown),
    ("P.x = B;", 10, Unknown),
    ("f.x = B;", 10, Unknown),
    ("zs.x = B;", 10, Unknown),
    ("for i in 0:2\ni.x = 1;\nend", 11, Unknown),
    // matrix variables and loop variables
    ("A = A;", 10, NotAPlace),
    ("H = H;", 10, NotAPlace),
    ("for i in 0:2\ni = 1;\nend", 11, NotAPlace),
    // types
    ("n = B;", 10, Shape),
    ("B = n;", 10, Shape),
    ("B = A;", 10, Shape),
    ("ps.x = n;", 10, Shape),
    ("ps.x = ps.v;", 10, Shape),
    ("ps.v = ps.m;", 10, Shape),
    ("ps.x = A;", 10, Shape),
    ("B = qs.x;", 10, Set),
    ("B = es.k;", 10, Set),
    ("ps.x = qs.x;", 10, Set),
    ("ps.v = es.v;", 10, Set),
    ("n = d;", 10, Scale),
    ("B = ps.y;", 10, Scale),
    ("ps.x = ps.y;", 10, Scale),
    ("ps.x = B*1.0;", 10, Scale),
    // two kinds at one assignment
    ("ps.z = qs.y;", 10, Unknown),
    ("A = n;", 10, NotAPlace),
    ("ps.x = es.v;", 10, Shape),
    ("ps.y = qs.x;", 10, Set),
    // the right side comes first
    ("i =\nn + d;", 11, Scale),
    ("A =\ni;", 11, Unknown),
    // targets of a map
    ("i = map g(d) to ps reduce +;", 10, Unknown),
    ("n = map z to ps reduce +;", 10, Unknown),
    ("ps.y = map g(d) to zs reduce +;", 10, Unknown),
    ("ps.x, i = map f to es reduce +;", 10, Unknown),
    ("ps.z, A = map f to es reduce +;", 10, Unknown),
    ("ps.x, A = map f to es reduce +;", 10, NotAPlace),
    ("B, A = map f to es reduce +;", 10, NotAPlace),
    ("A, i = map f to es reduce +;", 10, Unknown),
    ("n, A = map f to es reduce +;", 10, NotAPlace),
    ("ps.y, B = map f to es reduce +;", 10, Shape),
    ("qs.x, B = map f to es reduce +;", 10, Shape),
    ("ps.x = map f to es reduce +;", 10, Shape),
    ("ps.x, B = map f to es reduce +;", 10, Shape),
    ("ps.x, ps.x = map f to es reduce +;", 10, Shape),
    ("ps.v = map g(d) to ps reduce +;", 10, Shape),
    ("n = map g(d) to ps reduce +;", 10, Shape),
    ("ps.y = map g to ps reduce +;", 10, Shape),
    ("qs.y = map g(d) to ps reduce +;", 10, Set),
    ("ps.y = map g(d) to qs reduce +;", 10, Set),
    ("ps.y = map g(d) to es reduce +;", 10, Set),
    ("ps.x = map g(d) to ps reduce +;", 10, Scale),
    ("ps.y = map g(n) to ps reduce +;", 10, Scale),
    ("A = map f to ps reduce +;", 10, NotAPlace),
    ("i = map f to es reduce +;", 10, Unknown),
    ("qs.x = map g(n) to qs reduce +;", 10, Set),
    ("ps.v = map g(n) to qs reduce +;", 10, Shape),
];

/// Loops, branches and claims from line 10 on.
static LISTS: [Row; 57] = [
    // a loop's variable and bounds
    ("for n in 0:2 end", 10, Twice),
    ("for A in 0:2 end", 10, Twice),
    ("for ps in 0:2 end", 10, Twice),
    ("for P in 0:2 end", 10, Twice),
    ("for f in 0:2 end", 10, Twice),
    ("for i in 0:2\nfor i in 0:2 end\nend", 11, Twice),
    ("for i in B:2 end", 10, Shape),
    ("for i in 0:A end", 10, Shape),
    ("for i in ps.x:2 end", 10, Shape),
    ("for i in d:2 end", 10, Scale),
    ("for i in 0:d end", 10, Scale),
    ("for i in 0:1.5 end", 10, Scale),
    ("for n in d:B end", 10, Twice),
    ("for i in d:B end", 10, Shape),
    // bounds come before the body, and the loop after it
    ("for i in i:2 end", 10, Unknown),
    ("for i in 0:i end", 10, Unknown),
    ("for i in\nz:2\nn = d;\nend", 11, Unknown),
    ("for i in 0:\nn + d\nz = 1;\nend", 11, Scale),
    ("for n in 0:2\nz = 1;\nend", 11, Unknown),
    ("for i in d:2\nz = 1;\nend", 11, Unknown),
    ("for i in B:A\nn = d;\nend", 11, Scale),
    // in the body the name is the loop's variable
    ("for d in 0:2\nn = d;\nend", 10, Twice),
    ("for d in 0:2\nd = 1.5;\nend", 11, NotAPlace),
    ("for n in 0:2\nd = n;\nend", 11, Scale),
    ("for i in 0:2\nd = i;\nend", 11, Scale),
    ("for i in 0:2\nn = i(0);\nend", 11, Shape),
    ("for i in 0:2\nn = i.x;\nend", 11, Unknown),
    ("for i in 0:2 end\nn = i;", 11, Unknown),
    // conditions
    ("while z < 1 end", 10, Unknown),
    ("while B == B end", 10, Shape),
    ("while A == n end", 10, Shape),
    ("while n == d end", 10, Scale),
    ("if ps.x == qs.x end", 10, Shape),
    ("if n < 1 or n < 1.0 end", 10, Scale),
    ("assert not n == d;", 10, Scale),
    ("assert B == d;", 10, Shape),
    ("assert n == 1 and\nd == 1;", 11, Scale),
    ("while n ==\nd end", 10, Scale),
    ("while\nn == d\nz = 1;\nend", 11, Scale),
    ("while n == 1\nz = 1;\nend", 11, Unknown),
    ("if n == d\nz = 1;\nend", 10, Scale),
    ("if n == 1\nz = 1;\nelse\nn = d;\nend", 11, Unknown),
    ("if n == 1\nn = 1;\nelse\nn = d;\nend", 13, Scale),
    // a variable ends with its list
    ("while n < 1 var q = 1; end\nn = q;", 11, Unknown),
    ("if n < 1 var q = 1; end\nq = 1;", 11, Unknown),
    ("if n < 1 var q = 1; else\nn = q;\nend", 11, Unknown),
    ("if n < 1 else var q = 1; end\nn = q;", 11, Unknown),
    ("for i in 0:2 var q = i; end\nn = q;", 11, Unknown),
    (
        "while n < 1 if n < 2 var q = 1; end\nn = q; end",
        11,
        Unknown,
    ),
    (
        "for i in 0:2 while n < 1 var q, w = map f to es reduce +; end\nps.x = q; end",
        11,
        Unknown,
    ),
    ("while n < 1 for i in 0:2 end\nn = i; end", 11, Unknown),
    // and isn't declared again before
    ("while n < 1 var q = 1;\nvar q = 2; end", 11, Twice),
    ("while n < 1\nvar n = 2;\nend", 11, Twice),
    ("if n < 1 else\nvar n = 2;\nend", 11, Twice),
    (
        "var q = 1; while n < 1 if n < 2\nvar q = 2; end end",
        11,
        Twice,
    ),
    ("if n < 1 var q = 1; end var q = 2;\nvar q = 3;", 11, Twice),
    (
        "for i in 0:2 while n < i\nfor i in 0:2 end end end",
        11,
        Twice,
    ),
];

#[test]
fn refused_statements_of_main(rt: HostRuntime) -> Result<(), Fail> {
    assert_refused(&rt, [STATE, ""], &VARIABLES, "\nend")?;
    assert_refused(&rt, [STATE, ""], &ASSIGNMENTS, "\nend")?;
    assert_refused(&rt, [STATE, ""], &LISTS, "\nend")
}

/// The rest of a function in line 10, and a map in line 13.
static MAPS: [Row; 27] = [
    // endpoints of another set, of another number, of another element type
    (
        "(s : S, p : (P*2)) -> (r : vector[ps](int(0)))\nr(p(0)) = 1;\nend proc main\nvar q = map g to fs reduce +;",
        13,
        Set,
    ),
    (
        "(s : S, p : (P*2)) -> (r : vector[ps](int(0)))\n\nend proc main\nvar q = map g to ones reduce +;",
        13,
        Set,
    ),
    (
        "(s : S, p : (P*2)) -> (r : vector[ps](int(0)))\n\nend proc main\nvar q = map g to threes reduce +;",
        13,
        Set,
    ),
    (
        "(s : S, p : (P*3)) -> (r : vector[ps](int(0)))\n\nend proc main\nvar q = map g to es reduce +;",
        13,
        Set,
    ),
    (
        "(s : S, p : (Q*2)) -> (r : vector[ps](int(0)))\n\nend proc main\nvar q = map g to es reduce +;",
        13,
        Set,
    ),
    (
        "(s : S, p : (S*2)) -> (r : vector[ps](int(0)))\n\nend proc main\nvar q = map g to es reduce +;",
        13,
        Set,
    ),
    (
        "(s : P, p : (P*1)) -> (r : vector[ps](int(0)))\n\nend proc main\nvar q = map g to ps reduce +;",
        13,
        Set,
    ),
    // an element of another type, though its fields are the same
    (
        "(s : Q) -> (r : vector[ps](int(0)))\n\nend proc main\nvar q = map g to ps reduce +;",
        13,
        Set,
    ),
    (
        "(s : P) -> (r : vector[ps](int(0)))\n\nend proc main\nvar q = map g to es reduce +;",
        13,
        Set,
    ),
    // places in another set than the result's
    (
        "(s : S, p : (P*2)) -> (r : vector[ps](int(0)))\nr(s) = 1;\nend proc main\nvar q = map g to es reduce +;",
        13,
        Set,
    ),
    (
        "(s : S, p : (P*2)) -> (r : vector[es](int(0)))\nr(p(1)) = 1;\nend proc main\nvar q = map g to es reduce +;",
        13,
        Set,
    ),
    (
        "(s : S) -> (r : vector[es](int(0)))\nr(s) = 1;\nend proc main\nvar q = map g to fs reduce +;",
        13,
        Set,
    ),
    (
        "(s : S, p : (P*2)) -> (r : matrix[ps,es](int(0)))\nr(p(0),p(1)) = 1;\nend proc main\nvar q = map g to es reduce +;",
        13,
        Set,
    ),
    (
        "(s : S, p : (P*2)) -> (r : matrix[ps,es](int(0)))\nr(s,s) = 1;\nend proc main\nvar q = map g to es reduce +;",
        13,
        Set,
    ),
    (
        "(s : S, p : (P*2)) -> (r : matrix[ps,es](int(0)))\nr(s,p(0)) = 1;\nend proc main\nvar q = map g to es reduce +;",
        13,
        Set,
    ),
    (
        "(s : P) -> (r : matrix[ps,qs](int(0)))\nr(s,s) = 1;\nend proc main\nvar q = map g to ps reduce +;",
        13,
        Set,
    ),
    (
        "(s : S) -> (r : vector[es](int(0)), t : vector[ps](int(0)))\nt(s) = 1;\nend proc main\nvar q, w = map g to es reduce +;",
        13,
        Set,
    ),
    // wherever in the function they are written
    (
        "(s : S) -> (r : vector[ps](int(0)))\nif 1 == 2 for i in 0:1 r(s) = 1; end end\nend proc main\nvar q = map g to es reduce +;",
        13,
        Set,
    ),
    (
        "(s : S) -> (r : vector[ps](int(0)))\nif 1 == 2 else r(s) = 1; end\nend proc main\nvar q = map g to es reduce +;",
        13,
        Set,
    ),
    (
        "(s : S, p : (P*2)) -> (r : vector[es](int(0)))\nr(s) = 1; r(p(0)) = 1; r(s) = 1;\nend proc main\nvar q = map g to es reduce +;",
        13,
        Set,
    ),
    // sets before scales
    (
        "(a : int(1), s : S) -> (r : vector[ps](int(0)))\nr(s) = 1;\nend proc main\nvar q = map g(1) to es reduce +;",
        13,
        Set,
    ),
    // two arguments
    (
        "(a : int(1), b : int(0), s : P) -> (r : vector[ps](int(0)))\n\nend proc main\nvar q = map g(1, ps.x) to ps reduce +;",
        13,
        Shape,
    ),
    (
        "(a : int(1), b : int(0), s : P) -> (r : vector[ps](int(0)))\n\nend proc main\nvar q = map g(1.0, 1.0) to ps reduce +;",
        13,
        Scale,
    ),
    (
        "(a : int(1), b : int(0), s : P) -> (r : vector[ps](int(0)))\n\nend proc main\nvar q = map g(1, 1.0, 1) to ps reduce +;",
        13,
        Shape,
    ),
    // two results
    (
        "(s : P) -> (r : vector[ps](int(0)), t : vector[qs](int(0)))\n\nend proc main\nps.x, ps.x = map g to ps reduce +;",
        13,
        Set,
    ),
    (
        "(s : P) -> (r : vector[ps](int(1)), t : vector[qs](int(0)))\n\nend proc main\nps.x, ps.x = map g to ps reduce +;",
        13,
        Set,
    ),
    // each map of a function
    (
        "(s : S) -> (r : vector[es](int(0)))\nr(s) = 1;\nend proc main var q = map g to es reduce +;\nvar w = map g to fs reduce +;",
        13,
        Set,
    ),
];

/// Two faults, from line 1 on: the first in the text is named.
static PAIRS: [Row; 10] = [
    (
        "element P x : int(19); end extern ps : set{Q};\nproc main\nn = 1;\nend",
        1,
        Scale,
    ),
    (
        "element P x : int(0); end\nextern ps : set{Q};\nproc main\nn = 1;\nend",
        2,
        Unknown,
    ),
    (
        "element P x : int(0); end\nextern ps : set{P};\nfunc f(e : P) -> (r : vector[ps](int(0)))\nr(e) = 1.0; end\nproc main\nps.z = 1;\nend",
        4,
        Scale,
    ),
    (
        "element P x : int(0); end\nextern ps : set{P};\nfunc f(e : P) -> (r : vector[ps](int(0)))\nr(e) = 1; end\nproc main\nps.z = 1;\nend",
        6,
        Unknown,
    ),
    ("proc main\nvar n = 1;\nn = 1.0;\nn = z;\nend", 3, Scale),
    (
        "proc main\nvar n = 1;\nwhile n == 1\nn = 2;\nend\nn = m;\nend",
        6,
        Unknown,
    ),
    (
        "proc main\nfor i in 0:\nm\nvar i = 1;\nend\nend",
        3,
        Unknown,
    ),
    (
        "proc main\nfor i in 0:\n1.0\nvar i = 1;\nend\nend",
        4,
        Twice,
    ),
    ("proc main\nif 1 == 1.0 or\nz == 1\nend\nend", 2, Scale),
    ("proc\nmain\nvar n = m; end", 3, Unknown),
];

#[test]
fn refused_maps_and_pairs(rt: HostRuntime) -> Result<(), Fail> {
    assert_refused(&rt, [SETS, "func g"], &MAPS, "\nend")?;
    assert_refused(&rt, ["", ""], &PAIRS, "")
}

/// The last line of a model that is another, and the kind of its fault.
static LAST_LINES: [(&str, TypeKind); 4] = [
    ("points.f = points.x * 1.0;", Scale),
    ("points.g = points.x;", Unknown),
    ("points.f = springs.k;", Set),
    ("points.f = map pull to points reduce +;", Set),
];

#[test]
fn a_model_with_another_last_line(rt: HostRuntime) -> Result<(), Fail> {
    for (line, kind) in &LAST_LINES {
        let text = PULLING.replace(rt.alloc(), "points.f = map pull to springs reduce +;", line)?;
        let fault = fault_of(&rt, text.as_bytes())?;
        assert!(rt; fault == Some((16, *kind)), "{fault:?} of {line}");
    }
    Ok(())
}
