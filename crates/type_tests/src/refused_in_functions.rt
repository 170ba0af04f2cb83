//! Expressions and statements of functions that have no types, with the line and the kind of the fault that is named.
use crate::checked_texts::{Row, assert_refused};
use crate::heads::BODY;
use TypeKind::{NotAPlace, NotConstant, Scale, Shape, TooLarge, Twice, Unknown};
use std::test::Fail;
use type_rules::TypeKind;

/// The end of the function and of the program.
const END: &str = "\nend\nproc main\nend";

/// Names on the right side of a variable q, in line 10.
static NAMES: [Row; 51] = [
    // not known
    ("i", 10, Unknown),
    ("q", 10, Unknown),
    ("n + i", 10, Unknown),
    ("i(n)", 10, Unknown),
    ("i.k", 10, Unknown),
    // of another sort
    ("ps", 10, Unknown),
    ("P", 10, Unknown),
    ("f", 10, Unknown),
    ("g", 10, Unknown),
    ("f(n)", 10, Unknown),
    ("ps(0)", 10, Unknown),
    // no element and no endpoint before a field
    ("ps.x", 10, Unknown),
    ("P.x", 10, Unknown),
    ("n.k", 10, Unknown),
    ("a.k", 10, Unknown),
    ("r.k", 10, Unknown),
    ("f.x", 10, Unknown),
    ("b(0).x", 10, Unknown),
    // no field of theirs
    ("s.x", 10, Unknown),
    ("s.key", 10, Unknown),
    ("p(0).k", 10, Unknown),
    ("p.k", 10, Unknown),
    // indices come first
    ("b(\ni)", 11, Unknown),
    ("s.v(\ni)", 11, Unknown),
    ("p(\ni).x", 11, Unknown),
    ("i(\nj)", 11, Unknown),
    ("p(\nj).x(\ni)", 11, Unknown),
    ("\ni(n + d)", 11, Scale),
    ("\np(0).x(\nn + d)", 12, Scale),
    // elements, endpoints and results are no values
    ("s", 10, Shape),
    ("p", 10, Shape),
    ("p(0)", 10, Shape),
    ("p(1)", 10, Shape),
    ("p.x", 10, Shape),
    ("r", 10, Shape),
    ("t", 10, Shape),
    ("r(0)", 10, Shape),
    ("s(0).k", 10, Shape),
    ("p(0,1).x", 10, Shape),
    ("n + s", 10, Shape),
    ("n*\nr", 11, Shape),
    // literals
    ("0.1234567890123456789", 10, Scale),
    ("0.0000000000000000000", 10, Scale),
    ("0.9223372036854775808", 10, Scale),
    ("9223372036854775808", 10, TooLarge),
    ("922337203685477580.8", 10, TooLarge),
    ("9.223372036854775808", 10, TooLarge),
    ("99999999999999999999999", 10, TooLarge),
    ("-9223372036854775808", 10, TooLarge),
    ("-\n9223372036854775808", 11, TooLarge),
    ("b(\n9223372036854775808)", 11, TooLarge),
];

/// Entries on the right side of a variable q, in line 10.
static ENTRIES: [Row; 49] = [
    // neither a whole number nor the variable of a loop
    ("b(n)", 10, NotConstant),
    ("b(a)", 10, NotConstant),
    ("b(b)", 10, NotConstant),
    ("b(0.0)", 10, NotConstant),
    ("b(0+1)", 10, NotConstant),
    ("b(-1)", 10, NotConstant),
    ("b(1*1)", 10, NotConstant),
    ("b(s.k)", 10, NotConstant),
    ("b(b(0))", 10, NotConstant),
    ("b(rescale(1, 0))", 10, NotConstant),
    ("c(0,n)", 10, NotConstant),
    ("c(n,0)", 10, NotConstant),
    ("s.v(n)", 10, NotConstant),
    ("s.m(0,0.0)", 10, NotConstant),
    ("p(n).x", 10, NotConstant),
    ("p(0.0).x", 10, NotConstant),
    ("p(1-1).x", 10, NotConstant),
    // as many indices as the block has sides
    ("n(0)", 10, Shape),
    ("a(0)", 10, Shape),
    ("b(0,1)", 10, Shape),
    ("c(0)", 10, Shape),
    ("c(0,0,0)", 10, Shape),
    ("s.k(0)", 10, Shape),
    ("s.v(0,0)", 10, Shape),
    ("s.m(0)", 10, Shape),
    ("p(0).x(0)", 10, Shape),
    // out of range
    ("b(3)", 10, TooLarge),
    ("b(9223372036854775807)", 10, TooLarge),
    ("b(18446744073709551616)", 10, TooLarge),
    ("c(2,0)", 10, TooLarge),
    ("c(0,2)", 10, TooLarge),
    ("s.v(3)", 10, TooLarge),
    ("s.m(2,0)", 10, TooLarge),
    ("s.m(0,3)", 10, TooLarge),
    ("p(2).x", 10, TooLarge),
    ("p(4294967296).x", 10, TooLarge),
    ("b(003)", 10, TooLarge),
    ("b(4294967296)", 10, TooLarge),
    // two kinds at one entry
    ("p(n).k", 10, Unknown),
    ("p(2).k", 10, Unknown),
    ("s.x(n)", 10, Unknown),
    ("n(n)", 10, NotConstant),
    ("b(0.5,0)", 10, NotConstant),
    ("c(2,n)", 10, NotConstant),
    ("p(2).x(n)", 10, NotConstant),
    ("s.k(n)", 10, NotConstant),
    ("c(2)", 10, Shape),
    ("b(3,0)", 10, Shape),
    ("p(2).x(0)", 10, Shape),
];

/// Sums and products on the right side of a variable q, in line 10.
static SUMS: [Row; 55] = [
    // sums of two forms or blocks
    ("n + b", 10, Shape),
    ("n - b", 10, Shape),
    ("b + [1,2]", 10, Shape),
    ("b + [1;2;3]", 10, Shape),
    ("c + b", 10, Shape),
    ("c + [1,2,3;4,5,6]", 10, Shape),
    ("s.v + s.w", 10, Shape),
    ("z + d", 10, Shape),
    // of two scales
    ("n + d", 10, Scale),
    ("n - d", 10, Scale),
    ("n - 1.0", 10, Scale),
    ("b + z", 10, Scale),
    ("s.k + s.e", 10, Scale),
    ("p(0).x - p(1).y", 10, Scale),
    ("-n + d", 10, Scale),
    // shape before scale
    ("d + b", 10, Shape),
    ("z - n", 10, Shape),
    // a sum is one of two after another
    ("n + n + d", 10, Scale),
    ("n + d + b", 10, Scale),
    ("n + d +\ni", 10, Scale),
    ("n + n +\ni", 11, Unknown),
    ("n + (\nd + i)", 11, Unknown),
    ("n - (\nd + b)", 11, Shape),
    // products
    ("b*b", 10, Shape),
    ("c*b", 10, Shape),
    ("b*c", 10, Shape),
    ("s.m*s.m", 10, Shape),
    ("s.m*s.w", 10, Shape),
    ("s.w*s.m", 10, Shape),
    ("[1;2]*b", 10, Shape),
    ("n*b*b", 10, Shape),
    ("b*n*b", 10, Shape),
    ("s.m*(\nc*b)", 11, Shape),
    // scales are added
    ("1.000000000000000000*1.000000000000000000*d", 10, Scale),
    ("rescale(rescale(n,18),36)*z", 10, Scale),
    ("d*\nrescale(rescale(n,18),36)", 10, Scale),
    // a product is one of two after another
    ("b*b*\ni", 10, Shape),
    ("rescale(rescale(n,18),36)*d*\ni", 10, Scale),
    ("n*b*\ni", 11, Unknown),
    // by entries, and scalar products: two vectors of one shape
    ("n.*n", 10, Shape),
    ("c.*c", 10, Shape),
    ("b.*n", 10, Shape),
    ("n.*b", 10, Shape),
    ("b.*c", 10, Shape),
    ("b.*s.w", 10, Shape),
    ("rescale(rescale(b,18),36).*z", 10, Scale),
    ("dot(n, n)", 10, Shape),
    ("dot(c, c)", 10, Shape),
    ("dot(b, n)", 10, Shape),
    ("dot(b, s.w)", 10, Shape),
    ("dot(rescale(rescale(b,18),36), z)", 10, Scale),
    ("dot(\nn + d, i)", 11, Scale),
    ("dot(b,\ni)", 11, Unknown),
    // shape before scale
    ("rescale(rescale(b,18),36)*z", 10, Shape),
    ("rescale(rescale(b,18),36).*d", 10, Shape),
];

/// Other expressions on the right side of a variable q, in line 10.
static OTHERS: [Row; 62] = [
    // only a matrix is transposed
    ("n'", 10, Shape),
    ("b'", 10, Shape),
    ("s.v'", 10, Shape),
    ("5'", 10, Shape),
    ("c(0,0)'", 10, Shape),
    ("(\nn + d)'", 11, Scale),
    ("(\nn + n)'", 10, Shape),
    // blocks
    ("[1, 2; 3]", 10, Shape),
    ("[1; 2, 3]", 10, Shape),
    ("[b, b]", 10, Shape),
    ("[n, b]", 10, Shape),
    ("[b, n]", 10, Shape),
    ("[c]", 10, Shape),
    ("[[1]]", 10, Shape),
    ("[1, 2.0]", 10, Scale),
    ("[1; 2.0]", 10, Scale),
    ("[1, 2; 3, 4.0]", 10, Scale),
    ("[n, d]", 10, Scale),
    ("[1,2,3,4,5,6,7]", 10, TooLarge),
    ("[1;2;3;4;5;6;7]", 10, TooLarge),
    ("[1, 2.0; 3]", 10, Shape),
    ("[b, 1.0]", 10, Shape),
    ("[1,2,3,4,5,6,7; 1]", 10, Shape),
    ("[1,2,3,4,5,6,7.0]", 10, Scale),
    ("[1;2;3;4;5;6;7.0]", 10, Scale),
    ("[1, 2.0,\ni]", 11, Unknown),
    ("[1, 2;\n3 + d]", 11, Scale),
    // other scales
    ("rescale(n, 1.0)", 10, NotConstant),
    ("rescale(n, 19)", 10, Scale),
    ("rescale(d, 20)", 10, Scale),
    ("rescale(b, 19)", 10, Scale),
    ("rescale(n, 37)", 10, Scale),
    ("rescale(rescale(n,18),37)", 10, Scale),
    ("rescale(\nrescale(rescale(n,18),36),17)", 10, Scale),
    ("rescale(n, 99999999999999999999)", 10, Scale),
    ("rescale(n, 18446744073709551616)", 10, Scale),
    ("rescale(n, 4294967296)", 10, Scale),
    ("rescale(\ni, 0.5)", 11, Unknown),
    // quotients
    ("quot(n, n, 0.0)", 10, NotConstant),
    ("quot(b, n, 0)", 10, Shape),
    ("quot(n, b, 0)", 10, Shape),
    ("quot(c, c, 0)", 10, Shape),
    ("quot(n, n, 19)", 10, Scale),
    ("quot(n, d, 18)", 10, Scale),
    ("quot(d, n, 0)", 10, Scale),
    ("quot(rescale(rescale(n,18),19), n, 37)", 10, Scale),
    ("quot(n, n, 18446744073709551616)", 10, Scale),
    ("quot(n, n, 4294967296)", 10, Scale),
    ("quot(b, n, 0.5)", 10, NotConstant),
    ("quot(b, n, 19)", 10, Shape),
    ("quot(\nn + d, i, 0)", 11, Scale),
    // roots
    ("isqrt(n, 0.0)", 10, NotConstant),
    ("isqrt(b, 0)", 10, Shape),
    ("isqrt(c, 0)", 10, Shape),
    ("isqrt(n, 10)", 10, Scale),
    ("isqrt(d, 0)", 10, Scale),
    ("isqrt(d, 10)", 10, Scale),
    ("isqrt(n, 18446744073709551616)", 10, Scale),
    ("isqrt(n, 2147483648)", 10, Scale),
    ("isqrt(n, 9223372036854775808)", 10, Scale),
    ("isqrt(b, 0.5)", 10, NotConstant),
    ("isqrt(z, 10)", 10, Shape),
];

#[test]
fn refused_expressions_of_functions(rt: HostRuntime) -> Result<(), Fail> {
    let after = ";\nend\nproc main\nend";
    assert_refused(&rt, [BODY, "var q = "], &NAMES, after)?;
    assert_refused(&rt, [BODY, "var q = "], &ENTRIES, after)?;
    assert_refused(&rt, [BODY, "var q = "], &SUMS, after)?;
    assert_refused(&rt, [BODY, "var q = "], &OTHERS, after)
}

/// Variables and assignments from line 10 on.
static ASSIGNMENTS: [Row; 39] = [
    // names of variables
    ("var n = 1;", 10, Twice),
    ("var s = 1;", 10, Twice),
    ("var p = 1;", 10, Twice),
    ("var a = 1.0;", 10, Twice),
    ("var r = 1;", 10, Twice),
    ("var ps = 1;", 10, Twice),
    ("var P = 1;", 10, Twice),
    ("var f = 1;", 10, Twice),
    ("var q = 1;\nvar q = 1;", 11, Twice),
    ("for i in 0:2\nvar i = 1;\nend", 11, Twice),
    ("var n =\ni;", 11, Unknown),
    ("var n =\nn + d;", 11, Scale),
    // targets
    ("i = 1;", 10, Unknown),
    ("ps = 1;", 10, Unknown),
    ("P = 1;", 10, Unknown),
    ("f = 1;", 10, Unknown),
    ("g = 1;", 10, Unknown),
    ("s = 1;", 10, NotAPlace),
    ("p = 1;", 10, NotAPlace),
    ("a = 1.0;", 10, NotAPlace),
    ("r = 1;", 10, NotAPlace),
    ("u = s.m;", 10, NotAPlace),
    ("for i in 0:2\ni = 1;\nend", 11, NotAPlace),
    // types
    ("n = b;", 10, Shape),
    ("n = c;", 10, Shape),
    ("b = n;", 10, Shape),
    ("b = [1,2];", 10, Shape),
    ("n = 1.0;", 10, Scale),
    ("d = 1;", 10, Scale),
    ("b = z;", 10, Scale),
    ("n = d*1.0;", 10, Scale),
    // two kinds at one assignment
    ("i = b;", 10, Unknown),
    ("s = b;", 10, NotAPlace),
    ("a = 1;", 10, NotAPlace),
    ("b = d;", 10, Shape),
    // the right side comes first
    ("i =\nn + d;", 11, Scale),
    ("s =\ni;", 11, Unknown),
    // two statements
    ("n = d;\nn = b;", 10, Scale),
    ("n = 2;\nn = b;\nn = i;", 11, Shape),
];

/// Writes from line 10 on.
static WRITES: [Row; 60] = [
    // not known
    ("i(p(0)) = 1;", 10, Unknown),
    ("r(i) = 1;", 10, Unknown),
    ("r(i(0)) = 1;", 10, Unknown),
    ("r(p(i)) = 1;", 10, Unknown),
    ("u(s,i) = s.m;", 10, Unknown),
    ("u(s,p(i)) = s.m;", 10, Unknown),
    ("u(n,i) = s.m;", 10, Unknown),
    ("r(n(i)) = 1;", 10, Unknown),
    ("u(p(n),i) = s.m;", 10, Unknown),
    // indices of endpoints
    ("r(p(0.0)) = 1;", 10, NotConstant),
    ("r(p(n)) = 1;", 10, NotConstant),
    ("r(p(a)) = 1;", 10, NotConstant),
    ("u(p(0),p(n)) = s.m;", 10, NotConstant),
    // no result
    ("n(p(0)) = 1;", 10, NotAPlace),
    ("s(p(0)) = 1;", 10, NotAPlace),
    ("a(s) = 1;", 10, NotAPlace),
    ("p(s) = 1;", 10, NotAPlace),
    ("ps(s) = 1;", 10, NotAPlace),
    ("P(s) = 1;", 10, NotAPlace),
    ("f(s) = 1;", 10, NotAPlace),
    // neither the element nor an endpoint
    ("r(n) = 1;", 10, NotAPlace),
    ("r(a) = 1;", 10, NotAPlace),
    ("r(r) = 1;", 10, NotAPlace),
    ("r(b(0)) = 1;", 10, NotAPlace),
    ("r(ps) = 1;", 10, NotAPlace),
    ("r(P) = 1;", 10, NotAPlace),
    ("u(s,n) = s.m;", 10, NotAPlace),
    ("for i in 0:2\nr(i) = 1;\nend", 11, NotAPlace),
    // one place for a vector, two for a matrix
    ("r(s,s) = 1;", 10, Shape),
    ("t(p(0),p(1)) = z;", 10, Shape),
    ("u(s) = s.m;", 10, Shape),
    // types of the block
    ("r(s) = b;", 10, Shape),
    ("t(s) = 1.0;", 10, Shape),
    ("t(s) = s.w;", 10, Shape),
    ("u(s,s) = c;", 10, Shape),
    ("u(s,s) = s.m';", 10, Shape),
    ("r(s) = 1.0;", 10, Scale),
    ("t(s) = b;", 10, Scale),
    ("u(s,s) = [1,2,3;4,5,6];", 10, Scale),
    // endpoints out of range
    ("r(p(2)) = 1;", 10, TooLarge),
    ("r(p(18446744073709551616)) = 1;", 10, TooLarge),
    ("r(p(4294967296)) = 1;", 10, TooLarge),
    ("u(p(0),p(2)) = s.m;", 10, TooLarge),
    ("u(p(2),s) = s.m;", 10, TooLarge),
    ("for i in 0:3\nr(p(i)) = 1;\nend", 11, TooLarge),
    // two kinds at one write
    ("i(n) = b;", 10, Unknown),
    ("n(i) = 1;", 10, Unknown),
    ("n(p(i)) = 1;", 10, Unknown),
    ("n(p(n)) = 1;", 10, NotConstant),
    ("r(p(n),s) = b;", 10, NotConstant),
    ("n(s,s) = b;", 10, NotAPlace),
    ("r(n,s) = 1;", 10, NotAPlace),
    ("u(p(2),n) = s.m;", 10, NotAPlace),
    ("u(n,p(n)) = s.m;", 10, NotConstant),
    ("n(p(2)) = 1;", 10, NotAPlace),
    ("r(p(2)) = b;", 10, Shape),
    ("r(p(2),s) = 1.0;", 10, Shape),
    ("r(p(2)) = 1.0;", 10, Scale),
    // the value comes first
    ("r(\ni) =\nn + d;", 12, Scale),
    ("n(s) =\ni;", 11, Unknown),
];

/// Writes to all endpoints at once, and to an entry of the element.
static PLACES: [Row; 3] = [
    ("r(p) = 1;", 10, Shape),
    ("r(s(0)) = 1;", 10, Shape),
    ("u(s,p) = s.m;", 10, Shape),
];

#[test]
fn refused_places(rt: HostRuntime) -> Result<(), Fail> {
    assert_refused(&rt, [BODY, ""], &PLACES, END)
}

/// Loops from line 10 on.
static LOOPS: [Row; 50] = [
    // the variable's name
    ("for n in 0:2 end", 10, Twice),
    ("for s in 0:2 end", 10, Twice),
    ("for p in 0:2 end", 10, Twice),
    ("for a in 0:2 end", 10, Twice),
    ("for r in 0:2 end", 10, Twice),
    ("for ps in 0:2 end", 10, Twice),
    ("for P in 0:2 end", 10, Twice),
    ("for f in 0:2 end", 10, Twice),
    ("for i in 0:2\nfor i in 0:2 end\nend", 11, Twice),
    // bounds
    ("for i in 0.0:2 end", 10, NotConstant),
    ("for i in 0:2.0 end", 10, NotConstant),
    ("for i in 2:2 end", 10, TooLarge),
    ("for i in 3:2 end", 10, TooLarge),
    ("for i in 0:0 end", 10, TooLarge),
    ("for i in 0:4097 end", 10, TooLarge),
    ("for i in 4096:4097 end", 10, TooLarge),
    ("for i in 0:18446744073709551617 end", 10, TooLarge),
    ("for i in 18446744073709551616:1 end", 10, TooLarge),
    ("for i in 0:4294967297 end", 10, TooLarge),
    ("for i in 4294967296:1 end", 10, TooLarge),
    ("for n in 0:2.5 end", 10, Twice),
    ("for n in 2:2 end", 10, Twice),
    ("for i in 3:2.0 end", 10, NotConstant),
    ("for i in 3.0:2 end", 10, NotConstant),
    // the body comes first
    ("for n in 0:2\nvar q = i;\nend", 11, Unknown),
    ("for i in 2:2\nvar q = n + d;\nend", 11, Scale),
    ("for i in 2.5:2\nn = j;\nend", 11, Unknown),
    // and has the name as the loop's variable
    ("for d in 0:2\nn = d;\nend", 10, Twice),
    ("for n in 0:2\nn = 1;\nend", 11, NotAPlace),
    ("for i in 0:2\nd = i;\nend", 11, Scale),
    ("for i in 0:2\nn = i(0);\nend", 11, Shape),
    ("for i in 0:2\nn = i.k;\nend", 11, Unknown),
    // indices at each of its values
    ("for i in 0:4\nn = b(i);\nend", 11, TooLarge),
    ("for i in 3:4\nn = b(i);\nend", 11, TooLarge),
    ("for i in 0:3\nn = c(i,0);\nend", 11, TooLarge),
    ("for i in 0:3\nn = c(0,i);\nend", 11, TooLarge),
    ("for i in 0:3\nn = p(i).x;\nend", 11, TooLarge),
    ("for i in 0:4097\nn = b(i);\nend", 11, TooLarge),
    (
        "for i in 0:18446744073709551617\nn = b(i);\nend",
        11,
        TooLarge,
    ),
    (
        "for i in 0:2 for j in 0:3\nn = c(i,j);\nend end",
        11,
        TooLarge,
    ),
    ("for i in 0:3\nn = b(i + 0);\nend", 11, NotConstant),
    // of none, where the bounds hold none
    ("for i in 5:5\nn = b(i);\nend", 10, TooLarge),
    ("for i in 5:4\nn = p(i).x;\nend", 10, TooLarge),
    ("for i in 7.0:9\nn = b(i);\nend", 10, NotConstant),
    ("for i in 7:9.5\nn = b(i);\nend", 10, NotConstant),
    ("for i in 7:9.5\nr(p(i)) = 1;\nend", 10, NotConstant),
    ("for i in 7:7\nr(p(i)) = 1;\nend", 10, TooLarge),
    // it ends with the loop
    ("for i in 0:2 end\nn = i;", 11, Unknown),
    ("for i in 0:2 end\nn = b(i);", 11, Unknown),
    ("for i in 0:2 end\nr(p(i)) = 1;", 11, Unknown),
];

/// Conditions and lists of statements from line 10 on.
static CONDITIONS: [Row; 40] = [
    ("if i == 1 end", 10, Unknown),
    ("if 1 == i end", 10, Unknown),
    ("if s == s end", 10, Shape),
    ("if b == b end", 10, Shape),
    ("if c == c end", 10, Shape),
    ("if b == n end", 10, Shape),
    ("if n == d end", 10, Scale),
    ("if n == 1 and n == d end", 10, Scale),
    ("if n == 1 or i == 1 end", 10, Unknown),
    ("assert n < d;", 10, Scale),
    ("assert not n <= d;", 10, Scale),
    ("assert b > d;", 10, Shape),
    ("assert z >= n;", 10, Shape),
    ("assert 1 != 1.0;", 10, Scale),
    ("assert i == n;", 10, Unknown),
    // a comparison has a line of its own
    ("if n == 1 and\nn == d end", 11, Scale),
    ("if n ==\nd end", 10, Scale),
    ("assert\nnot\nn == d;", 11, Scale),
    ("assert n == 1 or\nnot n ==\nd;", 11, Scale),
    // and comes before the next, and before the body
    ("if n == d and\ni == 1 end", 10, Scale),
    ("if n == d or\ni == 1 end", 10, Scale),
    ("if n == d\nvar q = i;\nend", 10, Scale),
    (
        "if n == 1\nvar q = i;\nelse\nvar q = n + d;\nend",
        11,
        Unknown,
    ),
    ("if n == 1 else\nvar q = i;\nend", 11, Unknown),
    ("if n == 1\nn = 2;\nelse\nn = d;\nend", 13, Scale),
    // a variable ends with its list
    ("if n == 1 var q = 1; end\nn = q;", 11, Unknown),
    ("if n == 1 var q = 1; end\nq = 1;", 11, Unknown),
    ("if n == 1 var q = 1; else\nn = q;\nend", 11, Unknown),
    ("if n == 1 else var q = 1; end\nn = q;", 11, Unknown),
    ("for i in 0:2 var q = i; end\nn = q;", 11, Unknown),
    (
        "if n == 1 if n == 2 var q = 1; end\nn = q; end",
        11,
        Unknown,
    ),
    (
        "if n == 1 for i in 0:2 if i == n var q = 1; end\nn = q; end end",
        11,
        Unknown,
    ),
    (
        "for i in 0:2 if n == i var q = 1; else var w = 1;\nn = q; end end",
        11,
        Unknown,
    ),
    ("if n == 1 for i in 0:2 end\nn = i; end", 11, Unknown),
    // and isn't declared again before
    ("for i in 0:2 var q = i;\nvar q = i; end", 11, Twice),
    ("if n == 1\nvar n = 2;\nend", 11, Twice),
    ("if n == 1 else\nvar n = 2;\nend", 11, Twice),
    ("var q = 1; if n == 1\nvar q = 2;\nend", 11, Twice),
    (
        "if n == 1 var q = 1; for i in 0:2\nfor q in 0:2 end\nend end",
        11,
        Twice,
    ),
    ("if n == 1 var q = 1; end var q = 2;\nvar q = 3;", 11, Twice),
];

#[test]
fn refused_statements_of_functions(rt: HostRuntime) -> Result<(), Fail> {
    assert_refused(&rt, [BODY, ""], &ASSIGNMENTS, END)?;
    assert_refused(&rt, [BODY, ""], &WRITES, END)?;
    assert_refused(&rt, [BODY, ""], &LOOPS, END)?;
    assert_refused(&rt, [BODY, ""], &CONDITIONS, END)
}
