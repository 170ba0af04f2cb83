//! Programs that have types: each rule where it holds, and how long names are visible.
use crate::checked_texts::assert_accepted;
use crate::heads::{BODY, SETS, STATE};
use std::test::Fail;
use worked_texts::{DOUBLED, GRADIENTS, PULLING, RATIO, STIFFNESS, SUMMED};

/// Programs of models.
#[test]
fn typed_models(rt: HostRuntime) -> Result<(), Fail> {
    let models = [PULLING, STIFFNESS, RATIO, DOUBLED, SUMMED, GRADIENTS];
    assert_accepted(&rt, ["", ""], &models, "")
}

/// Declarations before a main procedure.
static DECLARATIONS: [&str; 21] = [
    "",
    // fields
    "element P end",
    "element P p8 : int(18); P : vector[6](int(18)); m : matrix[1,6](int(0)); keys : matrix[6,1](int(007)); end",
    "element P x : int(0); end element Q x : int(0); y : vector[1](int(0)); end",
    // sets
    "element P x : int(0); end extern ps : set{P}; extern qs : set{P};",
    "element P x : int(0); end element S end extern ps : set{P}; extern ss : set{S}(ps);",
    "element P x : int(0); end extern ps : set{P}; extern ss : set{P}(ps, ps); extern ts : set{P}(ps, ps, ps);",
    "element P x : int(0); end extern x : set{P}; extern y : set{P}(x);",
    // an element type after a set, and a set after a function
    "element P x : int(0); end extern ps : set{P}; element S end extern ss : set{S}(ps);",
    "element P x : int(0); end extern ps : set{P}; func f(e : P) -> (r : vector[ps](int(0))) end extern e : set{P}; element r end",
    // parameters
    "element P x : int(0); end extern ps : set{P}; func f(e : P) -> (r : vector[ps](int(0))) end func g(e : P) -> (r : vector[ps](int(0))) end",
    "element P x : int(0); end extern ps : set{P}; func f(a : int(36), b : int(0), e : P) -> (r : vector[ps](int(36))) end",
    "element P x : int(0); end extern ps : set{P}; func f(e : P, p : (P*8)) -> (r : vector[ps](int(0))) end",
    "element P x : int(0); end extern ps : set{P}; func f(a : int(1), e : P, p : (P*1)) -> (r : vector[ps](int(0))) end",
    // zeros before a number
    "element P x : int(0000000000000000000000018); y : vector[0000000000000000000000006](int(00)); end extern ps : set{P}; func f(e : P, p : (P*000000000000000000000001)) -> (r : vector[ps](int(0))) end",
    "element P x : int(0); end extern ps : set{P}; func x(e : P) -> (r : vector[ps](int(0))) end",
    // a function's name isn't known in its text
    "element P x : int(0); end extern ps : set{P}; func f(f : P) -> (r : vector[ps](int(0))) r(f) = f.x; end",
    "element P x : int(0); end extern ps : set{P}; func f(e : P) -> (f : vector[ps](int(0))) f(e) = 1; end",
    "element P x : int(0); end extern ps : set{P}; func f(e : P) -> (r : vector[ps](int(0))) var f = 1; r(e) = f; end",
    // results
    "element P x : int(0); end extern ps : set{P}; extern es : set{P}(ps); func f(e : P) -> (r : vector[es](vector[6](int(36))), t : matrix[ps,es](matrix[6,6](int(36))), u : matrix[es,es](int(0))) end",
    // places in any set, as long as no map names the function
    "element P x : int(0); end extern ps : set{P}; extern es : set{P}(ps); func f(e : P, p : (P*1)) -> (r : vector[ps](int(0)), t : matrix[ps,es](int(0))) r(e) = 1; r(p(0)) = 1; t(e,e) = 1; t(p(0),p(0)) = 1; end",
];

/// Statements of the function.
static STEPS: [&str; 36] = [
    "",
    // names that are free, since they are known elsewhere alone
    "var e = 1; var x = e; var k = x; var g = k; n = g;",
    // expressions with the types of variables that have them
    "n = s.k + p(0).x*p(1).x - 3;",
    "d = a - d + 1.5;",
    "n = -n; b = -b; c = -c + c - c;",
    "n = b(0)*b(2) + c(0,1)*c(1,0);",
    "n = b((1));",
    "n = b(0000000000000000000000002) + p(000000000000000000000001).x + 000000000000000000000000001;",
    "d = 00000000000000000000000009.5; n = rescale(d, 00000000000000000000000000); r(p(0000000000000000000000001)) = 1;",
    "d = s.v(2) - s.m(1,2) + s.w(0);",
    "d = n*d; d = d*n; b = n*b; b = b*n; z = d*b; z = b*d; c = c*n;",
    "c = c*c*c; c = c*(c*c); c = c';",
    "var q = s.m*s.v; q = [1,2].*[3,4]*1.00; q = [1.00, 2.00];",
    "var q = s.m'*s.w; q = [1.00, 2.00, 3.00];",
    "var q = s.m'*s.m; q = [1,2,3;4,5,6;7,8,9]*1.00;",
    "var q = s.m*s.m'; q = c*1.00;",
    "b = b.*b; var q = z.*z; q = z.*s.v; n = dot(b, b); var w = dot(z, s.v); w = 1.00;",
    "b = [n, n, 3]; z = [d, a, 1.5]; var q = [1]; var w = [1;2]; w = [3;4]; q = [2];",
    "var q = [1,2,3,4,5,6]; var w = [1;2;3;4;5;6]; w = w; q = w*w'*q;",
    "n = rescale(d, 0); d = rescale(n, 1); b = rescale(z, 0); c = rescale(rescale(c, 18), 0);",
    "n = quot(n, n, 0); d = quot(n, n, 1); n = quot(d, d, 0); d = quot(n, d, 1); n = quot(d, p(0).y, 0);",
    "n = isqrt(n, 0); d = isqrt(n, 1); d = isqrt(d*d, 1); d = isqrt(d, 1);",
    "var q = 0.123456789012345678; q = rescale(q, 18);",
    "var q = 9223372036854775807; q = 0; q = -9223372036854775807;",
    // writes
    "r(s) = 1; r(p(0)) = n; r(p(1)) = -n; t(p(0)) = z; t(s) = s.v;",
    "u(s,s) = s.m; u(s,p(0)) = s.m; u(p(1),s) = s.m; u(p(0),p(1)) = [1.0,2.0,3.0;4.0,5.0,6.0];",
    "for i in 0:2 r(p(i)) = i; for j in 1:2 u(p(i),p(j)) = s.m; end end",
    // loops
    "for i in 0:4096 n = i; end for i in 4095:4096 n = n + i; end for i in 00:007 end",
    "for i in 000000000000000000000000:00000000000000000000000003 n = b(i); end",
    "for i in 0:3 n = b(i); end for i in 0:2 for j in 0:2 n = c(i,j); end end",
    "for i in 0:2 n = p(i).x; end for i in 2:3 n = b(i); for j in 1:2 n = c(j,j); end end",
    // conditions
    "if n == 1 end if not d < 1.5 and n >= b(0) or c(0,0) != 2 else n = 2; end assert s.k > n and a <= d;",
    // a name again, after the list of the first
    "if n == 1 var q = 1; else var q = 1.5; d = q; end var q = b; b = q;",
    "for i in 0:2 var q = i; n = q; end for i in 0:3 var q = d; d = q; end for q in 0:2 n = q; end",
    "if n == 1 for i in 0:2 if i == n var q = 1; end var q = 2; end var q = 3; var i = 4; end var q = 5; var i = 6;",
    // a name of an outer list in an inner one
    "var q = 1; if n == q q = 2; for i in 0:1 q = i; end end n = q;",
];

#[test]
fn typed_declarations_and_functions(rt: HostRuntime) -> Result<(), Fail> {
    assert_accepted(&rt, ["", ""], &DECLARATIONS, " proc main end")?;
    assert_accepted(&rt, [BODY, ""], &STEPS, "\nend\nproc main\nend")
}

/// Statements of the main procedure.
static STATEMENTS: [&str; 22] = [
    "",
    // names that are free, since they are known elsewhere alone
    "var s = 1; var e = s; var r = e; var x = r; var p = x; var t = p; n = t; var main1 = n;",
    // scalars
    "n = -n + 2*n; d = d*n - 1.5; n = rescale(d, 0); n = quot(d, d, 0); n = isqrt(n, 0); d = isqrt(d, 1);",
    // system vectors
    "B = ps.x; ps.x = B + B - ps.x; B = -B*n; ps.v = 3*ps.v; ps.m = ps.m*2; qs.m = qs.m + qs.m; es.v = es.v;",
    "ps.x = rescale(ps.y, 0); ps.y = rescale(B, 2); B = rescale(ps.x*1.0, 0); n = rescale(dot(ps.y, ps.y), 0);",
    "B = B.*B; n = dot(B, ps.x); var q = ps.v.*ps.v; q = q;",
    "var q = ps.m.*ps.m; q = q; var w = dot(ps.m, ps.m); w = 1.00; var z = dot(ps.v, ps.v); z = w;",
    // system matrices
    "B = A*B; B = A*A*B; B = A*(A*B); B = A'*B; B = (A + A - A')*ps.x; B = 2*A*B; B = -(A*2*B);",
    "B = U*qs.x; qs.x = U'*B; var X = U*U'; B = X*B; var Y = U'*U; qs.x = Y*qs.x; var Z = A*U + U;",
    "var q = H*qs.v; q = q; var w = H'*q; w = 1.0*1.0*qs.v; var X = H*H'; var Y = H'*H*qs.v;",
    "var X = rescale(H, 19); var Y = H*d; var Z = -H + H; var W = rescale(A, 18)*A;",
    // maps: a function without endpoints to any set of its element type
    "var q, w = map h to qs reduce +; B = w*qs.x;",
    "ps.y = map g(d) to ps reduce +; ps.y = map g(1.5) to ps reduce +; ps.y = map g(d*n) to ps reduce +;",
    "var q = map g(0.0) to ps reduce +; q = ps.y; var w, z = map f to es reduce +; ps.x = z*w;",
    // loops, whose bounds may be any numbers
    "for i in 0:2 n = i; end for i in 5:5 end for i in 9:1 end for i in -n:n*n end for i in 0:999999999 end",
    "for i in n:n + 1 for j in i:n n = i*j; end var j = n; end for i in 0:1 end",
    // conditions
    "while n < 3 n = n + 1; end while not n == 1 or d > 1.5 and dot(B, B) <= n end",
    "if n == 1 else end if n != 2 n = 2; else n = 3; end assert n >= 0 and d < 99.9;",
    // a name again, after the list of the first
    "if n == 1 var q = 1; n = q; else var q = d; d = q; end var q = B; B = q;",
    "while n == 1 var q = 1; end while n == 1 var q = B; end for q in 0:1 end for q in 0:1 n = q; end var q = A;",
    "while n == 1 for i in 0:2 if i == n var q = 1; end var q = A; end var q = B; var i = 1; end var q = 1; var i = q;",
    // a name of an outer list in an inner one
    "var q = 1; while q < 3 if n == q for i in 0:q q = q + i; B = A*B; end end end",
];

/// The rest of a function and a map.
static MAPS: [&str; 10] = [
    "(s : S, p : (P*2)) -> (r : vector[ps](int(0))) r(p(0)) = 1; end proc main var q = map g to es reduce +;",
    "(s : S, p : (P*2)) -> (r : vector[qs](int(0))) r(p(0)) = 1; end proc main var q = map g to fs reduce +;",
    "(s : S, p : (P*2)) -> (r : vector[es](int(0))) r(s) = 1; end proc main var q = map g to es reduce +;",
    "(s : S, p : (P*2)) -> (r : matrix[es,ps](int(0))) r(s,p(1)) = 1; end proc main var q = map g to es reduce +;",
    "(s : S, p : (P*1)) -> (r : vector[ps](int(0))) r(p(0)) = 1; end proc main var q = map g to ones reduce +;",
    "(s : S, p : (P*3)) -> (r : vector[ps](int(0))) r(p(2)) = 1; end proc main var q = map g to threes reduce +;",
    // without endpoints, to vertices and to edges
    "(s : P) -> (r : vector[ps](int(0))) r(s) = 1; end proc main var q = map g to ps reduce +;",
    "(s : S) -> (r : vector[es](int(0))) r(s) = 1; end proc main var q = map g to es reduce +;",
    // a result that isn't written may lie in any set
    "(s : S) -> (r : vector[ps](int(0))) end proc main var q = map g to es reduce +; q = map g to threes reduce +;",
    // two results in one field
    "(s : P) -> (r : vector[ps](int(0)), t : vector[ps](int(0))) end proc main ps.x, ps.x = map g to qs reduce +;",
];

#[test]
fn typed_main_procedures(rt: HostRuntime) -> Result<(), Fail> {
    assert_accepted(&rt, [STATE, ""], &STATEMENTS, "\nend")?;
    assert_accepted(&rt, [SETS, "func g"], &MAPS, "\nend")
}
