//! Host functions: what their calls give in functions and in the main procedure, and which declarations and calls of them
//! are refused.
use simit_run::Status;
use std::process::Abort;
use std::test::Fail;
use test_calls::{End, assert_by, done, ended, refused};
use worked_texts::{POINTS, POINTS_AND_SPRINGS, SPRINGS};

/// Asserts how a program in these parts ends over tables, by both engines.
fn assert_hosted(
    rt: &(impl Abort + AllocGlobal),
    parts: &[&str],
    tables: &[&str],
    end: End<'_>,
) -> Result<(), Fail> {
    assert_by(rt, "run", parts, tables, end)?;
    assert_by(rt, "plain", parts, tables, end)
}

/// The declaration of one function, in line 10 where it stands after points and springs.
const LEAST: &str = "extern func least(int(0), int(0)) -> int(0);\n";

/// The declarations of all five.
const FIVE: &str = "extern func clamp0(int(0)) -> int(0);
extern func least(int(0), int(0)) -> int(0);
extern func most(int(0), int(0)) -> int(0);
extern func mix(int(0)) -> int(0);
extern func square(int(0)) -> int(0);
";

/// Springs drop the lesser of their stiffness and 2 at their first points.
const DROP: &str = "func drop(s : Spring, p : (Point*2)) -> (f : vector[points](int(0)))
  f(p(0)) = least(s.k, 2);
end
proc main
  points.f = map drop to springs reduce +;
end
";

#[test]
fn a_host_function_called_by_springs(rt: HostRuntime) -> Result<(), Fail> {
    let out = done("set points\nx,f\n0,2\n10,2\n25,0\nset springs\np0,p1,k\n0,1,2\n1,2,3\n");
    let parts = [POINTS_AND_SPRINGS, LEAST, DROP];
    assert_hosted(&rt, &parts, &[POINTS, SPRINGS], out)
}

/// What stands from line 10 on before a main procedure, and the note.
static DECLARED: [(&str, &str); 11] = [
    // another number of arguments than the function has
    (
        "extern func least(int(0), int(0), int(0)) -> int(0);",
        "refused: line 10: shape\n",
    ),
    (
        "\n\nextern\nfunc least(int(0)) -> int(0);",
        "refused: line 12: shape\n",
    ),
    (
        "extern func mix(int(0), int(0)) -> int(0);",
        "refused: line 10: shape\n",
    ),
    // a name that the host doesn't have, also where it is declared
    (
        "extern func gcd(int(0), int(0)) -> int(0);",
        "refused: line 10: unknown name\n",
    ),
    (
        "\nextern func Least(int(0), int(0)) -> int(0);",
        "refused: line 11: unknown name\n",
    ),
    (
        "extern func points(int(0)) -> int(0);",
        "refused: line 10: unknown name\n",
    ),
    // a name that is taken
    (
        "extern func mix(int(0)) -> int(0);\nextern func mix(int(0)) -> int(0);",
        "refused: line 11: declared twice\n",
    ),
    (
        "extern mix : set{Point};\nextern func mix(int(0)) -> int(0);",
        "refused: line 11: declared twice\n",
    ),
    (
        "extern func mix(int(0)) -> int(0);\nelement mix end",
        "refused: line 11: declared twice\n",
    ),
    // scales
    (
        "extern func mix(int(0.0)) -> int(0);",
        "refused: line 10: not a constant\n",
    ),
    (
        "extern func mix(int(36)) -> int(37);",
        "refused: line 10: scale\n",
    ),
];

#[test]
fn declarations_of_host_functions_that_are_refused(rt: HostRuntime) -> Result<(), Fail> {
    for (declaration, note) in &DECLARED {
        let parts = [POINTS_AND_SPRINGS, declaration, "\nproc main\nend\n"];
        assert_hosted(&rt, &parts, &[POINTS, SPRINGS], refused(note))?;
    }
    Ok(())
}

/// Statements of the main procedure in line 12, and the note.
static CALLED: [(&str, &str); 10] = [
    ("var a = least(1.5, 2);", "refused: line 12: scale\n"),
    ("var a = least(1, 2.0);", "refused: line 12: scale\n"),
    ("var a = 1.5 + least(1, 2);", "refused: line 12: scale\n"),
    ("var a = least(1);", "refused: line 12: shape\n"),
    ("var a = least(1, 2, 3);", "refused: line 12: shape\n"),
    ("points.f = least*points.x;", "refused: line 12: shape\n"),
    (
        "points.f = least(points.x, 2);",
        "refused: line 12: shape\n",
    ),
    // a function that the host has and the program doesn't declare
    ("var a = most(1, 2);", "refused: line 12: unknown name\n"),
    (
        "points.f = map least to points reduce +;",
        "refused: line 12: unknown name\n",
    ),
    ("var least = 1;", "refused: line 12: declared twice\n"),
];

#[test]
fn calls_of_host_functions_that_are_refused(rt: HostRuntime) -> Result<(), Fail> {
    for (statement, note) in &CALLED {
        let parts = [
            POINTS_AND_SPRINGS,
            LEAST,
            "proc main\n",
            statement,
            "\nend\n",
        ];
        assert_hosted(&rt, &parts, &[POINTS, SPRINGS], refused(note))?;
    }
    Ok(())
}

/// Numbers x and y, and what the five functions make of them.
const NUMBERS: &str = "element Q
  x : int(0);
  y : int(0);
  a : int(0);
  b : int(0);
  c : int(0);
  d : int(0);
  e : int(0);
end
extern q : set{Q};
";

const EACH: &str =
    "func bounded(s : Q) -> (a : vector[q](int(0)), b : vector[q](int(0)), c : vector[q](int(0)))
  a(s) = clamp0(s.x);
  b(s) = least(s.x, s.y);
  c(s) = most(s.x, s.y);
end
func wrapped(s : Q) -> (d : vector[q](int(0)), e : vector[q](int(0)))
  d(s) = mix(s.x);
  e(s) = square(s.x);
end
proc main
  q.a, q.b, q.c = map bounded to q reduce +;
  q.d, q.e = map wrapped to q reduce +;
end
";

#[test]
fn all_five_over_numbers_of_both_signs(rt: HostRuntime) -> Result<(), Fail> {
    let table = "x,y,a,b,c,d,e
-3,2,0,0,0,0,0
5,-7,0,0,0,0,0
0,0,0,0,0,0,0
4294967296,1,0,0,0,0,0
-9223372036854775808,9223372036854775807,0,0,0,0,0
";
    let out = "set q
x,y,a,b,c,d,e
-3,2,0,-3,2,797030443058136008,9
5,-7,5,-7,5,-3630111987296174800,25
0,0,0,0,0,1442695040888963407,0
4294967296,1,4294967296,1,4294967296,6961151790551630159,0
-9223372036854775808,9223372036854775807,0,-9223372036854775808,9223372036854775807,-7780676995965812401,0
";
    assert_hosted(&rt, &[NUMBERS, FIVE, EACH], &[table], done(out))
}

/// The main procedure calls them over literals, over variables and in the conditions of a loop and of a branch.
const IN_MAIN: &str = "proc main
  assert clamp0(-3) == 0 and clamp0(3) == 3 and clamp0(0) == 0;
  assert least(2, -3) == -3 and least(-3, 2) == -3 and least(3, 2) == 2;
  assert most(2, -3) == 2 and most(-3, 2) == 2 and most(3, 2) == 3;
  assert mix(0) == 1442695040888963407 and mix(1) == 7806831264735756412;
  assert square(-3) == 9 and square(4294967296) == 0 and square(square(2)) == 16;
  var n = 0;
  while least(n, 5) < 5
    n = n + 1;
  end
  for i in clamp0(-2):most(1, 2)
    n = n + 10;
  end
  var d = dot(points.x, points.x);
  if least(d, 700) == 700
    points.f = least(n, 25)*points.x;
  end
  points.x = -square(n - 24)*points.x;
end
";

#[test]
fn all_five_in_the_main_procedure(rt: HostRuntime) -> Result<(), Fail> {
    // n is 25
    let out = done("set points\nx,f\n0,0\n-10,250\n-25,625\nset springs\np0,p1,k\n0,1,2\n1,2,3\n");
    let parts = [POINTS_AND_SPRINGS, FIVE, IN_MAIN];
    assert_hosted(&rt, &parts, &[POINTS, SPRINGS], out)
}

/// Functions of words with scales of their own.
const SCALED: &str = "element Q
  x : int(2);
  y : int(1);
  a : int(1);
  b : int(2);
  c : int(3);
end
extern q : set{Q};
extern func least(int(2), int(0)) -> int(1);
extern func square(int(1)) -> int(2);
extern func clamp0(int(2)) -> int(3);
func each(s : Q) -> (a : vector[q](int(1)), b : vector[q](int(2)), c : vector[q](int(3)))
  a(s) = least(s.x, 200);
  b(s) = square(s.y);
  c(s) = clamp0(s.x);
end
proc main
  assert least(1.50, 200) == 15.0 and square(-1.5) == 2.25 and clamp0(0.07) == 0.007;
  q.a, q.b, q.c = map each to q reduce +;
end
";

#[test]
fn scales_are_as_they_are_declared(rt: HostRuntime) -> Result<(), Fail> {
    let table = "x,y,a,b,c\n1.50,1.5,0,0,0\n3.00,-0.3,0,0,0\n-0.05,10.0,0,0,0\n";
    let out =
        "set q\nx,y,a,b,c\n1.50,1.5,15.0,2.25,0.150\n3.00,-0.3,20.0,0.09,0.300\n-0.05,10.0,-0.5,100.00,0.000\n";
    assert_hosted(&rt, &[SCALED], &[table], done(out))
}

/// What springs put at the same places is added up.
const ADDED: &str =
    "func g(s : Spring, p : (Point*2)) -> (f : vector[points](int(0)), K : matrix[points,points](int(0)))
  f(p(0)) = most(s.k, 3);
  f(p(1)) = -square(s.k);
  for i in 0:2
    K(p(i),p(1)) = i*clamp0(s.k);
  end
  K(p(0),p(1)) = clamp0(p(1).x - p(0).x)*least(s.k, 0);
end
proc main
  var f, K = map g to springs reduce +;
  points.f = f + K*points.x;
end
";

/// The argument of a call traps.
const TRAPPED: &str = "func g(s : Spring) -> (f : vector[springs](int(0)))
  f(s) = least(quot(1, s.k + 5, 0), 0);
end
proc main
  springs.k = map g to springs reduce +;
end
";

#[test]
fn answers_of_several_springs(rt: HostRuntime) -> Result<(), Fail> {
    let springs = "p0,p1,k\n0,1,2\n0,1,-5\n1,2,4\n2,2,7\n";
    // f is 6, -25 and -58. The matrix has -50 at 0,1, then 2 at 1,1, and 11 at 2,2.
    let out =
        "set points\nx,f\n0,-494\n10,-5\n25,217\nset springs\np0,p1,k\n0,1,2\n0,1,-5\n1,2,4\n2,2,7\n";
    let parts = [POINTS_AND_SPRINGS, FIVE, ADDED];
    assert_hosted(&rt, &parts, &[POINTS, springs], done(out))?;
    let trap = ended(
        Status::Trap,
        "trap at line 19, element 1: division by zero\n",
    );
    let parts = [POINTS_AND_SPRINGS, FIVE, TRAPPED];
    assert_hosted(&rt, &parts, &[POINTS, springs], trap)
}
