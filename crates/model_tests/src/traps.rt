//! Traps: the line and the element that are named, and that nothing is put out.
use simit_run::Status;
use std::test::Fail;
use test_calls::{ONE_AND_TWO, ONE_SET, Row, assert_run, ended};
use worked_texts::{POINTS, POINTS_AND_SPRINGS, RATIO};

/// Two maps after each other, each of which divides by what may be zero.
const TWO_RATIOS: &str =
    "func ratio(s : Spring, p : (Point*2)) -> (K : matrix[points,points](int(0)))
  K(p(0),p(1)) = quot(100, s.k, 0);
end
func other(s : Spring, p : (Point*2)) -> (K : matrix[points,points](int(0)))
  K(p(0),p(1)) = quot(1, s.k - 1, 0);
end
proc main
  var K = map ratio to springs reduce +;
  var M = map other to springs reduce +;
end
";

/// Programs, their tables, and the note of the trap that ends their run.
static TRAPS: [Row; 15] = [
    (
        &[
            "element Point
  x : int(2);
  f : int(3);
end
extern points : set{Point};
func ax(a : int(1), b : int(3), e : Point) -> (f : vector[points](int(3)))
  f(e) = a*e.x + b;
end
proc main
  points.f = map ax(0.5, rescale(isqrt(-1, 0), 3)) to
  points reduce +;
end
",
        ],
        &["x,f\n1.25,0\n-2,0.5\n"],
        "trap at line 10: root of a negative number\n",
    ),
    (
        &[
            POINTS_AND_SPRINGS,
            "func check(s : Spring, p : (Point*2)) -> (f : vector[points](int(0)))
  assert s.k > 0;
  f(p(0)) = s.k;
end
proc main
  points.f = points.x;

  points.f = map check to
    springs reduce +;
end
",
        ],
        &[POINTS, "p0,p1,k\n0,1,2\n1,2,-3\n2,0,4\n1,1,-5\n"],
        "trap at line 17, element 1: assertion failed\n",
    ),
    (
        &[
            ONE_SET,
            "proc main
  points.x = points.x + points.x;
  assert 1 == 1
    and 1 == 2;
end
",
        ],
        &[ONE_AND_TWO],
        "trap at line 7: assertion failed\n",
    ),
    (
        &[
            ONE_SET,
            "proc main
  if 1 == 2 and quot(1, 0, 0) == 0
    points.x = 10*points.x;
  end
end
",
        ],
        &[ONE_AND_TWO],
        "trap at line 6: division by zero\n",
    ),
    (
        &[
            POINTS_AND_SPRINGS,
            "func c(s : Spring) -> (k : vector[springs](int(0)))
  for i in 0:9
    k(s) = quot(1, s.k - i, 0);
  end
end
proc main
  springs.k = map c to springs reduce +;
end
",
        ],
        &[POINTS, "p0,p1,k\n0,1,-1\n0,1,9\n0,1,8\n"],
        "trap at line 16, element 2: division by zero\n",
    ),
    (
        &[RATIO],
        &[
            POINTS,
            "p0,p1,k\n0,1,1\n0,1,1\n0,1,1\n0,1,0\n0,1,1\n0,1,1\n0,1,1\n0,1,0\n",
        ],
        "trap at line 14, element 3: division by zero\n",
    ),
    (
        &[POINTS_AND_SPRINGS, TWO_RATIOS],
        &[POINTS, "p0,p1,k\n0,1,1\n1,2,0\n"],
        "trap at line 17, element 1: division by zero\n",
    ),
    (
        &[POINTS_AND_SPRINGS, TWO_RATIOS],
        &[POINTS, "p0,p1,k\n0,1,0\n"],
        "trap at line 17, element 0: division by zero\n",
    ),
    (
        &[
            "element Q
  x : int(2);
  y : int(2);
end
extern q : set{Q};
func root(e : Q) -> (v : vector[q](int(2)))
  v(e) = isqrt(e.x, 2);
end
proc main
  q.y = map root to q reduce +;
end
",
        ],
        &["x,y\n2.00,0\n-0.01,0\n"],
        "trap at line 10, element 1: root of a negative number\n",
    ),
    (
        &[
            ONE_SET,
            "proc main
  points.x = points.x + points.x;
  var a = 1;
  if a == 1
    a = quot(1, a - 1, 0);
  end
end
",
        ],
        &[ONE_AND_TWO],
        "trap at line 9: division by zero\n",
    ),
    (
        &[
            POINTS_AND_SPRINGS,
            "proc main
  var d = dot(points.x, points.x);
  assert d == 0;
  springs.k = d*springs.k;
  var q = quot(1, d, 0);
end
",
        ],
        &["x,f\n", "p0,p1,k\n"],
        "trap at line 14: division by zero\n",
    ),
    (
        &[
            ONE_SET,
            "proc main
  var a = 100000;
  while quot(1, a, 0) >= 0
    a = a - 1;
  end
end
",
        ],
        &[ONE_AND_TWO],
        "trap at line 7: division by zero\n",
    ),
    (
        &["proc main\n  var a = isqrt(-0.01, 2);\nend\n"],
        &[],
        "trap at line 2: root of a negative number\n",
    ),
    (
        &["proc main\n\n  assert quot(1.00, 0.00, 2) == 0.00;\nend\n"],
        &[],
        "trap at line 3: division by zero\n",
    ),
    (
        &["proc main\n  for i in 0:quot(1, 0, 0)\n  end\nend\n"],
        &[],
        "trap at line 2: division by zero\n",
    ),
];

#[test]
fn traps_and_where_they_are(rt: HostRuntime) -> Result<(), Fail> {
    for (program, tables, note) in &TRAPS {
        assert_run(&rt, program, tables, ended(Status::Trap, note))?;
    }
    Ok(())
}
