//! Functions of maps: arguments, results, and the places that an element writes.
use std::test::Fail;
use test_calls::{Row, assert_printed};
use worked_texts::{POINTS, POINTS_AND_SPRINGS, SPRINGS, SUMMED};

/// Programs, their tables, and what is printed.
static PRINTED: [Row; 5] = [
    (
        &[SUMMED],
        &[POINTS, SPRINGS],
        "set points\nx,f\n0,2\n10,3\n25,0\nset springs\np0,p1,k\n0,1,2\n1,2,3\n",
    ),
    (
        &[
            POINTS_AND_SPRINGS,
            "func e(a : int(0), b : int(0), c : int(0), d : int(0), i : int(0), j : int(0), k : int(0), l : int(0), s : Spring) -> (r : vector[springs](int(0)))
  r(s) = ((((((((a*10 + b)*10 + c)*10 + d)*10 + i)*10 + j)*10 + k)*10 + l)*10 + s.k);
end
proc main
  springs.k = map e(1, 2, 3, 4, 5, 6, 7, 8) to springs reduce +;
end
",
        ],
        &[POINTS, SPRINGS],
        "set points\nx,f\n0,0\n10,0\n25,0\nset springs\np0,p1,k\n0,1,123456782\n1,2,123456783\n",
    ),
    (
        &[
            POINTS_AND_SPRINGS,
            "func two(s : Spring, p : (Point*2)) -> (f : vector[points](int(0)), h : vector[points](int(0)))
  f(p(0)) = s.k;
  h(p(1)) = 10*s.k;
  f(p(1)) = 1;
end
proc main
  points.x, points.f = map two to springs reduce +;
  points.x, points.f = map two to springs reduce +;
end
",
        ],
        &[POINTS, SPRINGS],
        "set points\nx,f\n2,0\n4,20\n1,30\nset springs\np0,p1,k\n0,1,2\n1,2,3\n",
    ),
    (
        &[
            POINTS_AND_SPRINGS,
            "func l(s : Spring, p : (Point*2)) -> (k : vector[springs](int(0)))
  k(s) = p(1).x - p(0).x;
end
proc main
  springs.k = map l to springs reduce +;
end
",
        ],
        &[POINTS, SPRINGS],
        "set points\nx,f\n0,0\n10,0\n25,0\nset springs\np0,p1,k\n0,1,10\n1,2,15\n",
    ),
    (
        &[
            POINTS_AND_SPRINGS,
            "func sq(p : Point) -> (f : vector[points](int(0)))
  f(p) = p.x*p.x;
end
proc main
  points.f = map sq to points reduce +;
end
",
        ],
        &[POINTS, SPRINGS],
        "set points\nx,f\n0,0\n10,100\n25,625\nset springs\np0,p1,k\n0,1,2\n1,2,3\n",
    ),
];

#[test]
fn maps_and_what_they_give(rt: HostRuntime) -> Result<(), Fail> {
    assert_printed(&rt, &PRINTED)
}
