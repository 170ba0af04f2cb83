//! Scales: numbers that are rescaled and divided.
use std::test::Fail;
use test_calls::{Row, assert_printed};

/// Programs, their tables, and what is printed.
static PRINTED: [Row; 5] = [
    (
        &[
            "element Q
  x : int(2);
  y : int(1);
end
extern q : set{Q};
proc main
  q.y = rescale(q.x, 1) + rescale(q.x, 1);
end
",
        ],
        &["x,y\n0.05,0\n-0.05,0\n0.04,0\n"],
        "set q\nx,y\n0.05,0.0\n-0.05,-0.2\n0.04,0.0\n",
    ),
    (
        &[
            "element Q
  x : int(2);
  y : int(2);
end
extern q : set{Q};
func quo(e : Q) -> (v : vector[q](int(2)))
  v(e) = quot(e.x, 3.00, 2);
end
proc main
  q.y = map quo to q reduce +;
end
",
        ],
        &["x,y\n-1.00,0\n1.00,0\n2.00,0\n-2.00,0\n0.00,0\n"],
        "set q\nx,y\n-1.00,-0.34\n1.00,0.33\n2.00,0.66\n-2.00,-0.67\n0.00,0.00\n",
    ),
    (
        &[
            "element Q
  x : int(18);
  y : int(18);
end
extern q : set{Q};
proc main
  q.y = rescale(q.x .* q.x, 18);
end
",
        ],
        &["x,y\n0.000000003,0\n1,0\n-0.000000001000000001,0\n"],
        "set q\nx,y\n0.000000003000000000,0.000000000000000009\n1.000000000000000000,-0.000000000000000006\n-0.000000001000000001,0.000000000000000001\n",
    ),
    // floors of other scales, quotients and roots
    (
        &[
            "element Q
  x : int(2);
  a : int(1);
  b : int(1);
  c : int(1);
  r : int(2);
end
extern q : set{Q};
func root(e : Q) -> (r : vector[q](int(2)))
  r(e) = isqrt(e.x*e.x, 2) + isqrt(e.r, 2);
end
proc main
  q.a = rescale(q.x, 1);
  q.b = rescale(q.x + q.x, 1);
  q.c = rescale(q.x, 1) + rescale(q.x, 1);
  q.r = map root to q reduce +;
end
",
        ],
        &["x,a,b,c,r\n-0.15,0,0,0,2\n0.05,0,0,0,0.01\n"],
        "set q\nx,a,b,c,r\n-0.15,-0.2,-0.3,-0.4,1.56\n0.05,0.0,0.1,0.0,0.15\n",
    ),
    (
        &[
            "proc main
  assert rescale(-0.15, 1) == -0.2 and rescale(0.05 + 0.05, 1) == 0.1;
  assert rescale(0.05, 1) + rescale(0.05, 1) == 0.0;
  assert quot(-1.00, 3.00, 2) == -0.34 and isqrt(2.00, 2) == 1.41;
end
",
        ],
        &[],
        "",
    ),
];

#[test]
fn scales_and_what_they_print(rt: HostRuntime) -> Result<(), Fail> {
    assert_printed(&rt, &PRINTED)
}
