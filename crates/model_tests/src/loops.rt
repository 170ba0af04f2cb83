//! Loops, branches and conditions of the main procedure, and how many turns loops may take.
use simit_run::Status;
use std::test::Fail;
use test_calls::{ONE_AND_TWO, ONE_SET, Row, assert_printed, assert_run, done, ended};

/// Programs, their tables, and what is printed.
static PRINTED: [Row; 5] = [
    (
        &[
            ONE_SET,
            "proc main
  if 1 <= 1 and 1 >= 1 and not 1 != 1 and 2 > 1 and not 1 > 1 and not 1 < 1
    points.x = 10*points.x;
  else
    points.x = -points.x;
  end
end
",
        ],
        &[ONE_AND_TWO],
        "set points\nx\n10\n20\n",
    ),
    (
        &[
            ONE_SET,
            "proc main
  var n = 3;
  var c = 0;
  for i in 0:n
    n = n + 1;
    c = c + 1;
  end
  points.x = n*points.x;
  assert c == 3;
end
",
        ],
        &[ONE_AND_TWO],
        "set points\nx\n6\n12\n",
    ),
    (
        &[
            ONE_SET,
            "proc main
  var n = 27;
  var c = 0;
  while n != 1
    var h = quot(n, 2, 0);
    if 2*h == n
      n = h;
    else
      n = 3*n + 1;
    end
    c = c + 1;
  end
  points.x = c*points.x;
end
",
        ],
        &[ONE_AND_TWO],
        "set points\nx\n111\n222\n",
    ),
    (
        &[
            ONE_SET,
            "proc main
  var a = 0;
  var c = 0;
  while a < 10
    var b = 0;
    while b < a
      b = b + 1;
      c = c + 1;
    end
    a = a + 1;
  end
  points.x = c*points.x;
end
",
        ],
        &[ONE_AND_TWO],
        "set points\nx\n45\n90\n",
    ),
    (
        &[
            "proc main
  var a = 1;
  while a < 10
    a = a + 1;
  end
  assert a == 10;
end
",
        ],
        &[],
        "",
    ),
];

#[test]
fn loops_and_what_they_print(rt: HostRuntime) -> Result<(), Fail> {
    assert_printed(&rt, &PRINTED)
}

/// Statements, and how the run ends in which they are the main procedure: the turns of all loops count.
#[test]
fn at_most_100000_turns(rt: HostRuntime) -> Result<(), Fail> {
    let spent = ended(Status::Spent, "spent: 100000 turns\n");
    for (statement, end) in [
        ("for i in 0:100000 end", done("")),
        ("for i in 0:100001 end", spent),
        ("for i in 0:250 for j in 0:399 end end", done("")),
        ("for i in 0:250 for j in 0:400 end end", spent),
        ("while 1 == 1 end", spent),
        ("\nwhile 1 == 1\nend\n", spent),
        ("\nfor i in 0:100001\nend\n", spent),
    ] {
        assert_run(&rt, &["proc main ", statement, " end"], &[], end)?;
    }
    Ok(())
}
