//! Commands with their options: turns, the one set that is put out, the plain run, plans and made jobs.
use simit_run::Status;
use std::process::Abort;
use std::test::Fail;
use test_calls::{Call, assert_end, done, ended, files_of};
use worked_texts::{HEAD, POINTS, PULL, PULLED, SPRINGS};

const USAGE: &str = "usage: simit run|plan|plain PROGRAM SETS.. or simit make SEED N\n";

/// The springs of the output of the pull.
const PULLED_SPRINGS: &str = "set springs\np0,p1,k\n0,1,2\n1,2,3\n";

/// Words, and how their call ends over the pull's files: what is put out, or the note.
type Row = (&'static [&'static str], Status, &'static str);

/// Which set is put out, and which options a command has.
static SETS: [Row; 12] = [
    (
        &["run", "a.sim", "points.csv", "springs.csv"],
        Status::Done,
        PULLED,
    ),
    (
        &["plain", "a.sim", "points.csv", "springs.csv"],
        Status::Done,
        PULLED,
    ),
    (
        &[
            "run",
            "a.sim",
            "points.csv",
            "springs.csv",
            "--only",
            "springs",
        ],
        Status::Done,
        PULLED_SPRINGS,
    ),
    (
        &[
            "plain",
            "--only=springs",
            "a.sim",
            "points.csv",
            "springs.csv",
        ],
        Status::Done,
        PULLED_SPRINGS,
    ),
    (
        &[
            "run",
            "a.sim",
            "points.csv",
            "springs.csv",
            "--only",
            "points",
        ],
        Status::Done,
        "set points\nx,f\n0,20\n10,25\n25,-45\n",
    ),
    // the set is looked for before the files are counted, and after the types
    (
        &["run", "a.sim", "--only", "nodes"],
        Status::Refused,
        "refused: no set nodes\n",
    ),
    (
        &[
            "plain",
            "a.sim",
            "points.csv",
            "springs.csv",
            "--only=point",
        ],
        Status::Refused,
        "refused: no set point\n",
    ),
    (
        &["run", "points.csv", "--only", "nodes"],
        Status::Refused,
        "refused: line 1, token 0: syntax\n",
    ),
    (
        &["run", "a.sim", "points.csv"],
        Status::Refused,
        "refused: 1 files for 2 sets\n",
    ),
    (
        &[
            "run",
            "--workers",
            "64",
            "--words=0",
            "a.sim",
            "points.csv",
            "springs.csv",
        ],
        Status::Done,
        PULLED,
    ),
    (
        &["plan", "a.sim", "points.csv", "springs.csv"],
        Status::Refused,
        "refused: not yet\n",
    ),
    (
        &["plan", "nosuch.sim"],
        Status::Refused,
        "refused: not yet\n",
    ),
];

/// Words that are no command.
static NO_COMMANDS: [Row; 6] = [
    (&["run", "a.sim", "--workers", "0"], Status::Refused, USAGE),
    (
        &["run", "a.sim", "--turns", "5", "--turns", "6"],
        Status::Refused,
        USAGE,
    ),
    (
        &["plain", "a.sim", "--workers", "2"],
        Status::Refused,
        USAGE,
    ),
    (&["make", "7"], Status::Refused, USAGE),
    (&["make", "7", "0"], Status::Refused, USAGE),
    (&["make", "7", "524289"], Status::Refused, USAGE),
];

/// Made jobs.
static MADE: [Row; 4] = [
    (
        &["make", "7", "3"],
        Status::Done,
        "points 3 springs 6 weighted -98\n",
    ),
    (
        &["make", "0", "1"],
        Status::Done,
        "points 1 springs 2 weighted 0\n",
    ),
    (
        &["make", "--workers=16", "7", "3"],
        Status::Done,
        "points 3 springs 6 weighted -98\n",
    ),
    (
        &["make", "7", "2049"],
        Status::Limit,
        "limit: dense words over 4194304\n",
    ),
];

/// Asserts how calls end over the files of a program.
fn assert_rows(rt: &(impl Abort + AllocGlobal), program: &[u8], rows: &[Row]) -> Result<(), Fail> {
    let files = files_of(program, POINTS.as_bytes(), SPRINGS.as_bytes());
    for (words, status, text) in rows {
        let end = match *status {
            Status::Done => done(text),
            status => ended(status, text),
        };
        let case = format!(in rt.alloc(); "{words:?}")?;
        assert_end(rt, case.as_str(), Call::of(words, &files), end)?;
    }
    Ok(())
}

#[test]
fn commands_over_points_and_springs(rt: HostRuntime) -> Result<(), Fail> {
    let program = format!(in rt.alloc(); "{HEAD}{PULL}")?;
    assert_rows(&rt, program.as_bytes(), &SETS)?;
    assert_rows(&rt, program.as_bytes(), &NO_COMMANDS)
}

#[test]
fn made_jobs(rt: HostRuntime) -> Result<(), Fail> {
    assert_rows(&rt, b"", &MADE)
}

/// Turns of a loop without an end, by both engines.
static ENDLESS: [Row; 4] = [
    (
        &["run", "a.sim", "--turns", "5"],
        Status::Spent,
        "spent: 5 turns\n",
    ),
    (
        &["plain", "a.sim", "--turns=5"],
        Status::Spent,
        "spent: 5 turns\n",
    ),
    (
        &["run", "a.sim", "--turns", "0"],
        Status::Spent,
        "spent: 0 turns\n",
    ),
    (&["run", "a.sim"], Status::Spent, "spent: 100000 turns\n"),
];

/// Turns of a loop of five.
static FIVE: [Row; 4] = [
    (&["run", "a.sim", "--turns", "5"], Status::Done, ""),
    (&["plain", "a.sim", "--turns", "5"], Status::Done, ""),
    (
        &["run", "a.sim", "--turns", "4"],
        Status::Spent,
        "spent: 4 turns\n",
    ),
    (
        &["plain", "a.sim", "--turns", "4"],
        Status::Spent,
        "spent: 4 turns\n",
    ),
];

#[test]
fn turns_are_those_of_the_words(rt: HostRuntime) -> Result<(), Fail> {
    assert_rows(&rt, b"proc main\nwhile 1 == 1\nend\nend", &ENDLESS)?;
    assert_rows(&rt, b"proc main\nfor i in 0:5\nend\nend", &FIVE)
}
