//! Command words, the names of files, and the numbers of the statuses.
use simit_run::Status;
use std::test::Fail;
use test_calls::{Call, assert_end, done, ended};

const PROGRAM: &[u8] =
    b"element Point x: int(0); end extern points: set{Point}; proc main points.x = points.x + points.x; end";

const POINTS: &[u8] = b"x\n1\n";

/// Files that are there, also of names that words of no command have.
static FILES: [(&str, &[u8]); 11] = [
    ("", PROGRAM),
    ("-", PROGRAM),
    ("-a.sim", PROGRAM),
    ("a.sim", PROGRAM),
    ("run", PROGRAM),
    (" -a", PROGRAM),
    ("dir/a b.sim", PROGRAM),
    ("points.csv", POINTS),
    ("a--b", POINTS),
    ("caf\u{e9}\n", POINTS),
    ("\u{0}", POINTS),
];

const USAGE: &str = "usage: simit run|plan|plain PROGRAM SETS.. or simit make SEED N\n";

/// Words, the status of the call, and its note line.
static WORDS: [(&[&str], Status, &str); 29] = [
    (&[], Status::Refused, USAGE),
    (&[""], Status::Refused, USAGE),
    (&["run"], Status::Refused, USAGE),
    (&["Run", "a.sim", "points.csv"], Status::Refused, USAGE),
    (&["run ", "a.sim", "points.csv"], Status::Refused, USAGE),
    (&["", "a.sim", "points.csv"], Status::Refused, USAGE),
    (&["a.sim", "run", "points.csv"], Status::Refused, USAGE),
    (&["run", "", "points.csv"], Status::Refused, USAGE),
    (&["run", "-a.sim", "points.csv"], Status::Refused, USAGE),
    (&["run", "a.sim", ""], Status::Refused, USAGE),
    (&["run", "a.sim", "-points.csv"], Status::Refused, USAGE),
    (&["run", "a.sim", "points.csv", ""], Status::Refused, USAGE),
    // any other words name files
    (&["run", "a.sim", "points.csv"], Status::Done, ""),
    (&["run", "run", "a--b"], Status::Done, ""),
    (&["run", "-", "points.csv"], Status::Done, ""),
    (&["run", "--", "-a.sim", "points.csv"], Status::Done, ""),
    (&["run", "a.sim", "--", "points.csv"], Status::Done, ""),
    (&["run", " -a", "caf\u{e9}\n"], Status::Done, ""),
    (&["run", "dir/a b.sim", "\u{0}"], Status::Done, ""),
    (
        &["run", "a", "points.csv"],
        Status::ReadFault,
        "read fault: a\n",
    ),
    (&["run", ".", "b"], Status::ReadFault, "read fault: .\n"),
    (
        &["run", "a.sim", "b \u{e9}"],
        Status::ReadFault,
        "read fault: b \u{e9}\n",
    ),
    // another number of tables than of sets, of which none need be there
    (
        &["run", "a.sim"],
        Status::Refused,
        "refused: 0 files for 1 sets\n",
    ),
    (
        &["run", "a.sim", "points.csv", "c"],
        Status::Refused,
        "refused: 2 files for 1 sets\n",
    ),
    (
        &[
            "run", "a.sim", "b", "c", "d", "e", "f", "g", "h", "i", "j", "k",
        ],
        Status::Refused,
        "refused: 10 files for 1 sets\n",
    ),
    (
        &["run", "a.sim", "points.csv", "-", "b"],
        Status::Refused,
        "refused: 3 files for 1 sets\n",
    ),
    (
        &["run", "a.sim", "-"],
        Status::Refused,
        "refused: - row 0, column 0: header\n",
    ),
    // one file as the program and as the table
    (
        &["run", "a.sim", "a.sim"],
        Status::Refused,
        "refused: a.sim row 0, column 0: header\n",
    ),
    (
        &["run", "points.csv", "points.csv"],
        Status::Refused,
        "refused: line 1, token 0: syntax\n",
    ),
];

#[test]
fn words_and_how_their_calls_end(rt: HostRuntime) -> Result<(), Fail> {
    for (words, status, note) in &WORDS {
        let end = match *status {
            Status::Done => done("set points\nx\n2\n"),
            status => ended(status, note),
        };
        let case = format!(in rt.alloc(); "{words:?}")?;
        assert_end(&rt, case.as_str(), Call::of(words, &FILES), end)?;
    }
    Ok(())
}

static NUMBERS: [(Status, u8); 8] = [
    (Status::Done, 0),
    (Status::Memory, 1),
    (Status::Refused, 2),
    (Status::ReadFault, 3),
    (Status::WriteFault, 4),
    (Status::Trap, 5),
    (Status::Spent, 6),
    (Status::Limit, 7),
];

#[test]
fn statuses_have_numbers(rt: HostRuntime) {
    for (status, number) in &NUMBERS {
        assert_eq!(rt; status.number(), *number, "{status:?}");
    }
}
