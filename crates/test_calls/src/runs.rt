//! Runs of programs over tables.
use crate::{Call, End, assert_end, done};
use std::test::Fail;

/// The parts of a program's text, its tables, and what is put out: the output, or the note.
pub type Row = (
    &'static [&'static str],
    &'static [&'static str],
    &'static str,
);

/// Points alone, in lines 1 to 4.
pub const ONE_SET: &str = "element P
  x : int(0);
end
extern points : set{P};
";

/// A table of two such points.
pub const ONE_AND_TWO: &str = "x\n1\n2\n";

/// The names of as many tables as there may be.
static TABLES: [&str; 8] = [
    "0.csv", "1.csv", "2.csv", "3.csv", "4.csv", "5.csv", "6.csv", "7.csv",
];

/// Asserts how a command, `run` or `plain`, ends of a program in these parts over tables.
pub fn assert_by(
    rt: &impl AllocGlobal,
    command: &str,
    parts: &[&str],
    tables: &[&str],
    end: End<'_>,
) -> Result<(), Fail> {
    let program = parts.concat(rt.alloc())?;
    let mut words = Vec::new(rt.alloc());
    words.push(command)?;
    words.push("a.sim")?;
    let mut files = Vec::new(rt.alloc());
    files.push(("a.sim", program.as_bytes()))?;
    for (name, table) in TABLES.iter().zip(tables) {
        words.push(*name)?;
        files.push((*name, table.as_bytes()))?;
    }
    assert_end(rt, program.as_str(), Call::of(&words, &files), end)
}

/// Asserts how the run of a program in these parts ends over tables.
pub fn assert_run(
    rt: &impl AllocGlobal,
    parts: &[&str],
    tables: &[&str],
    end: End<'_>,
) -> Result<(), Fail> {
    assert_by(rt, "run", parts, tables, end)
}

/// Asserts what programs print.
pub fn assert_printed(rt: &impl AllocGlobal, rows: &[Row]) -> Result<(), Fail> {
    for (parts, tables, out) in rows {
        assert_run(rt, parts, tables, done(out))?;
    }
    Ok(())
}
