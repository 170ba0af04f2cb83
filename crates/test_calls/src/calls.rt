//! Calls of `run` over memory, and how they end.
use main_hosts::main_hosts;
use simit_io::{MemFile, MemInputs, MemSink};
use simit_run::{Status, run};
use std::alloc::{AllocError, Global};
use std::test::Fail;
use vocabulary::{L, Text};

/// The number of no call.
pub const NEVER: u64 = u64::MAX;

/// The words of a call and its files, and what its inputs and sinks do.
#[derive(Clone, Copy)]
pub struct Call<'a> {
    pub words: &'a [&'a str],
    pub files: &'a [(&'a str, &'a [u8])],
    /// The most bytes that a take gives, of which the inputs give at least one.
    pub taken: usize,
    /// The most bytes that a put takes, of which the sinks take at least one.
    pub put: usize,
    /// The first of the inputs' calls that fail.
    pub inputs: u64,
    /// The one put of the output that fails.
    pub out: u64,
    /// The one put of the note that fails.
    pub notes: u64,
}

impl<'a> Call<'a> {
    /// A call in which nothing fails.
    pub fn of(words: &'a [&'a str], files: &'a [(&'a str, &'a [u8])]) -> Call<'a> {
        Call {
            words,
            files,
            taken: 4096,
            put: 4096,
            inputs: NEVER,
            out: NEVER,
            notes: NEVER,
        }
    }
}

/// The files of a program over points and springs.
pub fn files_of<'a>(
    program: &'a [u8],
    points: &'a [u8],
    springs: &'a [u8],
) -> [(&'a str, &'a [u8]); 3] {
    [
        ("a.sim", program),
        ("points.csv", points),
        ("springs.csv", springs),
    ]
}

/// How a call ends.
#[derive(Clone, Copy)]
pub struct End<'a> {
    pub status: Status,
    pub out: &'a [u8],
    pub note: &'a [u8],
    /// How many faults the inputs counted.
    pub faults: u64,
}

/// The end of a call with this output.
pub fn done(out: &str) -> End<'_> {
    End {
        status: Status::Done,
        out: out.as_bytes(),
        note: b"",
        faults: 0,
    }
}

/// The end of a call without an output, in which no read failed.
pub fn ended(status: Status, note: &str) -> End<'_> {
    End {
        status,
        out: b"",
        note: note.as_bytes(),
        faults: 0,
    }
}

/// The end of a call that is refused.
pub fn refused(note: &str) -> End<'_> {
    ended(Status::Refused, note)
}

fn strings(alloc: Global, words: &[&str]) -> Result<Vec<String>, AllocError> {
    let mut strings = Vec::new(alloc);
    for word in words {
        strings.push(String::from_str(alloc, word)?)?;
    }
    Ok(strings)
}

/// Inputs over the files of a call.
fn inputs_of(alloc: Global, call: Call<'_>) -> Result<MemInputs, AllocError> {
    let mut files = Vec::new(alloc);
    for (name, bytes) in call.files {
        let name = Text::of(String::from_str(alloc, name)?);
        let bytes = L::of(bytes.to_vec(alloc)?);
        files.push(MemFile { name, bytes })?;
    }
    let failing: Vec<u64> = (call.inputs..call.inputs.saturating_add(9)).collect(alloc)?;
    Ok(MemInputs::new(L::of(files), L::of(failing), call.taken.max(1)))
}

/// A sink whose put of a number fails, and of which a put takes at most so many bytes.
fn sink(alloc: Global, failing: u64, put: usize) -> Result<MemSink, Fail> {
    let failing = L::of(vec![in alloc; failing]?);
    Ok(MemSink::new(alloc, 1 << 24, failing, put.max(1))?)
}

/// Asserts which bytes a call put.
fn same_bytes(what: &str, case: &str, put: &[u8], wanted: &[u8]) -> Result<(), Fail> {
    if put == wanted {
        Ok(())
    } else {
        Err(Fail::new(format_args!("{what} of {case}: {put:?}, not {wanted:?}")))
    }
}

/// Asserts how a call ends.
pub fn assert_end(
    rt: &impl AllocGlobal,
    case: &str,
    call: Call<'_>,
    end: End<'_>,
) -> Result<(), Fail> {
    let alloc = rt.alloc();
    let words = strings(alloc, call.words)?;
    let mut inputs = inputs_of(alloc, call)?;
    let mut out = sink(alloc, call.out, call.put)?;
    let mut notes = sink(alloc, call.notes, call.put)?;
    let hosts = main_hosts(alloc)?;
    let status = run(alloc, &words, &mut inputs, &mut out, &mut notes, &hosts);
    if status != end.status {
        let wanted = end.status;
        return Err(Fail::new(format_args!("status of {case}: {status:?}, not {wanted:?}")));
    }
    same_bytes("output", case, out.bytes(), end.out)?;
    same_bytes("note", case, notes.bytes(), end.note)?;
    let (counted, wanted) = (inputs.fault_count(), end.faults);
    if counted != wanted {
        return Err(Fail::new(format_args!("faults of {case}: {counted}, not {wanted}")));
    }
    Ok(())
}

/// The output of a call that is done.
pub fn output_of(rt: &impl AllocGlobal, call: Call<'_>) -> Result<Vec<u8>, Fail> {
    let alloc = rt.alloc();
    let words = strings(alloc, call.words)?;
    let mut inputs = inputs_of(alloc, call)?;
    let mut out = sink(alloc, call.out, call.put)?;
    let mut notes = sink(alloc, call.notes, call.put)?;
    let hosts = main_hosts(alloc)?;
    let status = run(alloc, &words, &mut inputs, &mut out, &mut notes, &hosts);
    if status != Status::Done || !notes.bytes().is_empty() {
        return Err(Fail::new("a call that isn't done"));
    }
    Ok(out.bytes().to_vec(alloc)?)
}

/// Asserts how `run a.sim points.csv` ends over these two files.
pub fn assert_over_points(
    rt: &impl AllocGlobal,
    case: &str,
    program: &[u8],
    points: &[u8],
    end: End<'_>,
) -> Result<(), Fail> {
    let files = [("a.sim", program), ("points.csv", points)];
    assert_end(
        rt,
        case,
        Call::of(&["run", "a.sim", "points.csv"], &files),
        end,
    )
}
