//! Faults of the inputs and of the sinks: each call that fails in turn, and that none follows it or a refusal.
use simit_run::Status;
use std::alloc::{AllocError, Global};
use std::process::Abort;
use std::test::Fail;
use test_calls::{Call, End, assert_end, done, ended, files_of, refused};
use worked_texts::{BROKEN_OFF, HEAD, POINTS, PULL, PULLED, SPRINGS};

const WORDS: [&str; 4] = ["run", "a.sim", "points.csv", "springs.csv"];

/// The same of which the last file isn't there.
const MISSING: [&str; 4] = ["run", "a.sim", "points.csv", "none"];

/// The program in which springs pull.
fn pulling(alloc: Global) -> Result<String, AllocError> {
    Ok(format!(in alloc; "{HEAD}{PULL}")?)
}

/// How many calls it takes to read bytes whole by takes of so many: an open, the takes, and one that gives nothing.
fn calls_for(bytes: &[u8], taken: usize) -> u64 {
    2 + bytes.len().div_ceil(taken.max(1)) as u64
}

#[test]
fn each_read_fails(rt: HostRuntime) -> Result<(), Fail> {
    let program = pulling(rt.alloc())?;
    let files = files_of(program.as_bytes(), POINTS.as_bytes(), SPRINGS.as_bytes());
    for taken in [1, 50, 4096] {
        let of_program = calls_for(program.as_bytes(), taken);
        let of_points = of_program.saturating_add(calls_for(POINTS.as_bytes(), taken));
        let all = of_points.saturating_add(calls_for(SPRINGS.as_bytes(), taken));
        // After the last read there is none that fails.
        for inputs in 0..=all {
            let note = if inputs < of_program {
                "read fault: a.sim\n"
            } else if inputs < of_points {
                "read fault: points.csv\n"
            } else {
                "read fault: springs.csv\n"
            };
            let case = format!(in rt.alloc(); "read {inputs} by {taken} bytes")?;
            let end = if inputs < all {
                End {
                    faults: 1,
                    ..ended(Status::ReadFault, note)
                }
            } else {
                done(PULLED)
            };
            let call = Call {
                taken,
                inputs,
                ..Call::of(&WORDS, &files)
            };
            assert_end(&rt, case.as_str(), call, end)?;
        }
    }
    Ok(())
}

/// How many bytes the table of the points has in the output. Each table is put for itself.
const OF_POINTS: usize = 33;

/// How many bytes of the output stand there before the put of a number, where a put takes at most so many.
fn bytes_before(number: usize, put: usize) -> usize {
    let put = put.max(1);
    let of_points = OF_POINTS.div_ceil(put);
    if number < of_points {
        number.saturating_mul(put)
    } else {
        OF_POINTS.saturating_add((number - of_points).saturating_mul(put))
    }
}

#[test]
fn each_put_of_the_output_fails(rt: HostRuntime) -> Result<(), Fail> {
    let program = pulling(rt.alloc())?;
    let files = files_of(program.as_bytes(), POINTS.as_bytes(), SPRINGS.as_bytes());
    let whole = PULLED.as_bytes();
    for put in [1, 4, 4096] {
        // After the last put there is none that fails.
        for number in 0..=whole.len() {
            let before = bytes_before(number, put);
            let end = if before < whole.len() {
                End {
                    out: &whole[..before],
                    ..ended(Status::WriteFault, "write fault\n")
                }
            } else {
                done(PULLED)
            };
            let case = format!(in rt.alloc(); "put {number} of {put} bytes")?;
            let call = Call {
                put,
                out: number as u64,
                ..Call::of(&WORDS, &files)
            };
            assert_end(&rt, case.as_str(), call, end)?;
        }
    }
    Ok(())
}

/// Asserts how a call ends whose note line is put byte by byte, each put failing in turn: it is cut off there.
fn assert_note_is_cut_off(
    rt: &(impl Abort + AllocGlobal),
    call: Call<'_>,
    end: End<'_>,
) -> Result<(), Fail> {
    for number in 0..=end.note.len() {
        let case = format!(in rt.alloc(); "put {number} of {:?}", end.note)?;
        let call = Call {
            put: 1,
            notes: number as u64,
            ..call
        };
        let note = &end.note[..number];
        assert_end(rt, case.as_str(), call, End { note, ..end })?;
    }
    Ok(())
}

/// A program that is refused: it assigns what is no field.
const REFUSED: &[u8] =
    b"element Point x: int(0); end extern points: set{Point}; proc main x = x; end";

/// A table that is refused: its row is too short.
const SHORT: &[u8] = b"x,f\n0\n";

#[test]
fn nothing_is_read_after_a_refusal_and_each_put_of_its_note_fails(
    rt: HostRuntime,
) -> Result<(), Fail> {
    let program = pulling(rt.alloc())?;
    let (program, points) = (program.as_bytes(), POINTS.as_bytes());
    let no_words = refused("usage: simit run|plan|plain PROGRAM SETS.. or simit make SEED N\n");
    let no_file = ended(Status::ReadFault, "read fault: none\n");
    let no_program = refused("refused: line 1: unknown name\n");
    let no_tree = refused("refused: line 5, token 25: syntax\n");
    let no_tables = refused("refused: 1 files for 2 sets\n");
    let no_set = refused("refused: points.csv row 1: width\n");
    // The calls that each file needs, and so the number of the first after them.
    let of_program = calls_for(program, 4096);
    let of_refused = calls_for(REFUSED, 4096);
    let broken_off = BROKEN_OFF.as_bytes();
    let of_broken = calls_for(broken_off, 4096);
    let of_short = of_program.saturating_add(calls_for(SHORT, 4096));
    let of_points = of_program.saturating_add(calls_for(points, 4096));
    let of_missing = of_points.saturating_add(1);
    let cases: [(&[&str], &[u8], &[u8], u64, End<'_>); 7] = [
        (&WORDS[..1], program, points, 0, no_words),
        (&["run", "none", "points.csv"], program, points, 1, no_file),
        (&WORDS, broken_off, points, of_broken, no_tree),
        (&WORDS, REFUSED, points, of_refused, no_program),
        (&WORDS[..3], program, points, of_program, no_tables),
        (&WORDS, program, SHORT, of_short, no_set),
        (&MISSING, program, points, of_missing, no_file),
    ];
    for (words, program, points, inputs, end) in cases {
        let files = files_of(program, points, SPRINGS.as_bytes());
        let call = Call {
            inputs,
            ..Call::of(words, &files)
        };
        assert_note_is_cut_off(&rt, call, end)?;
    }
    Ok(())
}

#[test]
fn each_put_of_the_notes_of_limits_and_write_faults_fails(rt: HostRuntime) -> Result<(), Fail> {
    let mut program = Vec::new(rt.alloc());
    program.resize(1_048_577, b'%')?;
    let files = files_of(&program, b"", b"");
    let end = ended(Status::Limit, "limit: a.sim is over 1048576 bytes\n");
    assert_note_is_cut_off(&rt, Call::of(&WORDS, &files), end)?;
    let program = pulling(rt.alloc())?;
    let files = files_of(program.as_bytes(), POINTS.as_bytes(), SPRINGS.as_bytes());
    let call = Call {
        out: 0,
        ..Call::of(&WORDS, &files)
    };
    assert_note_is_cut_off(&rt, call, ended(Status::WriteFault, "write fault\n"))
}
