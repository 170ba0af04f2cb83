//! The limits on files, on the rows of a table and on dense words, each at its last value and one past it.
use simit_run::Status;
use std::test::Fail;
use test_calls::{assert_over_points, assert_run, done, ended, refused};
use worked_texts::{POINTS_AND_SPRINGS, STIFF};

const PROGRAM: &[u8] =
    b"element Point x: int(0); end extern points: set{Point}; proc main points.x = points.x; end";

#[test]
fn at_most_1048576_bytes_of_a_program(rt: HostRuntime) -> Result<(), Fail> {
    let limit = ended(Status::Limit, "limit: a.sim is over 1048576 bytes\n");
    for (text, size, end) in [
        (PROGRAM, 1_048_576, done("set points\nx\n1\n")),
        (PROGRAM, 1_048_577, limit),
        (
            b"",
            1_048_576,
            refused("refused: line 1, token 0: syntax\n"),
        ),
        (b"", 1_048_577, limit),
        (b"", 3_000_000, limit),
    ] {
        let mut program = text.to_vec(rt.alloc())?;
        program.resize(size, b'%')?;
        assert_over_points(&rt, "a filled program", &program, b"x\n1\n", end)?;
    }
    Ok(())
}

#[test]
fn at_most_65536_tokens(rt: HostRuntime) -> Result<(), Fail> {
    let too_many = refused("refused: line 1, byte 65550: too many tokens\n");
    for (after, end) in [
        ("end", refused("refused: line 1: unknown name\n")),
        ("end  end", too_many),
        (
            "end  end?",
            refused("refused: line 1, byte 65550: bad byte\n"),
        ),
    ] {
        let statements = "a=b;".repeat(rt.alloc(), 16_383)?;
        let program = format!(in rt.alloc(); "proc main {statements}{after}")?;
        assert_over_points(&rt, after, program.as_bytes(), b"x\n1\n", end)?;
    }
    Ok(())
}

#[test]
fn at_most_67108864_bytes_of_a_table(rt: HostRuntime) -> Result<(), Fail> {
    let limit = ended(Status::Limit, "limit: points.csv is over 67108864 bytes\n");
    for (size, end) in [
        (67_108_864, done("set points\nx\n1\n")),
        (67_108_865, limit),
    ] {
        let mut points = b"x\n1\n".to_vec(rt.alloc())?;
        points.resize(size, b'\n')?;
        assert_over_points(&rt, "a filled table", PROGRAM, &points, end)?;
    }
    Ok(())
}

#[test]
fn at_most_1048576_rows(rt: HostRuntime) -> Result<(), Fail> {
    let rows = "7\n".repeat(rt.alloc(), 1_048_576)?;
    let out = format!(in rt.alloc(); "set points\nx\n{rows}")?;
    for (count, end) in [
        (1_048_576, done(out.as_str())),
        (
            1_048_577,
            refused("refused: points.csv: more than 1048576 rows\n"),
        ),
    ] {
        let rows = "7\n".repeat(rt.alloc(), count)?;
        let points = format!(in rt.alloc(); "x\n{rows}")?;
        assert_over_points(&rt, "rows", PROGRAM, points.as_bytes(), end)?;
    }
    Ok(())
}

/// Statements after that of a matrix over points without springs. A variable is counted once, and each value of an
/// expression beside the variables.
#[test]
fn at_most_4194304_dense_words(rt: HostRuntime) -> Result<(), Fail> {
    for (count, statement, is_few) in [
        (2048, "points.f = K*points.x;", true),
        (2049, "points.f = K*points.x;", false),
        (2049, "assert 1 == 2;", false),
        (1024, "points.f = (K' + 2*K)*points.x;", true),
        (1025, "points.f = (K' + 2*K)*points.x;", false),
    ] {
        let main = "proc main var K = map stiff to springs reduce +; ";
        let program = [POINTS_AND_SPRINGS, STIFF, main, statement, " end"];
        let rows = "1,0\n".repeat(rt.alloc(), count)?;
        let points = format!(in rt.alloc(); "x,f\n{rows}")?;
        let out = format!(in rt.alloc(); "set points\n{points}set springs\np0,p1,k\n")?;
        let end = if is_few {
            done(out.as_str())
        } else {
            ended(Status::Limit, "limit: dense words over 4194304\n")
        };
        assert_run(&rt, &program, &[points.as_str(), "p0,p1,k\n"], end)?;
    }
    Ok(())
}
