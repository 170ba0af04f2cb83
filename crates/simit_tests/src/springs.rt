//! Programs over points and springs: what they print, and the tables that are none of their sets.
use std::process::Abort;
use std::test::Fail;
use test_calls::{Call, End, assert_end, done, files_of, refused};
use worked_texts::{HEAD, POINTS, PULL, PULLED, SPRINGS};

/// Asserts how `run a.sim points.csv springs.csv` ends over a program in two parts and two tables, by takes and puts
/// of so many bytes.
fn assert_over_springs(
    rt: &(impl Abort + AllocGlobal),
    most: usize,
    program: (&str, &str),
    tables: (&str, &str),
    end: End<'_>,
) -> Result<(), Fail> {
    let (head, rest) = program;
    let program = format!(in rt.alloc(); "{head}{rest}")?;
    let (points, springs) = (tables.0.as_bytes(), tables.1.as_bytes());
    let files = files_of(program.as_bytes(), points, springs);
    let call = Call {
        taken: most,
        put: most,
        ..Call::of(&["run", "a.sim", "points.csv", "springs.csv"], &files)
    };
    assert_end(rt, rest, call, end)
}

#[test]
fn springs_pull_by_takes_and_puts_of_each_size(rt: HostRuntime) -> Result<(), Fail> {
    for most in [1, 3, 4096] {
        assert_over_springs(&rt, most, (HEAD, PULL), (POINTS, SPRINGS), done(PULLED))?;
    }
    Ok(())
}

/// The tables of points and of springs, a main procedure, and what is printed.
static PRINTED: [(&str, &str, &str, &str); 13] = [
    (
        "x,f",
        "p0,p1,k",
        PULL,
        "set points\nx,f\nset springs\np0,p1,k\n",
    ),
    (
        "x,f\n0,7\n10,8",
        "p0,p1,k",
        PULL,
        "set points\nx,f\n0,0\n10,0\nset springs\np0,p1,k\n",
    ),
    // four contributions that wrap round to zero
    (
        "x,f\n0,1\n10,2\n",
        "p0,p1,k\n0,1,4611686018427387904\n0,1,4611686018427387904\n0,1,4611686018427387904\n0,1,4611686018427387904\n",
        "proc main points.f = map drop to springs reduce +; end",
        "set points\nx,f\n0,0\n10,0\nset springs\np0,p1,k\n0,1,4611686018427387904\n0,1,4611686018427387904\n0,1,4611686018427387904\n0,1,4611686018427387904\n",
    ),
    // a doubled spring, one from a point to itself, one exchanged, and a point alone
    (
        "x,f\n0,1\n10,1\n25,1\n7,1\n",
        "p0,p1,k\n0,1,2\n0,1,2\n2,2,5\n1,0,1\n",
        PULL,
        "set points\nx,f\n0,50\n10,-50\n25,0\n7,0\nset springs\np0,p1,k\n0,1,2\n0,1,2\n2,2,5\n1,0,1\n",
    ),
    (
        "x,f\n0,1\n10,1\n25,1\n7,1\n",
        "p0,p1,k\n0,1,2\n0,1,2\n2,2,5\n1,0,1\n",
        "proc main points.f = map drop to springs reduce +; end",
        "set points\nx,f\n0,4\n10,1\n25,5\n7,0\nset springs\np0,p1,k\n0,1,2\n0,1,2\n2,2,5\n1,0,1\n",
    ),
    (
        POINTS,
        "p0,p1,k\n1,1,5\n",
        "proc main points.f = map both to springs reduce +; end",
        "set points\nx,f\n0,0\n10,10\n25,0\nset springs\np0,p1,k\n1,1,5\n",
    ),
    (
        POINTS,
        "p0,p1,k\n0,1,5\n",
        "proc main points.f = map compute to springs reduce +; end",
        "set points\nx,f\n0,36\n10,-31\n25,0\nset springs\np0,p1,k\n0,1,5\n",
    ),
    (
        "x,f\n1,2\n3,4\n",
        "p0,p1,k\n0,1,5\n",
        "proc main points.x = map nothing to springs reduce +; end",
        "set points\nx,f\n0,2\n0,4\nset springs\np0,p1,k\n0,1,5\n",
    ),
    // maps and assignments one after the other, of either set
    (
        POINTS,
        SPRINGS,
        "proc main points.f = map pull to springs reduce +; points.x = map drop to springs reduce +; end",
        "set points\nx,f\n2,20\n3,25\n0,-45\nset springs\np0,p1,k\n0,1,2\n1,2,3\n",
    ),
    (
        POINTS,
        SPRINGS,
        "proc main points.x = map drop to springs reduce +; points.f = map pull to springs reduce +; end",
        "set points\nx,f\n2,2\n3,-11\n0,9\nset springs\np0,p1,k\n0,1,2\n1,2,3\n",
    ),
    (
        POINTS,
        SPRINGS,
        "proc main points.f = map pull to springs reduce +; points.x = points.x + 2*points.f; end",
        "set points\nx,f\n40,20\n60,25\n-65,-45\nset springs\np0,p1,k\n0,1,2\n1,2,3\n",
    ),
    (
        POINTS,
        SPRINGS,
        "proc main springs.k = springs.k + springs.k .* springs.k; points.f = map drop to springs reduce +; end",
        "set points\nx,f\n0,6\n10,12\n25,0\nset springs\np0,p1,k\n0,1,6\n1,2,12\n",
    ),
    // a map reads the field that it replaces
    (
        "x,f\n0,100\n10,200\n25,300\n",
        SPRINGS,
        "proc main points.f = map hand_on to springs reduce +; points.f = map hand_on to springs reduce +; end",
        "set points\nx,f\n0,0\n10,2\n25,105\nset springs\np0,p1,k\n0,1,2\n1,2,3\n",
    ),
];

#[test]
fn maps_and_what_they_print(rt: HostRuntime) -> Result<(), Fail> {
    for (points, springs, main, out) in &PRINTED {
        assert_over_springs(&rt, 4096, (HEAD, main), (points, springs), done(out))?;
    }
    Ok(())
}

/// Sets, a function and a main procedure over springs of more endpoints, the table of one, and what is printed.
static ARITIES: [(&str, &str, &str); 2] = [
    (
        "extern points: set{Point}; extern springs: set{Spring}(points, points, points);
func g(s: Spring, p: (Point*3)) -> (f: vector[points](int(0)))
  f(p(0)) = s.k; f(p(1)) = 2*s.k; f(p(2)) = p(0).x + 3*p(1).x;
end
proc main points.f = map g to springs reduce +; end",
        "p0,p1,p2,k\n2,1,2,7\n",
        "set points\nx,f\n0,0\n10,14\n25,62\nset springs\np0,p1,p2,k\n2,1,2,7\n",
    ),
    (
        "extern points: set{Point};
extern springs: set{Spring}(points, points, points, points, points, points, points, points);
func g(s: Spring, p: (Point*8)) -> (f: vector[points](int(0)))
  f(p(0)) = 1; f(p(1)) = 10; f(p(2)) = 100; f(p(3)) = 1000; f(p(4)) = 10000; f(p(5)) = 100000;
  f(p(6)) = 1000000; f(p(7)) = 10000000;
end
proc main points.f = map g to springs reduce +; end",
        "p0,p1,p2,p3,p4,p5,p6,p7,k\n0,1,2,0,1,2,0,1,7\n",
        "set points\nx,f\n0,1001001\n10,10010010\n25,100100\nset springs\np0,p1,p2,p3,p4,p5,p6,p7,k\n0,1,2,0,1,2,0,1,7\n",
    ),
];

#[test]
fn springs_of_three_and_of_eight_endpoints(rt: HostRuntime) -> Result<(), Fail> {
    let types = "element Point x: int(0); f: int(0); end element Spring k: int(0); end ";
    for (rest, springs, out) in &ARITIES {
        assert_over_springs(&rt, 4096, (types, rest), (POINTS, springs), done(out))?;
    }
    Ok(())
}

/// Tables of points and of springs, and the note of the first that is refused.
static REFUSED: [(&str, &str, &str); 14] = [
    (
        SPRINGS,
        POINTS,
        "refused: points.csv row 0, column 0: header\n",
    ),
    (
        POINTS,
        POINTS,
        "refused: springs.csv row 0, column 0: header\n",
    ),
    (
        "x,f,g\n0,0,0\n",
        SPRINGS,
        "refused: points.csv row 0, column 2: header\n",
    ),
    ("\n", SPRINGS, "refused: points.csv: no header\n"),
    (POINTS, "", "refused: springs.csv: no header\n"),
    (
        POINTS,
        "p0,p1,k\n0,1\n0,3,2\n",
        "refused: springs.csv row 1: width\n",
    ),
    (
        POINTS,
        "p0,p1,k\n0,3,2\n",
        "refused: springs.csv row 1, column 1: no such endpoint\n",
    ),
    (
        "x,f\n",
        SPRINGS,
        "refused: springs.csv row 1, column 0: no such endpoint\n",
    ),
    (
        POINTS,
        "p0,p1,k\n0,1,2\n0,0.5,2\n",
        "refused: springs.csv row 2, column 1: too many decimals\n",
    ),
    (
        "x,f\n0,0\n10,\n",
        SPRINGS,
        "refused: points.csv row 2, column 1: empty cell\n",
    ),
    (
        "x,f\n 1e-5,0\n",
        SPRINGS,
        "refused: points.csv row 1, column 0: bad byte at 2\n",
    ),
    (
        "x,f\n0,1.501\n",
        SPRINGS,
        "refused: points.csv row 1, column 1: too many decimals\n",
    ),
    (
        "x,f\n9223372036854775808,0\n",
        SPRINGS,
        "refused: points.csv row 1, column 0: too large\n",
    ),
    (
        "x,f\n\n0,0\n\n\n0\n",
        SPRINGS,
        "refused: points.csv row 2: width\n",
    ),
];

#[test]
fn tables_are_refused(rt: HostRuntime) -> Result<(), Fail> {
    for (points, springs, note) in &REFUSED {
        assert_over_springs(&rt, 4096, (HEAD, PULL), (points, springs), refused(note))?;
    }
    Ok(())
}
