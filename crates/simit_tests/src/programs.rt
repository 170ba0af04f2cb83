//! Programs over points: what they print, how they may be written, and that others are refused.
use std::test::Fail;
use test_calls::{assert_over_points, done, refused};

/// Statements, a table, and what is printed.
static PRINTED: [(&str, &[u8], &str); 15] = [
    ("", b"x,f\n3,4\n-1,2\n", "set s\nx,f\n3,4\n-1,2\n"),
    ("s.x = s.f;", b"x,f\n3,4\n-1,2\n", "set s\nx,f\n4,4\n2,2\n"),
    // Each statement sees what those before it did.
    ("s.x = s.f; s.f = s.x;", b"x,f\n3,4\n", "set s\nx,f\n4,4\n"),
    ("s.f = s.x; s.x = s.f;", b"x,f\n3,4\n", "set s\nx,f\n3,3\n"),
    (
        "s.x = s.x + s.f; s.x = s.x .* s.x;",
        b"x,f\n3,4",
        "set s\nx,f\n49,4\n",
    ),
    // A first sign is of the first term alone, and signs go from left to right.
    ("s.x = -s.x;", b"x,f\n3,4\n", "set s\nx,f\n-3,4\n"),
    ("s.x = -s.x + s.f;", b"x,f\n3,4\n", "set s\nx,f\n1,4\n"),
    (
        "s.x = s.f - s.x - s.f;",
        b"x,f\n3,4\n",
        "set s\nx,f\n-3,4\n",
    ),
    (
        "s.x = s.x - s.f .* s.x;",
        b"x,f\n3,4\n",
        "set s\nx,f\n-9,4\n",
    ),
    // Numbers stand before fields.
    ("s.x = -2*s.x .* s.f;", b"x,f\n3,4\n", "set s\nx,f\n-24,4\n"),
    (
        "s.x = 2*3*007*s.x .* s.f;",
        b"x,f\n3,4\n",
        "set s\nx,f\n504,4\n",
    ),
    (
        "s.x = s.x .* s.x .* s.x;",
        b"x,f\n-3,4\n",
        "set s\nx,f\n-27,4\n",
    ),
    // Words wrap round.
    (
        "s.x = 9223372036854775807*s.x;",
        b"x,f\n2,0\n-1,0\n",
        "set s\nx,f\n-2,0\n-9223372036854775807,0\n",
    ),
    (
        "s.x = -s.x - s.f;",
        b"x,f\n-9223372036854775808,0\n9223372036854775807,1\n9223372036854775807,2\n",
        "set s\nx,f\n-9223372036854775808,0\n-9223372036854775808,1\n9223372036854775807,2\n",
    ),
    (
        "s.f = s.x .* s.x;",
        b"x,f\n4294967296,7\n3037000500,7\n",
        "set s\nx,f\n4294967296,0\n3037000500,-9223372036709301616\n",
    ),
];

#[test]
fn statements_and_what_they_print(rt: HostRuntime) -> Result<(), Fail> {
    let declarations = "element P x: int(0); f: int(0); end extern s: set{P};";
    for (statements, points, out) in &PRINTED {
        let program = format!(in rt.alloc(); "{declarations} proc main {statements} end")?;
        assert_over_points(&rt, statements, program.as_bytes(), points, done(out))?;
    }
    Ok(())
}

/// One program in many layouts: it subtracts the double of x from f.
static LAYOUTS: [&[u8]; 8] = [
    b"element Point x: int(0); f: int(0); end extern points: set{Point}; proc main points.f = -2*points.x+points.f; end",
    b"element Point x:int(0);f:int(0);end extern points:set{Point};proc main points.f=-2*points.x+points.f;end",
    b"element Point\r\n  x : int(0);\r\n  f : int(0);\r\nend\r\nextern points : set{Point};\r\nproc main\r\n  points.f = - 2 * points.x + points.f;\r\nend\r\n",
    b"element Point x: int(0);\tf: int\r(\n0\n); end extern points: set { Point } ; proc main points . f = - 2 * points . x + points . f ; end",
    b"%\nelement Point x: int(0); f: int(0); end%end\nextern points: set{Point}; proc main points.f = -2*points.x+points.f; end%",
    b"% \x00\x01 \xFF\xFE caf\xC3\xA9 $ \" end \r still a comment\nelement Point x: int(0); f: int(0); end extern points: set{Point}; proc main points.f = -%2*\n2*points.x+points.f; end % \x80",
    b"element _ x: int(0); f: int(0); end extern points: set{_}; proc main points.f = -2*points.x+points.f; end",
    b"element x x: int(0); f: int(0); end extern points: set{x}; proc main points.f = -2*points.x+points.f; end",
];

#[test]
fn one_program_in_many_layouts(rt: HostRuntime) -> Result<(), Fail> {
    for text in &LAYOUTS {
        let end = done("set points\nx,f\n3,-2\n");
        assert_over_points(&rt, "a layout", text, b"x,f\n3,4\n", end)?;
    }
    Ok(())
}

/// Programs that are refused, with their notes: bytes that begin no token, a name that is too long, brackets that are too
/// deep; tokens without a tree; index expressions that aren't in chain form; and nodes without a type.
static REFUSED: [(&[u8], &str); 18] = [
    (
        b"element P x: int(0); end extern s: set{P}; proc main s.x = s.x? end",
        "refused: line 1, byte 62: bad byte\n",
    ),
    (
        b"element P\n\tx: int(0);\r\nend $",
        "refused: line 3, byte 27: bad byte\n",
    ),
    (
        b"%\n%\n a234567890123456789012345678901234567890123456789012345678901234_",
        "refused: line 3, byte 5: long name\n",
    ),
    (
        b"\n((((((((((((((((((((((((((((((((\n(((((((((((((((((((((((((((((((((\n",
        "refused: line 3, byte 66: too deep\n",
    ),
    (
        b"element P x: int(0); end extern s: set{P}; proc main s.x = s.x end",
        "refused: line 1, token 27: syntax\n",
    ),
    (
        b"element P\n  x : int(0);\nend\n\nproc main\n  P.x = ;\nend\n",
        "refused: line 6, token 16: syntax\n",
    ),
    (b"\n\nproc main\n", "refused: line 4, token 2: syntax\n"),
    // what is no chain comes after tokens without a tree and before nodes without a type, wherever they stand
    (
        b"element P x: int(0); end extern s: set{P}; proc main\ns.x = ix(i) s.x(j);\ns.x = ; end",
        "refused: line 3, token 39: syntax\n",
    ),
    (
        b"element P x: int(0); end extern s: set{P}; proc main\ns.z = s.x;\ns.x = ix(i) s.x(j);\ns.x = ix(i, i) 1; end",
        "refused: line 3: not a chain\n",
    ),
    (
        b"element P x: int(0); end extern s: set{P}; proc main s.x = ix(i) s.z(i); end",
        "refused: line 1: unknown name\n",
    ),
    (
        b"element P x: int(0); end extern s: set{P}; proc main\ns.z = s.x; end",
        "refused: line 2: unknown name\n",
    ),
    (
        b"element P x: int(0);\n\nx: int(0); end extern s: set{P}; proc main end",
        "refused: line 3: declared twice\n",
    ),
    (
        b"element P x: int(0.0); end extern s: set{P}; proc main end",
        "refused: line 1: not a constant\n",
    ),
    (
        b"element P x: int(0); end extern s: set{P}; proc main\nfor i in 0:2\ni = 1; end end",
        "refused: line 3: not a place\n",
    ),
    (
        b"element P x: int(0); end extern s: set{P}; proc main s.x = 5; end",
        "refused: line 1: shape\n",
    ),
    (
        b"element P x: int(0); end extern s: set{P}; extern t: set{P}; proc main s.x = t.x; end",
        "refused: line 1: set\n",
    ),
    (
        b"element P x: int(0); end extern s: set{P}; proc main s.x = 1.5*s.x; end",
        "refused: line 1: scale\n",
    ),
    (
        b"element P\nx: vector[7](int(0)); end extern s: set{P}; proc main end",
        "refused: line 2: too large\n",
    ),
];

#[test]
fn programs_are_refused(rt: HostRuntime) -> Result<(), Fail> {
    for (text, note) in &REFUSED {
        assert_over_points(&rt, note, text, b"x\n1\n", refused(note))?;
    }
    Ok(())
}

/// Parentheses leave nothing in a tree.
static PARENTHESISED: [&[u8]; 4] = [
    b"element P x: int(0); end extern s: set{P}; proc main s.x = (s.x); end",
    b"element P x: int(0); end extern s: set{P}; proc main s.x = 2*(s.x) - (s.x); end",
    b"element P x: int(0); end extern s: set{P}; proc main s.x = (-(((3*s.x))) + 4*s.x); end",
    b"element P x: int(0); end extern s: set{P}; proc main s.x = 3*(s.x + s.x) - 5*(s.x); end",
];

#[test]
fn parentheses_in_sums(rt: HostRuntime) -> Result<(), Fail> {
    for text in &PARENTHESISED {
        assert_over_points(&rt, "parentheses", text, b"x\n7\n", done("set s\nx\n7\n"))?;
    }
    Ok(())
}
