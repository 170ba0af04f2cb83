//! What `check` answers about a text.
use block_types::{Typed, check};
use main_hosts::main_hosts;
use sim_lexer::lex;
use sim_parser::parse;
use sim_syntax::Lowered;
use std::alloc::{AllocError, Global};
use std::process::Abort;
use std::test::Fail;
use type_rules::TypeKind;
use typed_tree::CheckFault;

/// A part of a program, the line of the program's first fault, and its kind.
pub type Row = (&'static str, u32, TypeKind);

/// The typed program of a text, by the names of the functions that `simit` has, or the line and the kind of its first
/// fault. Out of memory is a failure of the test.
pub fn checked(
    rt: &(impl Abort + AllocGlobal),
    text: &[u8],
) -> Result<Result<Typed, (u32, TypeKind)>, Fail> {
    assert!(rt; text.len() <= 1 << 20);
    let tokens = lex(rt.alloc(), text)?;
    let program = parse(rt.alloc(), text, &tokens)?;
    let lowered = match Lowered::of(program) {
        Ok(lowered) => lowered,
        Err(_) => return Err(Fail::new("an index expression")),
    };
    let hosts = main_hosts(rt.alloc())?.names(rt.alloc())?;
    match check(rt.alloc(), lowered, &hosts) {
        Ok(typed) => Ok(Ok(typed)),
        Err(CheckFault::IllTyped { line, kind }) => Ok(Err((line, kind))),
        Err(CheckFault::Memory) => Err(Fail::new("no memory")),
    }
}

/// The line and the kind of the first fault of a text, if it has one.
pub fn fault_of(
    rt: &(impl Abort + AllocGlobal),
    text: &[u8],
) -> Result<Option<(u32, TypeKind)>, Fail> {
    Ok(checked(rt, text)?.err())
}

/// Adds a line to what is wrong, where the fault of a text, of which this is a part, is another than the one wanted.
fn compare(
    rt: &(impl Abort + AllocGlobal),
    text: &str,
    part: &str,
    want: Option<(u32, TypeKind)>,
    wrong: &mut String,
) -> Result<(), Fail> {
    let fault = fault_of(rt, text.as_bytes())?;
    if fault != want {
        let line = format!(in rt.alloc(); "{fault:?}, not {want:?}, of {part}\n")?;
        wrong.push_str(line.as_str())?;
    }
    Ok(())
}

/// A text with a part between others.
fn text_with(
    alloc: Global,
    before: [&str; 2],
    part: &str,
    after: &str,
) -> Result<String, AllocError> {
    let [a, b] = before;
    format!(in alloc; "{a}{b}{part}{after}")
}

/// Adds a line to what is wrong, where the text with the part of a row isn't refused as the row says.
fn compare_row(
    rt: &(impl Abort + AllocGlobal),
    before: [&str; 2],
    row: &(&str, u32, TypeKind),
    after: &str,
    wrong: &mut String,
) -> Result<(), Fail> {
    let (part, line, kind) = *row;
    let text = text_with(rt.alloc(), before, part, after)?;
    compare(rt, text.as_str(), part, Some((line, kind)), wrong)
}

/// Asserts that texts are refused, of which each has the part of a row between the same texts.
pub fn assert_refused(
    rt: &(impl Abort + AllocGlobal),
    before: [&str; 2],
    rows: &[(&str, u32, TypeKind)],
    after: &str,
) -> Result<(), Fail> {
    let mut wrong = String::new(rt.alloc());
    for row in rows {
        compare_row(rt, before, row, after, &mut wrong)?;
    }
    assert_eq!(rt; wrong.as_str(), "");
    Ok(())
}

/// Asserts that texts are accepted, of which each has one of the parts between the same texts.
pub fn assert_accepted(
    rt: &(impl Abort + AllocGlobal),
    before: [&str; 2],
    parts: &[&str],
    after: &str,
) -> Result<(), Fail> {
    let [a, b] = before;
    let mut wrong = String::new(rt.alloc());
    for part in parts {
        let text = format!(in rt.alloc(); "{a}{b}{part}{after}")?;
        compare(rt, text.as_str(), part, None, &mut wrong)?;
    }
    assert_eq!(rt; wrong.as_str(), "");
    Ok(())
}
