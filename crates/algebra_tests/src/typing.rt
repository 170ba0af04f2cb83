//! From a program's text to its typed program.
use block_types::{Typed, check};
use sim_lexer::lex;
use sim_parser::parse;
use sim_syntax::Lowered;
use std::process::Abort;
use std::test::Fail;

/// The typed program of a text that has one.
pub fn typed(rt: &(impl Abort + AllocGlobal), text: &str) -> Result<Typed, Fail> {
    assert!(rt; text.len() <= 1 << 20);
    let tokens = lex(rt.alloc(), text.as_bytes())?;
    let program = parse(rt.alloc(), text.as_bytes(), &tokens)?;
    let Ok(lowered) = Lowered::of(program) else {
        return Err(Fail::new("an index expression"));
    };
    match check(rt.alloc(), lowered, &[]) {
        Ok(typed) => Ok(typed),
        Err(fault) => panic!(rt; "{fault:?} of {text}"),
    }
}
