//! The parser of programs: the one tree that the tokens of a text derive, or the place where they stop being a cut of a program.
#![tactic(auto)]

mod declarations;
mod parser;

pub use parser::{ParseFault, parse};
