//! The tests of the calls that take a program's text to its tree: what no public clause says.
//!
//! Each module is about one subject.
#![tactic(auto)]

#[cfg(test)]
mod lexing;
#[cfg(test)]
mod lowering;
#[cfg(test)]
mod parsing;
#[cfg(test)]
mod places;
#[cfg(test)]
mod printing;
