//! The words of the command line: which command they state, with its files and options, or that they are refused.
//! Words are judged first, one after another; those that are a command's are then laid out in one form and read
//! with `clap`.
#![tactic(auto)]

mod argument;
mod command;
mod flag;
mod found;
mod given;
mod judging;
mod layout;
mod number;
mod option;
mod parser;
mod reading;
mod verb;

pub use command::{Words, WordsFault};
pub use number::{DEFAULT_TURNS, DEFAULT_WORKERS, MOST_HELD_WORDS, MOST_TURNS, MOST_WORKERS};
pub use reading::read;

#[cfg(test)]
mod tests;
