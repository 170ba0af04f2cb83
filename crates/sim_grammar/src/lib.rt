//! The grammar of programs, in `specs/`: which words derive which tree, which are cuts of a program, and how a program is
//! read off words.
#![tactic(auto)]

mod cutting;
mod reading;

pub use cutting::cut_law;
pub use reading::reading_law;
