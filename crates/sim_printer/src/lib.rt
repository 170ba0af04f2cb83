//! Prints the tree of a program as a text on one line, which reads back to the same tree.
#![tactic(auto)]

mod conditions;
mod declarations;
mod expressions;
mod laws;
mod line;
mod printer;
mod right_sides;
mod statements;

pub use laws::printing_law;
pub use printer::print;
