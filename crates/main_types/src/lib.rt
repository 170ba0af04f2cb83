//! The types of the statements of the main procedure: the typed tree of each, up to its first fault.
#![tactic(auto)]

mod maps;
mod right_sides;
mod statements;
mod targets;
mod variables;

pub use statements::main_statements;
