//! The types of the statements of functions: the typed tree of each, up to its first fault.
#![tactic(auto)]

mod bounds;
mod faults;
mod places;
mod statements;
mod variables;
mod writes;

pub use statements::function_statements;
