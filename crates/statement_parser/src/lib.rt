//! Reads the statements of functions and of the main procedure off a cursor over tokens.
#![tactic(auto)]

mod functions;
mod main_procedure;
mod statements;

pub use functions::func_body;
pub use main_procedure::main_body;
