//! Runs typed programs: as the plain run does, but for maps, whose functions run on words, and whose contributions are added
//! as they come.
#![tactic(auto)]

mod execution;
mod word_maps;
mod word_statements;

pub use execution::execute;
