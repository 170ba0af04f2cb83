//! How many words the dense matrices of a run take: those of the variables, and those that stand between.
#![tactic(auto)]

mod limit;
mod matrices;
mod nodes;
mod statements;
mod tally;

pub use limit::MOST_DENSE_WORDS;
pub use statements::dense_words;
