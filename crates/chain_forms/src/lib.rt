//! The chain form of index terms, and the program that a program with index expressions is lowered to.
#![tactic(auto)]

mod chain;
mod laws;

pub use chain::{Chain, Link};
pub use laws::no_index_law;
