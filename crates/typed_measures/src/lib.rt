//! What is read off a typed program: what its functions cost, where their contributions go, and a table of its nodes.
#![tactic(auto)]

mod cost;
mod nodes;
mod writes;

pub use cost::{body_cost, columns_of};
pub use nodes::program_nodes;
pub use writes::typed_results;
