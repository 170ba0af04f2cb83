//! Index expressions as products: the program without them that means the same.
#![tactic(auto)]

mod atoms;
mod fault;
mod following;
mod lists;
mod ordered;
mod ordering;
mod pairs;
mod products;
mod programs;
mod statements;
mod sums;
mod terms;

pub use fault::LowerFault;
pub use programs::lower;
