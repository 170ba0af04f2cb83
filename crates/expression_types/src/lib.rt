//! The types of expressions and of conditions: the typed tree of each, up to its first fault in post-order.
#![tactic(auto)]

mod blocks;
mod conditions;
mod forms;
mod nodes;
mod ranges;
mod references;
mod trees;
mod walk;

pub use conditions::condition;
pub use trees::{expression, expressions};
pub use walk::{cond, value, values};
