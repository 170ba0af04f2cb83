//! Reads expressions, index expressions and conditions off a cursor over tokens.
#![tactic(auto)]

mod conditions;
mod expressions;
mod indices;

pub use conditions::condition;
pub use expressions::{expression, maybe_arguments};
pub use indices::{ix, maybe_field};
