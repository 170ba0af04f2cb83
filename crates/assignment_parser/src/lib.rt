//! Reads assignments, contributions and declarations of variables off a cursor over tokens.
#![tactic(auto)]

mod assignments;
mod contributions;
mod places;
mod right_sides;

pub use assignments::{assign, var};
pub use contributions::{local_var, named_stmt};
