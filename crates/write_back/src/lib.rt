//! The tables of a program's sets: what each looks like, and other words for a field of a set.
#![tactic(auto)]

mod assigning;
mod schemas;

pub use assigning::assign;
pub use schemas::schema;
