//! The results of a map as their sums grow: contributions are added one by one, each in its place, so that no list of them
//! is kept.
#![tactic(auto)]

mod block;
mod row;
mod sizes;
mod sums;

pub use sums::Sums;
