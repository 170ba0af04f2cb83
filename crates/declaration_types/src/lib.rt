//! The types of declarations: element types, sets, functions, and functions of the host.
#![tactic(auto)]

mod elements;
mod functions;
mod hosts;
mod in_turn;
mod parameters;
mod rules;
mod sets;

pub use in_turn::declarations;
