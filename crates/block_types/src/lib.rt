//! The types of programs: the typed program of a program's tree, or the first fault of it, and what is asked of it.
#![tactic(auto)]

mod laws;
mod program;
mod readings;
mod typed;

pub use laws::well_declared_law;
pub use program::check;
pub use readings::FieldShape;
pub use typed::Typed;
