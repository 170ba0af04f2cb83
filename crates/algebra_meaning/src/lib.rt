//! What programs mean, as definitions; and the evaluator of their expressions and conditions: the value, or the first
//! trap from left to right.
#![tactic(auto)]

mod conditions;
mod context;
mod contribution;
mod expression;
mod laws;
mod linked;
mod parts;
mod references;
mod scope;
mod state;
mod stopped;

pub use conditions::{held, holds};
pub use context::ElementContext;
pub use contribution::{Contribution, Point};
pub use expression::{meaning, meanings};
pub use laws::{condition_laws, expression_laws};
pub use linked::LinkedProgram;
pub use parts::block_in;
pub use references::{end_in, end_of, over, value_at};
pub use scope::Scope;
pub use state::State;
pub use stopped::{Stop, Stopped, Trapped};
