//! Expressions and conditions of assembly functions, evaluated at an element without a value for each part: numbers stay
//! in registers, and the words of vectors and matrices stand on one stack, which is used again.
#![tactic(auto)]

mod conditions;
mod expression;

pub use conditions::holds;
pub use expression::evaluate;
