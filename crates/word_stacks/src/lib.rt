//! Values of functions as words: locals in memory that is used again, what names stand for at an element, and one stack on
//! which the words of vectors and matrices stand while something is made of them.
#![tactic(auto)]

mod indices;
mod locals;
mod operand;
mod products;
mod references;
mod slices;
pub mod stack;
pub mod steps;
mod words;

pub use indices::Indices;
pub use locals::{Locals, Slot};
pub use operand::{Operand, Pair, Size, first_word};
pub use products::transpose;
pub use references::{referred, size_of};
pub use slices::{Change, Join};
pub use words::Words;
