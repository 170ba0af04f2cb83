//! What every layer says alike: limits, the marks of texts, lists and texts as contracts see them, bytes appended
//! within a capacity, answers that are known unless memory ran out, and the laws of finite sums.
#![tactic(auto)]

mod buffer;
pub mod limits;
mod list;
pub mod marks;
mod no_memory;
mod sums;
mod text;

pub use buffer::append;
pub use list::L;
pub use no_memory::NoMemory;
pub use sums::{double_sum_laws, range_sum_laws, sum_laws};
pub use text::Text;
