//! Words modulo 2^64, at their scales, and the cells that write them in tables. The list and text types of `vocabulary`,
//! in which contracts see a `Vec` and a `String`, are to be had from here too.
#![tactic(auto)]

mod arithmetic;
mod cells;
mod digits;
mod powers;
mod scales;
mod trap;

pub use arithmetic::{add, less, mul, neg, sub};
pub use cells::{CellFault, cell_len, read_cell, trim_spaces, write_cell};
pub use scales::{isqrt, quot, rescale};
pub use trap::TrapKind;
pub use vocabulary::{L, Text};
