//! What a function contributes at an element.

use value_algebra::Value;
use vocabulary::L;

/// What is added to a result at a row, and at a column where it is a matrix: a block.
#[derive(Drop)]
pub struct Contribution {
    pub result: u32,
    pub row: u32,
    pub column: u32,
    pub block: Value,
}

/// A point of a function: its locals, and what was contributed before.
#[derive(Drop)]
pub struct Point {
    pub locals: L<Value>,
    pub contributed: L<Contribution>,
}
