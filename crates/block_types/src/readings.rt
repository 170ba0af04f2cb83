//! What a table of a set is read as.

/// A field of the elements of a set: its first column, how high and how wide its block is, and its scale.
#[derive(Clone, Copy, Debug, PartialEq, Eq)]
pub struct FieldShape {
    pub set: u32,
    /// The first of its columns, counted over the fields of an element.
    pub column: u32,
    /// The rows of its block; 1 for a number.
    pub high: u32,
    /// The columns of its block; 1 for a number and for a vector.
    pub wide: u32,
    /// The number of its decimals.
    pub scale: u32,
}
