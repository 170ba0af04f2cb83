use ring_words::CellFault;
use thiserror::Error;

/// The first fault of a table, or that memory ran out. Rows are numbered from 1, since the header is record 0, and
/// columns from 0.
#[derive(Clone, Copy, Debug, PartialEq, Eq, Error)]
pub enum TableFault {
    /// There is no record.
    #[error("no header")]
    NoHeader,
    /// The first column where the header differs from the headings, or where one of them has ended.
    #[error("column {column}: not the heading")]
    Header {
        column: u32,
    },
    /// The row has another number of cells than there are headings.
    #[error("row {row}: not as many cells as headings")]
    Width {
        row: u32,
    },
    /// The cell states no word at its column's scale.
    #[error("row {row}, column {column}: {fault}")]
    Cell {
        row: u32,
        column: u32,
        fault: CellFault,
    },
    /// The cell states no element of the set in which endpoints lie.
    #[error("row {row}, column {column}: no such endpoint")]
    Endpoint {
        row: u32,
        column: u32,
    },
    /// There are more rows than a set may have elements.
    #[error("too many rows")]
    TooManyRows,
    #[error("out of memory")]
    Memory,
}
