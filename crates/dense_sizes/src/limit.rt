//! The limit of dense words.

/// The most words that the dense matrices of a run may take.
pub const MOST_DENSE_WORDS: u32 = 4_194_304;
