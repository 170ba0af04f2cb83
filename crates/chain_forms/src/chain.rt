//! The factors of a term in an order in which each shares an index with the next.

use vocabulary::L;

/// A factor in a chain: its position among the atoms of its term, and whether it is a matrix that is used from its
/// second index to its first.
#[derive(Clone, Copy, Debug, PartialEq, Eq)]
pub struct Link {
    pub factor: usize,
    pub against: bool,
}

/// All factors of a term, ordered.
#[derive(Drop)]
pub enum Chain {
    /// There are none.
    Empty,
    /// With no free index: a vector, and after it matrices and a vector.
    Between { first: Link, rest: L<Link> },
    /// With one free index: groups of matrices and a vector.
    Groups(L<L<Link>>),
    /// With two free indices: matrices.
    Matrices(L<Link>),
}
