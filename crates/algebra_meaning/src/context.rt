//! Where a function runs.

use typed_tree::Endpoints;

/// Where a function runs: the types of its element and of its endpoints, the set that it is mapped to, and the element.
#[derive(Clone, Copy, Debug, PartialEq, Eq)]
pub struct ElementContext {
    /// The type of the element.
    pub own: u32,
    pub ends: Option<Endpoints>,
    /// The set's number.
    pub mapped: u32,
    pub element: u32,
}
