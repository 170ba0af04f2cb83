use thiserror::Error;

/// An endpoint that isn't below the count of the set that it lies in, by its position.
#[derive(Clone, Copy, Debug, PartialEq, Eq, Error)]
#[error("no such endpoint: place {place} of element {element} of set {set}")]
pub struct BadEndpoint {
    pub set: u32,
    pub element: u32,
    pub place: u32,
}
