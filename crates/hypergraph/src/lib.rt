//! Sets of elements that are joined into a hypergraph: an element of an edge set has endpoints, each an
//! element of one earlier vertex set, and every set has columns of one word per element.
//!
//! Sets, elements, the positions of an element's endpoints, and columns are numbered from 0.
#![tactic(auto)]

mod endpoints;
mod errors;
mod set_data;
mod sets;

pub use errors::BadEndpoint;
pub use set_data::SetData;
pub use sets::Sets;
