//! Maps by their definition: what a function contributes at each element, kept in a list, and the results that these
//! contributions assemble, each entry summed over the whole list. Slow and short: faster code is compared with it.
#![tactic(auto)]

mod assembly;
mod call;
mod elements;
mod entries;
mod locals;
mod statements;

pub use call::Call;
pub use elements::{mapped, place_of};
