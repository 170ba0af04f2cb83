//! What changes while a program runs.

use hypergraph::Sets;
use value_algebra::Value;
use vocabulary::L;

/// The state of a run.
#[derive(Drop)]
pub struct State {
    pub sets: Sets,
    /// The variables of the main procedure, by their numbers.
    pub variables: L<Value>,
    /// The variables of the loops around.
    pub locals: L<Value>,
    /// How many turns may still begin.
    pub turns: u32,
}
