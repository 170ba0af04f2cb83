//! How a run ends.

use hypergraph::Sets;
use ring_words::TrapKind;

/// How a run ends.
#[derive(Drop)]
pub enum Ending {
    /// The sets after its last statement.
    Done(Sets),
    /// A trap: the line of the innermost statement of the main procedure whose own expression, condition, bound or map
    /// trapped, the least element that traps where it is a map, and the kind.
    Trap {
        line: u32,
        element: Option<u32>,
        kind: TrapKind,
    },
    /// No turn is left where one is due.
    Spent,
}
