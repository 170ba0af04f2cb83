//! The words of one matrix.

ghost use Rattle.std.specs.Prelude.{◌≡◌};
ghost use Rattle.dense_sizes.specs.DenseWords as spec;

use hypergraph::Sets;
use type_rules::NodeType;
use value_algebra::{count, entries};

/// How many words a value has that is a system matrix: rows times columns times the words of a block. Any other value
/// is no matrix and has none.
pub fn matrix_words(sets: &Sets, value_type: NodeType) -> u128
    ensures { result ≡ spec.matrix_words sets.now value_type }
{
    match value_type {
        NodeType::Local { .. } => 0,
        NodeType::SystemVector { .. } => 0,
        NodeType::SystemMatrix {
            rows,
            columns,
            block,
            ..
        } => {
            let pairs = u64::from(count(sets, rows)) * u64::from(count(sets, columns));
            u128::from(pairs) * u128::from(entries(block))
        }
    }
}
