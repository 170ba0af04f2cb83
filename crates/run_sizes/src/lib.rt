//! The values in a run of a typed program have the sizes of their types, in each state to which the run comes; so an index
//! expression means its sum wherever a run comes to it. The call does nothing: the laws are its contract.
#![tactic(auto)]

ghost use Rattle.run_sizes.specs.Laws.{AreMeantInRuns, FitInRuns};

use index_laws::{expression_size_law, index_expression_law};
use run_laws::shape_law;
use typing_laws::expression_typing_law;

/// The laws of what names and index expressions stand for wherever a run comes.
pub fn run_size_law()
    ensures fit { FitInRuns }
    ensures meant { AreMeantInRuns }
{
    expression_size_law();
    expression_typing_law();
    index_expression_law();
    shape_law();
}
