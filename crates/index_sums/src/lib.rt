//! Sums over all values of named indices, and their laws. Each call does nothing: the laws are its contract.
#![tactic(auto)]

ghost use Rattle.index_sums.specs.Laws.{IndexSumLaws, ProductLaws, ReorderLaws};

use vocabulary::{double_sum_laws, range_sum_laws, sum_laws};

/// The laws of sums over all values of indices.
pub fn index_sum_laws()
    ensures { IndexSumLaws }
{
    sum_laws::<u64>();
    double_sum_laws::<u64, u64>();
    range_sum_laws();
}

/// The laws of products over lists.
pub fn product_laws<A>()
    ensures { ProductLaws A }
{}

/// The law of lists that have the same elements, each as often.
pub fn reorder_law<A>()
    ensures { ReorderLaws A }
{}
