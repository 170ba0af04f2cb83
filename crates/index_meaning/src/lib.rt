//! What index terms mean, and the law that what they are lowered to means just that. The call does nothing: the law is its
//! contract.
#![tactic(auto)]

ghost use Rattle.index_meaning.specs.Laws.{IndexTermLaw};

use chain_forms::Link;
use index_sums::{index_sum_laws, product_laws, reorder_law};
use value_laws::entry_law;
use vocabulary::{Text, double_sum_laws, range_sum_laws, sum_laws};

/// The law of index terms.
pub fn index_term_law()
    ensures { IndexTermLaw }
{
    sum_laws::<usize>();
    double_sum_laws::<usize, usize>();
    range_sum_laws();
    index_sum_laws();
    product_laws::<usize>();
    product_laws::<Link>();
    reorder_law::<usize>();
    reorder_law::<Text>();
    entry_law();
}
