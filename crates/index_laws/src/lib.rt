//! What index expressions mean in a program: the value of the expression that one is lowered to has, at each value of the
//! free indices, the sum of its terms' sums, with their signs; and that values have the sizes of their types. Each call does
//! nothing: the laws are its contract.
#![tactic(auto)]

ghost use Rattle.index_laws.specs.Laws.{IsSumMeant, IsTermMeant};
ghost use Rattle.index_laws.specs.Sizes.{AreSized, SumsAreSized};

use chain_laws::term_law;
use expression_forms::{meaning_form_law, typing_form_law};
use index_meaning::index_term_law;
use value_laws::entry_law;

/// The laws of index expressions: of what a term is lowered to, and of what a whole one is.
pub fn index_expression_law()
    ensures term { IsTermMeant }
    ensures sum { IsSumMeant }
{
    typing_form_law();
    meaning_form_law();
    index_term_law();
    entry_law();
    term_law();
}

/// The law of the sizes of values in the main procedure: where what names stand for has the size of its type, so has the value of
/// each expression; and two values that have a sum are of one size.
pub fn expression_size_law()
    ensures values { AreSized }
    ensures sums { SumsAreSized }
{
    meaning_form_law();
    entry_law();
}
