//! The laws of loops: what one over the items of a list, or over numbers that are counted up, has computed so far. Each
//! call does nothing: the laws are its contract.
#![tactic(auto)]

ghost use Rattle.loop_laws.specs.Loops.{ItemLaws, NumberLaws};
ghost use Rattle.loop_laws.specs.Rows.{RowLaws};

/// The laws of loops over the items of a list, up to the first fault.
#[inline]
pub fn item_laws<A, X, E>()
    ensures { ItemLaws A X E }
{}

/// The laws of loops over numbers that are counted up, up to the first fault.
#[inline]
pub fn number_laws<A, E>()
    ensures { NumberLaws A E }
{}

/// The laws of lists that grow along the numbers from 0 on.
#[inline]
pub fn row_laws<A>()
    ensures { RowLaws A }
{}
