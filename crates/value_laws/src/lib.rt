//! What the entries of sums, products, transposes and scalar products are. The call does nothing: the laws are its contract.
#![tactic(auto)]

ghost use Rattle.value_laws.specs.Laws.{EntryLaws};

/// The laws of the entries of values.
pub fn entry_law()
    ensures { EntryLaws }
{}
