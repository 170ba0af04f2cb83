//! The laws of chain forms: the ordering that the definition gives is the one there is. Each call does nothing: the laws are
//! its contract.
#![tactic(auto)]

ghost use Rattle.chain_laws.specs.Laws.{IsOnly, IsOrdering, IsRefused, IsTermLowered, IsTermOnly, IsTermRefused};

/// The laws of the ordering of a term's factors.
pub fn ordering_law()
    ensures holds { IsOrdering }
    ensures only { IsOnly }
    ensures refused { IsRefused }
{}

/// The laws of what a term is lowered to.
pub fn term_law()
    ensures holds { IsTermLowered }
    ensures only { IsTermOnly }
    ensures refused { IsTermRefused }
{}
