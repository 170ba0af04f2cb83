//! The laws of lowering. Each call does nothing: the laws are its contract.
ghost use Rattle.chain_forms.specs.Laws.{LeavesNoIndex};

/// A lowered program has no index expression.
pub fn no_index_law()
    ensures { LeavesNoIndex }
{}
