//! The law of reading a program off the words of a text.
ghost use Rattle.sim_grammar.specs.Grammar.{IsUnambiguous};
ghost use Rattle.sim_grammar.specs.Laws.{LeavesNoMore, ReadsThePlace, ReadsWhatIsDerived};

/// The words of a text are read as the program that they derive, of which there is no more than one, and else as the
/// place at which they stop being a cut of a program.
///
/// It does nothing: the law is its contract.
pub fn reading_law()
    ensures derived { ReadsWhatIsDerived }
    ensures place { ReadsThePlace }
    ensures few { LeavesNoMore }
    ensures unambiguous { IsUnambiguous }
{}
