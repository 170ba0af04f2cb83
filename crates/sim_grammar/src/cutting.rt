//! The laws of cuts.
ghost use Rattle.sim_grammar.specs.CutLaws.{BeginningsAreCuts, CutsAreCompleted, PlacesEndBeginnings};

/// The cuts of a program, as the rules define them, are exactly the beginnings of programs: each beginning of the words of
/// a program is a cut, and each cut is completed to a program by further words, with texts that their kinds may have.
/// So the place at which words stop being a cut is that of the first word with which no program begins.
///
/// It does nothing: the law is its contract.
pub fn cut_law()
    ensures begun { BeginningsAreCuts }
    ensures completed { CutsAreCompleted }
    ensures places { PlacesEndBeginnings }
{}
