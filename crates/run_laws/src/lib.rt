//! The run of a program as a relation by cases, said without folds and without bounds on loops; and the laws that the
//! definition of a run is just that. Each call does nothing: the laws are its contract.
#![tactic(auto)]

ghost use Rattle.run_laws.specs.Laws.{AnswersOnly, IsAnswered, IsMapAnswered, IsStatementAnswered, MapAnswersOnly, StatementAnswersOnly};
ghost use Rattle.run_laws.specs.Shapes.{ChangesWords, LeavesShapes, StatementsChangeWords};

/// The laws of maps: the trap of the least element that traps, or the results of what all contribute.
pub fn map_law()
    ensures holds { IsMapAnswered }
    ensures only { MapAnswersOnly }
{}

/// The laws of the run of a program.
pub fn run_law()
    ensures holds { IsAnswered }
    ensures only { AnswersOnly }
    ensures statement_holds { IsStatementAnswered }
    ensures statement_only { StatementAnswersOnly }
{}

/// The law of what a run leaves as it was.
pub fn shape_law()
    ensures shapes { LeavesShapes }
    ensures sets { ChangesWords }
    ensures statements { StatementsChangeWords }
{}
