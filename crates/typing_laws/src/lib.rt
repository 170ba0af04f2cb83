//! The judgement of types: which typed tree is a typing of a tree, said without the walk; and the laws that the
//! definition of types answers just these. Each call does nothing: the laws are its contract.
#![tactic(auto)]

ghost use Rattle.typing_laws.specs.Laws.{ConditionLaws, ExpressionLaws, FunctionLaws, MainLaws};
ghost use Rattle.typing_laws.specs.ProgramLaws.{DeclarationLaws, ProgramLaws};

/// The laws of expressions.
pub fn expression_typing_law()
    ensures { ExpressionLaws }
{}

/// The laws of conditions.
pub fn condition_typing_law()
    ensures { ConditionLaws }
{}

/// The laws of the bodies of functions.
pub fn function_typing_law()
    ensures { FunctionLaws }
{}

/// The laws of the declarations of a program.
pub fn declaration_typing_law()
    ensures { DeclarationLaws }
{}

/// The laws of the body of the main procedure.
pub fn main_typing_law()
    ensures { MainLaws }
{}

/// The laws of whole programs.
pub fn program_typing_law()
    ensures { ProgramLaws }
{}
