//! The typed program: what a program says once each name stands for what is declared and each expression has its
//! type; and the definition of which program has which, up to its first fault.
#![tactic(auto)]

mod condition;
mod environment;
mod expression;
mod fault;
mod function;
mod literals;
mod lookups;
mod main_procedure;
mod names;
mod nodes;
mod program;
mod walk;

pub use condition::{TypedCmp, TypedCond, TypedConjunction};
pub use environment::{Declarations, Environment, Level, Walk};
pub use expression::{Node, Referent, TypedExpr, TypedFactor, TypedForm, TypedRow, TypedTerm};
pub use fault::CheckFault;
pub use function::{
    Endpoints, FunctionStmt, ParameterType, PlaceIndex, ResultSide, Signature, TypedFunction,
    TypedResult, WrittenPlace,
};
pub use literals::{decimals_of, literal_word, whole};
pub use lookups::{field_type, find_field, over_set};
pub use main_procedure::{MainStmt, RightSide, TypedRight, TypedTarget};
pub use names::{HostArguments, HostSignature, Meaning, Names};
pub use nodes::{Named, NodeEntry};
pub use program::{ElementType, SetShape, TypedField, TypedProgram, TypedSet, Variable};
