//! The tree of a program: declarations, and the statements of its main procedure.
//!
//! Every node has the line of its first token. Names and numbers hold the bytes of their tokens.
//! Parentheses leave no node.
#![tactic(auto)]

mod condition;
mod declaration;
mod expression;
mod indices;
mod lowered;
mod program;
mod statement;

pub use condition::{Cmp, CmpOp, Cond, Conjunction};
pub use declaration::{Decl, Field, Local, Param, ParamKind, ResultDecl};
pub use expression::{Expr, ProductFactor, Row, SumTerm};
pub use lowered::Lowered;
pub use program::Program;
pub use statement::{Index, IxAtom, IxTerm, Place, Right, Stmt, Target};
use vocabulary::Text;

/// The text of a name's token.
pub type Name = Text;

/// The text of a number's token: digits, and maybe a point and digits.
pub type Num = Text;
