//! Statements, in which each index expression is lowered.

ghost use Rattle.std.specs.Prelude.{◌≡◌};
ghost use Rattle.chain_forms.specs.Lowered as spec;
ghost use Rattle.index_notation.specs.Lowers.{Lowers};

use crate::fault::LowerFault;
use crate::lists::reversed;
use crate::sums::lowered_ix;
use sim_syntax::{Right, Stmt};
use sqlite_items::Items;
use std::alloc::Global;

/// A right side, which is lowered if it is an index expression.
#[tactic(auto, unfolding(chain_forms::specs::Lowered::lowered_right))]
fn lowered_right(alloc: Global, right: Right) -> Result<Right, LowerFault>
    ensures { Lowers (spec.lowered_right right) result }
{
    match right {
        Right::Ix { line, free, terms } => {
            let value = lowered_ix(alloc, free.as_slice(), line, terms.as_slice())?;
            Ok(Right::Value(value))
        }
        other => Ok(other),
    }
}

/// A statement, with those inside it.
#[cycle(statement)]
#[tactic(auto, unfolding(chain_forms::specs::Lowered::lowered_node, chain_forms::specs::Lowered::lowered_statements, crate::proofs::Weights::weights))]
fn lowered_statement(statement: Stmt, alloc: Global) -> Result<Stmt, LowerFault>
    ensures { Lowers (spec.lowered_statement statement) result }
{
    match statement {
        Stmt::Var { line, names, right } => {
            let right = lowered_right(alloc, right)?;
            Ok(Stmt::Var { line, names, right })
        }
        Stmt::Assign {
            line,
            targets,
            right,
        } => {
            let right = lowered_right(alloc, right)?;
            Ok(Stmt::Assign {
                line,
                targets,
                right,
            })
        }
        Stmt::ConstFor {
            line,
            name,
            from,
            to,
            body,
        } => {
            let body = lowered_statements(body, alloc)?;
            Ok(Stmt::ConstFor {
                line,
                name,
                from,
                to,
                body,
            })
        }
        Stmt::For {
            line,
            name,
            from,
            to,
            body,
        } => {
            let body = lowered_statements(body, alloc)?;
            Ok(Stmt::For {
                line,
                name,
                from,
                to,
                body,
            })
        }
        Stmt::While { line, cond, body } => {
            let body = lowered_statements(body, alloc)?;
            Ok(Stmt::While { line, cond, body })
        }
        Stmt::If {
            line,
            cond,
            body,
            otherwise,
        } => {
            let body = lowered_statements(body, alloc)?;
            let otherwise = lowered_statements(otherwise, alloc)?;
            Ok(Stmt::If {
                line,
                cond,
                body,
                otherwise,
            })
        }
        other => Ok(other),
    }
}

/// Statements, one after the other, up to the first fault.
#[cycle(statement)]
#[tactic(auto, unfolding(chain_forms::specs::Lowered::lowered_statements), using(crate::proofs::Taking::begun, crate::proofs::Taking::taken, crate::proofs::Taking::refused, crate::proofs::Taking::ended, crate::proofs::Weights::reversed_weight, crate::proofs::Weights::taken_weight, crate::proofs::Weights::left_weight))]
pub fn lowered_statements(statements: Items<Stmt>, alloc: Global) -> Result<Items<Stmt>, LowerFault>
    ensures { Lowers (spec.lowered_statements statements) result }
{
    let mut left = reversed(alloc, statements)?;
    let mut lowered = Items::new(alloc);
    for _ in 0..left.len() {
        let Some(statement) = left.pop() else {
            return Ok(lowered);
        };
        let statement = lowered_statement(statement, alloc)?;
        lowered.push(statement)?;
    }
    Ok(lowered)
}
