//! Programs, in which each index expression is lowered.

ghost use Rattle.std.specs.Prelude.{◌≡◌, IfOk, map};
ghost use Rattle.vocabulary.specs.Answers.{all_ok};
ghost use Rattle.chain_forms.specs.Lowered as spec;
ghost use Rattle.chain_laws.specs.Laws.{IsTermLowered, IsTermOnly, IsTermRefused};
ghost use Rattle.index_notation.specs.Lowers.{Lowers};

use crate::fault::LowerFault;
use crate::lists::{push, reversed};
use crate::statements::lowered_statements;
use chain_forms::no_index_law;
use chain_laws::term_law;
use sim_syntax::{Decl, Lowered, Program};
use sqlite_items::Items;
use std::alloc::Global;

/// A declaration, with the statements of a function.
#[tactic(auto, unfolding(chain_forms::specs::Lowered::lowered_declaration))]
fn lowered_declaration(alloc: Global, declaration: Decl) -> Result<Decl, LowerFault>
    ensures { Lowers (spec.lowered_declaration declaration) result }
{
    match declaration {
        Decl::Func {
            line,
            name,
            params,
            results,
            body,
        } => {
            let body = lowered_statements(body, alloc)?;
            Ok(Decl::Func {
                line,
                name,
                params,
                results,
                body,
            })
        }
        other => Ok(other),
    }
}

/// Declarations, one after the other, up to the first fault.
#[tactic(auto, using(crate::proofs::Taking::begun, crate::proofs::Taking::taken, crate::proofs::Taking::refused, crate::proofs::Taking::ended))]
fn lowered_declarations(alloc: Global, declarations: Items<Decl>) -> Result<Items<Decl>, LowerFault>
    ensures { Lowers (all_ok (map spec.lowered_declaration declarations)) result }
{
    let mut left = reversed(alloc, declarations)?;
    let mut lowered = Items::new(alloc);
    for _ in 0..left.len() {
        let Some(declaration) = left.pop() else {
            return Ok(lowered);
        };
        let declaration = lowered_declaration(alloc, declaration)?;
        push(&mut lowered, declaration)?;
    }
    Ok(lowered)
}

/// The program that a program is lowered to.
#[tactic(auto, unfolding(chain_forms::specs::Lowered::lowered))]
fn lowered_program(alloc: Global, program: Program) -> Result<Program, LowerFault>
    ensures { Lowers (spec.lowered program) result }
{
    let decls = lowered_declarations(alloc, program.decls)?;
    let body = lowered_statements(program.body, alloc)?;
    Ok(Program {
        line: program.line,
        decls,
        body,
    })
}

/// The program without index expressions that a program is lowered to: each index expression becomes a sum of products, and
/// all else stays. Where an index expression isn't in chain form, the line of the first one.
pub fn lower(alloc: Global, program: Program) -> Result<Lowered, LowerFault>
    ensures answered { Lowers (spec.lowered program) result }
    ensures holds { IsTermLowered }
    ensures only { IsTermOnly }
    ensures refused { IsTermRefused }
{
    no_index_law();
    term_law();
    let lowered = lowered_program(alloc, program)?;
    match Lowered::of(lowered) {
        Ok(lowered) => Ok(lowered),
        Err(_) => unreachable!(),
    }
}
