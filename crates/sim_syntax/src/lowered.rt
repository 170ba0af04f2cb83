//! A program without index expressions.

ghost use Rattle.std.specs.Prelude.{◌≡◌, IfErr, IfOk, false, true};
ghost use Rattle.sim_syntax.specs.Indices.{has_index_expression};
ghost use Rattle.std.specs.Coded.{codes};
ghost use Rattle.sim_syntax.specs.contracts.expression.Expr as expression;
ghost use Rattle.sim_syntax.specs.contracts.statement.Stmt as statement;
ghost use Rattle.sim_syntax.specs.declared.program.Program as tree;

use crate::indices::has_index_expression;
use crate::program::Program;
use std::marker::Model;

/// A program in which no index expression stands. In contracts it is that program.
#[derive(Drop)]
pub struct Lowered {
    program: Program,
}

impl Model for Lowered {
    ghost Value = { tree.Program };

    // By this a proof tells two programs apart.
    ghost coded = { Prim.hlevel (codes, expression.the_row.coded, statement.the_row.coded) };

    ghost view = { λ lowered. lowered.program };

    ghost invariant = { λ lowered. has_index_expression lowered.program ≡ false };
}

impl Lowered {
    /// The program, if no index expression stands in it; else it is handed back.
    pub fn of(program: Program) -> Result<Lowered, Program>
        ensures lowered { IfOk result (λ lowered. lowered ≡ program) }
        ensures none { IfOk result (λ lowered. has_index_expression lowered ≡ false) }
        ensures back { IfErr result (λ back. back ≡ program) }
        ensures some { IfErr result (λ back. has_index_expression back ≡ true) }
    {
        if has_index_expression(&program) {
            Err(program)
        } else {
            Ok(Lowered { program })
        }
    }

    /// The program.
    pub fn program(&self) -> &Program
        ensures value { result.now ≡ self.now }
        ensures none { has_index_expression result.now ≡ false }
    {
        &self.program
    }
}
