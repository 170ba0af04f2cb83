//! What the names of a function's expressions stand for.

use crate::locals::Locals;
use algebra_meaning::{ElementContext, LinkedProgram};
use hypergraph::Sets;
use std::marker::Model;

/// What the names of a function's expressions stand for at an element: its locals, and the fields of the element and of
/// its endpoints.
#[derive(Drop)]
pub struct Words<'a, H> {
    pub program: &'a LinkedProgram<'a, H>,
    pub sets: &'a Sets,
    pub locals: &'a Locals,
    pub place: ElementContext,
}

impl<'a, H> Model for Words<'a, H> {
    ghost use Rattle.std.specs.Prelude.{[], Some};
    ghost use Rattle.std.specs.Coded.{codes};
    ghost use Rattle.sim_syntax.specs.contracts.expression.Expr as tree_expression;
    ghost use Rattle.sim_syntax.specs.contracts.statement.Stmt as tree_statement;
    ghost use Rattle.typed_tree.specs.contracts.expression.TypedExpr as expression;
    ghost use Rattle.typed_tree.specs.contracts.function.FunctionStmt as function;
    ghost use Rattle.typed_tree.specs.contracts.main_procedure.MainStmt as main;
    ghost use Rattle.algebra_meaning.specs.Expression as spec;

    ghost Value = { spec.Visible };

    ghost coded = { Prim.hlevel (codes, tree_expression.the_row.coded, tree_statement.the_row.coded, expression.the_row.coded, function.the_row.coded, main.the_row.coded) };

    ghost view = { λ w. record { program = w.program.now; sets = w.sets.now; variables = []; locals = w.locals.now; place = Some w.place } };
}
