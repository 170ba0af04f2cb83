//! What names stand for.

use crate::context::ElementContext;
use crate::linked::LinkedProgram;
use hypergraph::Sets;
use std::marker::Model;
use value_algebra::Value;

/// What the names of an expression stand for: fields of sets, the variables of the main procedure, locals, host
/// functions, and in a function the element and its endpoints.
#[derive(Drop)]
pub struct Scope<'a, H> {
    pub program: &'a LinkedProgram<'a, H>,
    pub sets: &'a Sets,
    pub variables: &'a [Value],
    pub locals: &'a [Value],
    pub place: Option<ElementContext>,
}

impl<'a, H> Model for Scope<'a, H> {
    ghost use Rattle.std.specs.Coded.{codes};
    ghost use Rattle.sim_syntax.specs.contracts.expression.Expr as tree_expression;
    ghost use Rattle.sim_syntax.specs.contracts.statement.Stmt as tree_statement;
    ghost use Rattle.typed_tree.specs.contracts.expression.TypedExpr as expression;
    ghost use Rattle.typed_tree.specs.contracts.function.FunctionStmt as function;
    ghost use Rattle.typed_tree.specs.contracts.main_procedure.MainStmt as main;
    ghost use Rattle.algebra_meaning.specs.Expression as spec;

    ghost Value = { spec.Visible };

    ghost coded = { Prim.hlevel (codes, tree_expression.the_row.coded, tree_statement.the_row.coded, expression.the_row.coded, function.the_row.coded, main.the_row.coded) };

    ghost view = { λ s. record { program = s.program.now; sets = s.sets.now; variables = s.variables.now; locals = s.locals.now; place = s.place } };
}
