//! Where a function runs.

use algebra_meaning::{ElementContext, LinkedProgram, Scope};
use host_table::HostMeaning;
use hypergraph::Sets;
use std::marker::Model;
use value_algebra::Value;

/// What stays the same while a function runs at an element. In contracts it stands without what host functions answer.
#[derive(Drop)]
pub struct Call<'a, H> {
    pub program: &'a LinkedProgram<'a, H>,
    pub sets: &'a Sets,
    pub place: ElementContext,
}

impl<'a, H> Model for Call<'a, H> {
    ghost use Rattle.std.specs.Coded.{codes};
    ghost use Rattle.sim_syntax.specs.contracts.expression.Expr as tree_expression;
    ghost use Rattle.sim_syntax.specs.contracts.statement.Stmt as tree_statement;
    ghost use Rattle.typed_tree.specs.contracts.expression.TypedExpr as expression;
    ghost use Rattle.typed_tree.specs.contracts.function.FunctionStmt as function;
    ghost use Rattle.typed_tree.specs.contracts.main_procedure.MainStmt as main;
    ghost use Rattle.algebra_meaning.specs.Element as spec;

    ghost Value = { spec.Site };

    ghost coded = { Prim.hlevel (codes, tree_expression.the_row.coded, tree_statement.the_row.coded, expression.the_row.coded, function.the_row.coded, main.the_row.coded) };

    ghost view = { λ c. record { program = c.program.now; sets = c.sets.now; place = c.place } };
}

impl<'a, H: HostMeaning> Call<'a, H> {
    ghost use Rattle.std.specs.Prelude.{◌≡◌};
    ghost use Rattle.algebra_meaning.specs.Element as spec;
    ghost use Rattle.algebra_meaning.specs.Expression.{hosted};

    /// What the names of an expression stand for, by the locals.
    pub(crate) fn scope<'b>(&'b self, locals: &'b [Value]) -> Scope<'b, H>
        ensures { hosted H.answer result ≡ spec.scope_of (spec.call_in H.answer self.now) locals.now }
    {
        Scope {
            program: self.program,
            sets: self.sets,
            variables: &[],
            locals,
            place: Some(self.place),
        }
    }
}
