//! Programs with the host functions that they call.

ghost use Rattle.std.specs.Prelude.{◌≡◌};
ghost use Rattle.value_algebra.specs.Fields.{fields_of};
ghost use Rattle.algebra_meaning.specs.Expression.{set_fields};

use host_table::{HostMeaning, HostTable};
use std::marker::Model;
use typed_tree::{TypedField, TypedProgram};
use value_algebra::{element_in, fields_of};

/// A typed program, linked to the host functions that it calls. In contracts it is the typed program.
#[derive(Drop)]
pub struct LinkedProgram<'a, H> {
    pub typed: &'a TypedProgram,
    pub hosts: &'a HostTable<H>,
}

impl<'a, H> Model for LinkedProgram<'a, H> {
    ghost use Rattle.std.specs.Coded.{codes};
    ghost use Rattle.sim_syntax.specs.contracts.expression.Expr as tree_expression;
    ghost use Rattle.sim_syntax.specs.contracts.statement.Stmt as tree_statement;
    ghost use Rattle.typed_tree.specs.contracts.expression.TypedExpr as expression;
    ghost use Rattle.typed_tree.specs.contracts.function.FunctionStmt as function;
    ghost use Rattle.typed_tree.specs.contracts.main_procedure.MainStmt as main;
    ghost use Rattle.typed_tree.specs.declared.program.TypedProgram.{TypedProgram};

    ghost Value = { TypedProgram };

    ghost coded = { Prim.hlevel (codes, tree_expression.the_row.coded, tree_statement.the_row.coded, expression.the_row.coded, function.the_row.coded, main.the_row.coded) };

    ghost view = { λ p. p.typed.now };
}

impl<'a, H: HostMeaning> LinkedProgram<'a, H> {
    /// The fields of an element type.
    pub fn element_fields(&self, element: u32) -> &'a [TypedField]
        ensures { result.now ≡ fields_of self.now.elements element }
    {
        fields_of(self.typed.elements.items(), element)
    }

    /// The fields of the elements of a set.
    pub fn set_fields(&self, set: u32) -> &'a [TypedField]
        ensures { result.now ≡ set_fields self.now set }
    {
        self.element_fields(element_in(self.typed.sets.items(), set))
    }

    /// What the host function of a number answers of two words.
    #[inline]
    pub fn call(&self, host: u32, a: u64, b: u64) -> u64
        ensures { result ≡ H.answer host a b }
    {
        self.hosts.call(host, a, b)
    }
}
