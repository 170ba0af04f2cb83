//! Whether an index expression stands in a program.

ghost use Rattle.std.specs.Prelude.{◌≡◌};
ghost use Rattle.sim_syntax.specs.Indices as spec;

use crate::declaration::Decl;
use crate::program::Program;
use crate::statement::{Right, Stmt};

/// Whether a right side is an index expression.
fn is_index_expression(right: &Right) -> bool
    ensures { result ≡ spec.is_index_expression right.now }
{
    matches!(right, Right::Ix { .. })
}

/// Whether an index expression stands in a statement, or in one inside it.
#[cycle(statement)]
fn in_statement(statement: &Stmt) -> bool
    ensures { result ≡ spec.in_statement statement.now }
{
    match statement {
        Stmt::Var { right, .. } => is_index_expression(right),
        Stmt::Assign { right, .. } => is_index_expression(right),
        Stmt::Write { .. } => false,
        Stmt::ConstFor { body, .. } => in_statements(body.as_slice()),
        Stmt::For { body, .. } => in_statements(body.as_slice()),
        Stmt::While { body, .. } => in_statements(body.as_slice()),
        Stmt::If {
            body,
            otherwise,
            ..
        } => in_statements(body.as_slice()) || in_statements(otherwise.as_slice()),
        Stmt::Assert { .. } => false,
    }
}

/// Whether an index expression stands in one of some statements.
#[cycle(statement)]
#[tactic(auto, using(crate::proofs::Tests::test_passed, crate::proofs::Tests::test_failed, crate::proofs::Tests::none_to_test))]
fn in_statements(statements: &[Stmt]) -> bool
    ensures { result ≡ spec.in_statements statements.now }
{
    for statement in statements {
        if in_statement(statement) {
            return true;
        }
    }
    false
}

/// Whether an index expression stands in a declaration.
fn in_declaration(declaration: &Decl) -> bool
    ensures { result ≡ spec.in_declaration declaration.now }
{
    match declaration {
        Decl::Func { body, .. } => in_statements(body.as_slice()),
        _ => false,
    }
}

/// Whether an index expression stands in one of some declarations.
fn in_declarations(declarations: &[Decl]) -> bool
    ensures { result ≡ spec.in_declarations declarations.now }
{
    declarations.iter().any(in_declaration)
}

/// Whether an index expression stands in a program.
pub fn has_index_expression(program: &Program) -> bool
    ensures { result ≡ spec.has_index_expression program.now }
{
    in_declarations(program.decls.as_slice()) || in_statements(program.body.as_slice())
}
