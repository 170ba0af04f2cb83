//! Statements of functions.

ghost use Rattle.std.specs.Prelude.{◌≡◌};
ghost use Rattle.sim_grammar.specs.ReadExpressions.{expression};
ghost use Rattle.sim_grammar.specs.ReadConditions as conditions;
ghost use Rattle.sim_grammar.specs.ReadFunctions as spec;
ghost use Rattle.token_cursor.specs.Reads.{Reads};
ghost use Rattle.token_cursor.specs.Nests.{Nests};

use crate::statements::Statements;
use assignment_parser::{local_var, named_stmt};
use sim_lexer::{TokenKind, keyword, symbol};
use sim_syntax::Stmt;
use sqlite_items::Items;
use std::alloc::Global;
use token_cursor::{Cursor, Halt};

/// What a statement of a function begins with.
fn starts() -> [TokenKind; 5]
    ensures { result ≡ spec.func_starts }
{
    [
        TokenKind::Keyword(keyword::VAR),
        TokenKind::Keyword(keyword::FOR),
        TokenKind::Keyword(keyword::IF),
        TokenKind::Keyword(keyword::ASSERT),
        TokenKind::Name,
    ]
}

impl<F: Fn(Global, &mut Cursor<'_>, usize) -> Result<Stmt, Halt>> Statements<F> {
    /// The statements inside.
    #[tactic(auto, unfolding(sim_grammar::specs::ReadFunctions::func_body))]
    fn func_body(&self, cursor: &mut Cursor<'_>) -> Result<Items<Stmt>, Halt>
        requires { Nests spec.func_statement self.now.depth (F.pre self.now.inner) (F.post self.now.inner) }
        ensures { Reads (spec.func_body self.now.depth cursor.old) result cursor.new }
    {
        self.body(&starts(), cursor)
    }

    /// A loop.
    #[tactic(auto, unfolding(sim_grammar::specs::ReadFunctions::const_for))]
    fn const_for(&self, cursor: &mut Cursor<'_>) -> Result<Stmt, Halt>
        requires { Nests spec.func_statement self.now.depth (F.pre self.now.inner) (F.post self.now.inner) }
        ensures { Reads (spec.const_for (spec.func_body self.now.depth) cursor.old) result cursor.new }
    {
        let line = cursor.line();
        cursor.skip(&[TokenKind::Keyword(keyword::FOR)])?;
        let name = cursor.name(self.alloc)?;
        cursor.skip(&[TokenKind::Keyword(keyword::IN)])?;
        let from = cursor.number(self.alloc)?;
        cursor.skip(&[TokenKind::Symbol(symbol::COLON)])?;
        let to = cursor.number(self.alloc)?;
        let body = self.func_body(cursor)?;
        cursor.skip(&[TokenKind::Keyword(keyword::END)])?;
        Ok(Stmt::ConstFor {
            line,
            name,
            from,
            to,
            body,
        })
    }

    /// A choice between statements.
    #[tactic(auto, unfolding(sim_grammar::specs::ReadFunctions::func_body))]
    fn func_if(&self, cursor: &mut Cursor<'_>) -> Result<Stmt, Halt>
        requires { Nests spec.func_statement self.now.depth (F.pre self.now.inner) (F.post self.now.inner) }
        ensures { Reads (conditions.if_stmt (expression self.now.depth) (spec.func_body self.now.depth) cursor.old) result cursor.new }
    {
        self.if_stmt(&starts(), cursor)
    }

    /// A statement.
    #[tactic(auto, unfolding(sim_grammar::specs::ReadFunctions::func_stmt))]
    fn func_stmt(&self, cursor: &mut Cursor<'_>) -> Result<Stmt, Halt>
        requires { Nests spec.func_statement self.now.depth (F.pre self.now.inner) (F.post self.now.inner) }
        ensures { Reads (spec.func_stmt (expression self.now.depth) (spec.func_body self.now.depth) cursor.old) result cursor.new }
    {
        if cursor.is_at(TokenKind::Keyword(keyword::VAR)) {
            local_var(self.alloc, cursor, self.depth)
        } else if cursor.is_at(TokenKind::Keyword(keyword::FOR)) {
            self.const_for(cursor)
        } else if cursor.is_at(TokenKind::Keyword(keyword::IF)) {
            self.func_if(cursor)
        } else if cursor.is_at(TokenKind::Keyword(keyword::ASSERT)) {
            self.assert_stmt(cursor)
        } else {
            named_stmt(self.alloc, cursor, self.depth)
        }
    }
}

/// A statement in which others, and expressions, are nested less than so deep.
fn func_statement(alloc: Global, cursor: &mut Cursor<'_>, depth: usize) -> Result<Stmt, Halt>
    ensures { Reads (spec.func_statement depth cursor.old) result cursor.new }
{
    if depth == 0 {
        return Err(Halt::Syntax);
    }
    let depth = depth - 1;
    let inner = func_statement;
    Statements {
        alloc,
        depth,
        inner,
    }
    .func_stmt(cursor)
}

/// Statements in which others, and expressions, are nested less than so deep.
pub fn func_body(alloc: Global, cursor: &mut Cursor<'_>, depth: usize) -> Result<Items<Stmt>, Halt>
    ensures { Reads (spec.func_body depth cursor.old) result cursor.new }
{
    let inner = func_statement;
    Statements {
        alloc,
        depth,
        inner,
    }
    .func_body(cursor)
}
