//! Statements of the main procedure.

ghost use Rattle.std.specs.Prelude.{◌≡◌};
ghost use Rattle.sim_grammar.specs.ReadExpressions.{expression};
ghost use Rattle.sim_grammar.specs.ReadConditions as conditions;
ghost use Rattle.sim_grammar.specs.ReadMain as spec;
ghost use Rattle.token_cursor.specs.Reads.{Reads};
ghost use Rattle.token_cursor.specs.Nests.{Nests};

use crate::statements::Statements;
use assignment_parser::{assign, var};
use expression_parser::{condition, expression};
use sim_lexer::{TokenKind, keyword, symbol};
use sim_syntax::Stmt;
use sqlite_items::Items;
use std::alloc::Global;
use token_cursor::{Cursor, Halt};

/// What a statement of the main procedure begins with.
fn starts() -> [TokenKind; 6]
    ensures { result ≡ spec.main_starts }
{
    [
        TokenKind::Keyword(keyword::VAR),
        TokenKind::Keyword(keyword::WHILE),
        TokenKind::Keyword(keyword::FOR),
        TokenKind::Keyword(keyword::IF),
        TokenKind::Keyword(keyword::ASSERT),
        TokenKind::Name,
    ]
}

impl<F: Fn(Global, &mut Cursor<'_>, usize) -> Result<Stmt, Halt>> Statements<F> {
    /// The statements inside.
    #[tactic(auto, unfolding(sim_grammar::specs::ReadMain::main_body))]
    fn main_body(&self, cursor: &mut Cursor<'_>) -> Result<Items<Stmt>, Halt>
        requires { Nests spec.main_statement self.now.depth (F.pre self.now.inner) (F.post self.now.inner) }
        ensures { Reads (spec.main_body self.now.depth cursor.old) result cursor.new }
    {
        self.body(&starts(), cursor)
    }

    /// A loop with a condition.
    #[tactic(auto, unfolding(sim_grammar::specs::ReadMain::while_stmt))]
    fn while_stmt(&self, cursor: &mut Cursor<'_>) -> Result<Stmt, Halt>
        requires { Nests spec.main_statement self.now.depth (F.pre self.now.inner) (F.post self.now.inner) }
        ensures { Reads (spec.while_stmt (expression self.now.depth) (spec.main_body self.now.depth) cursor.old) result cursor.new }
    {
        let line = cursor.line();
        cursor.skip(&[TokenKind::Keyword(keyword::WHILE)])?;
        let cond = condition(self.alloc, cursor, self.depth)?;
        let body = self.main_body(cursor)?;
        cursor.skip(&[TokenKind::Keyword(keyword::END)])?;
        Ok(Stmt::While { line, cond, body })
    }

    /// A loop between bounds.
    #[tactic(auto, unfolding(sim_grammar::specs::ReadMain::for_stmt))]
    fn for_stmt(&self, cursor: &mut Cursor<'_>) -> Result<Stmt, Halt>
        requires { Nests spec.main_statement self.now.depth (F.pre self.now.inner) (F.post self.now.inner) }
        ensures { Reads (spec.for_stmt (expression self.now.depth) (spec.main_body self.now.depth) cursor.old) result cursor.new }
    {
        let line = cursor.line();
        cursor.skip(&[TokenKind::Keyword(keyword::FOR)])?;
        let name = cursor.name(self.alloc)?;
        cursor.skip(&[TokenKind::Keyword(keyword::IN)])?;
        let from = expression(self.alloc, cursor, self.depth)?;
        cursor.skip(&[TokenKind::Symbol(symbol::COLON)])?;
        let to = expression(self.alloc, cursor, self.depth)?;
        let body = self.main_body(cursor)?;
        cursor.skip(&[TokenKind::Keyword(keyword::END)])?;
        Ok(Stmt::For {
            line,
            name,
            from,
            to,
            body,
        })
    }

    /// A choice between statements.
    #[tactic(auto, unfolding(sim_grammar::specs::ReadMain::main_body))]
    fn main_if(&self, cursor: &mut Cursor<'_>) -> Result<Stmt, Halt>
        requires { Nests spec.main_statement self.now.depth (F.pre self.now.inner) (F.post self.now.inner) }
        ensures { Reads (conditions.if_stmt (expression self.now.depth) (spec.main_body self.now.depth) cursor.old) result cursor.new }
    {
        self.if_stmt(&starts(), cursor)
    }

    /// A statement.
    #[tactic(auto, unfolding(sim_grammar::specs::ReadMain::main_stmt))]
    fn main_stmt(&self, cursor: &mut Cursor<'_>) -> Result<Stmt, Halt>
        requires { Nests spec.main_statement self.now.depth (F.pre self.now.inner) (F.post self.now.inner) }
        ensures { Reads (spec.main_stmt (expression self.now.depth) (spec.main_body self.now.depth) cursor.old) result cursor.new }
    {
        if cursor.is_at(TokenKind::Keyword(keyword::VAR)) {
            var(self.alloc, cursor, self.depth)
        } else if cursor.is_at(TokenKind::Keyword(keyword::WHILE)) {
            self.while_stmt(cursor)
        } else if cursor.is_at(TokenKind::Keyword(keyword::FOR)) {
            self.for_stmt(cursor)
        } else if cursor.is_at(TokenKind::Keyword(keyword::IF)) {
            self.main_if(cursor)
        } else if cursor.is_at(TokenKind::Keyword(keyword::ASSERT)) {
            self.assert_stmt(cursor)
        } else {
            assign(self.alloc, cursor, self.depth)
        }
    }
}

/// A statement in which others, and expressions, are nested less than so deep.
fn main_statement(alloc: Global, cursor: &mut Cursor<'_>, depth: usize) -> Result<Stmt, Halt>
    ensures { Reads (spec.main_statement depth cursor.old) result cursor.new }
{
    if depth == 0 {
        return Err(Halt::Syntax);
    }
    let depth = depth - 1;
    let inner = main_statement;
    Statements {
        alloc,
        depth,
        inner,
    }
    .main_stmt(cursor)
}

/// Statements in which others, and expressions, are nested less than so deep.
pub fn main_body(alloc: Global, cursor: &mut Cursor<'_>, depth: usize) -> Result<Items<Stmt>, Halt>
    ensures { Reads (spec.main_body depth cursor.old) result cursor.new }
{
    let inner = main_statement;
    Statements {
        alloc,
        depth,
        inner,
    }
    .main_body(cursor)
}
