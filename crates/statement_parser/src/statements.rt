//! Statements, as functions and the main procedure share them.
//!
//! The rules take the reader of the statements inside as a parameter, so that each is proved by itself.

ghost use Rattle.std.specs.Prelude.{◌≡◌, ℕ, List};
ghost use Rattle.sim_grammar.specs.ReadExpressions.{expression};
ghost use Rattle.sim_grammar.specs.ReadConditions as spec;
ghost use Rattle.sim_grammar.specs.Read as read;
ghost use Rattle.sim_grammar.specs.Read.{Reader};
ghost use Rattle.token_cursor.specs.Reads.{Reads};
ghost use Rattle.token_cursor.specs.Nests.{IsCallable, Nests};
ghost use Rattle.sim_syntax.specs.declared.statement.Stmt as stmt;

use expression_parser::condition;
use sim_lexer::{TokenKind, keyword, symbol};
use sim_syntax::Stmt;
use sqlite_items::Items;
use std::alloc::Global;
use token_cursor::{Cursor, Halt, each};

/// The rules of statements, over a reader of the statements inside.
#[derive(Clone, Copy)]
pub struct Statements<F> {
    pub alloc: Global,
    /// How deep statements and expressions may still be nested.
    pub depth: usize,
    pub inner: F,
}

impl<F: Fn(Global, &mut Cursor<'_>, usize) -> Result<Stmt, Halt>> Statements<F> {
    /// A statement inside.
    fn inner(&self, cursor: &mut Cursor<'_>) -> Result<Stmt, Halt>
        requires { IsCallable self.now.depth (F.pre self.now.inner) }
        ensures { (reader : ℕ → Reader stmt.Stmt) → Nests reader self.now.depth (F.pre self.now.inner) (F.post self.now.inner)
            → Reads (reader self.now.depth cursor.old) result cursor.new }
    {
        (self.inner)(self.alloc, cursor, self.depth)
    }

    /// Statements inside, as long as one of these kinds stands there.
    pub fn body(&self, starts: &[TokenKind], cursor: &mut Cursor<'_>) -> Result<Items<Stmt>, Halt>
        requires { IsCallable self.now.depth (F.pre self.now.inner) }
        ensures { (reader : ℕ → Reader stmt.Stmt) → Nests reader self.now.depth (F.pre self.now.inner) (F.post self.now.inner)
            → Reads (read.each starts.now (reader self.now.depth) cursor.old) result cursor.new }
    {
        let statement = |c: &mut Cursor<'_>| self.inner(c);
        each(self.alloc, starts, statement, cursor)
    }

    /// The statements after `else`, where there are any.
    #[tactic(auto, unfolding(sim_grammar::specs::ReadConditions::otherwise, sim_grammar::specs::Read::skip))]
    fn otherwise(&self, starts: &[TokenKind], cursor: &mut Cursor<'_>) -> Result<Items<Stmt>, Halt>
        requires { IsCallable self.now.depth (F.pre self.now.inner) }
        ensures { (reader : ℕ → Reader stmt.Stmt) → Nests reader self.now.depth (F.pre self.now.inner) (F.post self.now.inner)
            → Reads (spec.otherwise (read.each starts.now (reader self.now.depth)) cursor.old) result cursor.new }
    {
        if !cursor.is_at(TokenKind::Keyword(keyword::ELSE)) {
            return Ok(Items::new(self.alloc));
        }
        cursor.skip(&[TokenKind::Keyword(keyword::ELSE)])?;
        self.body(starts, cursor)
    }

    /// A choice between statements.
    #[tactic(auto, unfolding(sim_grammar::specs::ReadConditions::if_stmt))]
    pub fn if_stmt(&self, starts: &[TokenKind], cursor: &mut Cursor<'_>) -> Result<Stmt, Halt>
        requires { IsCallable self.now.depth (F.pre self.now.inner) }
        ensures { (reader : ℕ → Reader stmt.Stmt) → Nests reader self.now.depth (F.pre self.now.inner) (F.post self.now.inner)
            → Reads (spec.if_stmt (expression self.now.depth) (read.each starts.now (reader self.now.depth)) cursor.old) result cursor.new }
    {
        let line = cursor.line();
        cursor.skip(&[TokenKind::Keyword(keyword::IF)])?;
        let cond = condition(self.alloc, cursor, self.depth)?;
        let body = self.body(starts, cursor)?;
        let otherwise = self.otherwise(starts, cursor)?;
        cursor.skip(&[TokenKind::Keyword(keyword::END)])?;
        Ok(Stmt::If {
            line,
            cond,
            body,
            otherwise,
        })
    }

    /// An assertion.
    #[tactic(auto, unfolding(sim_grammar::specs::ReadConditions::assert_stmt))]
    pub fn assert_stmt(&self, cursor: &mut Cursor<'_>) -> Result<Stmt, Halt>
        ensures { Reads (spec.assert_stmt (expression self.now.depth) cursor.old) result cursor.new }
    {
        let line = cursor.line();
        cursor.skip(&[TokenKind::Keyword(keyword::ASSERT)])?;
        let cond = condition(self.alloc, cursor, self.depth)?;
        cursor.skip(&[TokenKind::Symbol(symbol::SEMICOLON)])?;
        Ok(Stmt::Assert { line, cond })
    }
}
