//! The tree of a program's tokens.

ghost use Rattle.std.specs.Prelude.{◌≡◌, ◌≤◌, ◌↔◌, ℕ, Ok, Err, IfOk, All, length};
ghost use Rattle.std.specs.Result.{result_map_both};
ghost use Rattle.vocabulary.specs.Answers.{Answers};
ghost use Rattle.sim_lexer.specs.Tokens.{EndsOnce, IsSpelled, LiesIn};
ghost use Rattle.sim_lexer.specs.Words.{words_of};
ghost use Rattle.sim_grammar.specs.CutLaws.{EndsBeginnings};
ghost use Rattle.sim_grammar.specs.Grammar.{Derives, IsPlace, IsUnambiguous};
ghost use Rattle.sim_grammar.specs.ReadProgram as spec;
ghost use Rattle.token_cursor.specs.Cursor.{AreOf};
ghost use Rattle.token_cursor.specs.Reads.{Reads};
ghost use Rattle.sim_syntax.specs.declared.program.Program as tree;

use crate::declarations::declarations;
use sim_grammar::{cut_law, reading_law};
use sim_lexer::{Token, TokenKind, Tokens, keyword};
use sim_syntax::Program;
use statement_parser::main_body;
use std::alloc::Global;
use thiserror::Error;
use token_cursor::{Cursor, Halt};
use vocabulary::limits::MOST_TOKENS;

/// Why the tokens of a text have no tree.
#[derive(Clone, Copy, Debug, PartialEq, Eq, Error)]
pub enum ParseFault {
    /// The tokens before the one of this index, from 0, are a cut of a program, and with it they are none.
    #[error("syntax fault at token {token}")]
    Syntax { token: u32 },
    /// Out of memory.
    #[error("no memory")]
    Memory,
}

/// A program in which statements and expressions are nested less than so deep.
#[tactic(auto, unfolding(sim_grammar::specs::ReadProgram::program))]
fn program(alloc: Global, cursor: &mut Cursor<'_>, depth: usize) -> Result<Program, Halt>
    ensures { Reads (spec.program depth cursor.old) result cursor.new }
{
    let line = cursor.line();
    let decls = declarations(alloc, cursor, depth)?;
    cursor.skip(&[
        TokenKind::Keyword(keyword::PROC),
        TokenKind::Keyword(keyword::MAIN),
    ])?;
    let body = main_body(alloc, cursor, depth)?;
    cursor.skip(&[TokenKind::Keyword(keyword::END)])?;
    Ok(Program { line, decls, body })
}

/// A program and the end of the text.
#[tactic(auto, unfolding(sim_grammar::specs::ReadProgram::program_text))]
fn program_text(alloc: Global, cursor: &mut Cursor<'_>, depth: usize) -> Result<Program, Halt>
    ensures { Reads (spec.program_text depth cursor.old) result cursor.new }
{
    let program = program(alloc, cursor, depth)?;
    cursor.skip(&[TokenKind::End])?;
    Ok(program)
}

/// The program of these tokens, or the place where they stop being a cut of one.
#[tactic(auto, unfolding(sim_grammar::specs::ReadProgram::program_in))]
fn program_in(alloc: Global, source: &[u8], tokens: &[Token]) -> Result<Program, ParseFault>
    requires of { AreOf source.now tokens.now }
    requires few { length tokens.now ≤ MOST_TOKENS }
    ensures { Answers ParseFault.Memory (result_map_both (λ p. p) ParseFault.Syntax (spec.program_in (words_of source.now tokens.now))) result }
{
    reading_law();
    let mut cursor = Cursor::of(source, tokens);
    match program_text(alloc, &mut cursor, tokens.len()) {
        Ok(program) => Ok(program),
        Err(Halt::Memory) => Err(ParseFault::Memory),
        Err(Halt::Syntax) => {
            let token = (tokens.len() - cursor.left()) as u32;
            Err(ParseFault::Syntax { token })
        }
    }
}

/// The tree of the tokens of a text; or `Syntax` exactly where they have none, at the token where they stop being a
/// cut of a program, which is one of them.
pub fn parse(alloc: Global, source: &[u8], tokens: &Tokens) -> Result<Program, ParseFault>
    // The tokens are those of the text, as the lexer says of them.
    requires lie { All (LiesIn source.now) tokens.now }
    requires spell { All (IsSpelled source.now) tokens.now }
    requires few { length tokens.now ≤ MOST_TOKENS }
    requires ends { EndsOnce tokens.now }
    // Which tree it is, or which place.
    ensures read { Answers ParseFault.Memory (result_map_both (λ p. p) ParseFault.Syntax (spec.program_in (words_of source.now tokens.now))) result }
    // By the grammar: what is answered is derived, and what is derived is answered, unless memory runs out.
    ensures derived { IfOk result (λ p. Derives p (words_of source.now tokens.now)) }
    ensures only { (p : tree.Program) → Derives p (words_of source.now tokens.now) → Answers ParseFault.Memory (Ok p) result }
    // A refusal's place: words before it are a cut of a program and with it they are none, that is, some program begins with
    // those before it and none with it. There is no tree then.
    ensures place { (n : ℕ) → result ≡ Err (ParseFault.Syntax n) → IsPlace (words_of source.now tokens.now) n }
    ensures begins { (n : ℕ) → result ≡ Err (ParseFault.Syntax n) → EndsBeginnings (words_of source.now tokens.now) n }
    ensures refused { (n : ℕ) → result ≡ Err (ParseFault.Syntax n) → (p : tree.Program) → Derives p (words_of source.now tokens.now) → ⊥ }
    ensures unambiguous { IsUnambiguous }
    // The reader that the definitions of programs use reads exactly what the grammar derives, and else names the place.
    ensures reads_grammar { (p : tree.Program) → (spec.program_in (words_of source.now tokens.now) ≡ Ok p) ↔ Derives p (words_of source.now tokens.now) }
    ensures reads_place { (n : ℕ) → spec.program_in (words_of source.now tokens.now) ≡ Err n → IsPlace (words_of source.now tokens.now) n }
{
    reading_law();
    cut_law();
    program_in(alloc, source, tokens.list())
}
