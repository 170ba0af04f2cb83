//! Programs, printed.

ghost use Rattle.std.specs.Prelude.{◌≡◌, ℕ, List, Ok, IfOk, OnOk};
ghost use Rattle.sim_lexer.specs.Joined.{joined};
ghost use Rattle.sim_lexer.specs.Tokens.{tokens};
ghost use Rattle.sim_lexer.specs.Words.{words_of};
ghost use Rattle.sim_lexer.specs.declared.token.Token.{Token};
ghost use Rattle.sim_grammar.specs.Grammar.{Derives};
ghost use Rattle.sim_printer.specs.Grown.{Grown};
ghost use Rattle.sim_printer.specs.Printed as spec;
ghost use Rattle.sim_printer.specs.ReadsBack.{ReadsBack};

use crate::declarations::declarations;
use crate::laws::printing_law;
use crate::line::Line;
use crate::statements::statements;
use sim_lexer::{TokenKind, keyword};
use sim_syntax::Program;
use std::alloc::Global;
use vocabulary::NoMemory;

/// The text of a program, on one line. Where some text derives the program, this one does so too, but for the lines.
pub fn print(alloc: Global, program: &Program) -> Result<Vec<u8>, NoMemory>
    ensures text { IfOk result (λ text. text.items ≡ joined (spec.printed program.now)) }
    ensures reads_back { (source : List ℕ) (all : List Token) → tokens source ≡ Ok all → Derives program.now (words_of source all) → ReadsBack program.now }
{
    printing_law();
    let mut line = Line::new(alloc);
    write(program, &mut line)?;
    Ok(line.into_bytes())
}

/// A program.
#[tactic(auto, using(crate::proofs::Growing::grown_both))]
fn write(program: &Program, line: &mut Line) -> Result<(), NoMemory>
    ensures { OnOk result (Grown line.old line.new (spec.printed program.now)) }
{
    declarations(program.decls.as_slice(), line)?;
    line.fixed(TokenKind::Keyword(keyword::PROC))?;
    line.fixed(TokenKind::Keyword(keyword::MAIN))?;
    statements(program.body.as_slice(), line)?;
    line.fixed(TokenKind::Keyword(keyword::END))
}
