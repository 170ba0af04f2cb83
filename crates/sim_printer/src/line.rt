//! A line of words.

ghost use Rattle.std.specs.Prelude.{◌≡◌, [], map, slice_index_or};
ghost use Rattle.sim_printer.specs.Printed as spec;

use sim_lexer::{KEYWORDS, SYMBOLS, TokenKind};
use std::alloc::Global;
use std::marker::Model;
use vocabulary::marks::SPACE;
use vocabulary::{NoMemory, Text};

/// Words, each followed by a blank. Contracts see the bytes.
#[derive(Drop)]
pub struct Line {
    bytes: Vec<u8>,
}

impl Model for Line {
    ghost use Rattle.std.specs.Prelude.{List, ℕ};

    ghost Value = { List ℕ };

    ghost view = { λ line. line.bytes.items };
}

impl Line {
    ghost use Rattle.std.specs.Prelude.{◌≡◌, [], ◌∷◌, ◌++◌, OnOk};
    ghost use Rattle.vocabulary.specs.declared.marks.TheConstants.{SPACE};
    ghost use Rattle.sim_printer.specs.Printed as spec;
    ghost use Rattle.sim_printer.specs.Grown.{Grown};

    /// The line without words.
    pub fn new(alloc: Global) -> Line
        ensures { result ≡ [] }
    {
        Line {
            bytes: Vec::new(alloc),
        }
    }

    /// The bytes.
    pub fn into_bytes(self) -> Vec<u8>
        ensures { result.items ≡ self }
    {
        self.bytes
    }

    /// Appends a name.
    pub fn name(&mut self, name: &Text) -> Result<(), NoMemory>
        ensures { OnOk result (Grown self.old self.new (spec.name name.now)) }
    {
        self.word(name.as_str().as_bytes())
    }

    /// Appends a number.
    pub fn number(&mut self, number: &Text) -> Result<(), NoMemory>
        ensures { OnOk result (Grown self.old self.new (spec.number number.now)) }
    {
        self.word(number.as_str().as_bytes())
    }

    /// Appends a keyword or a symbol.
    pub fn fixed(&mut self, kind: TokenKind) -> Result<(), NoMemory>
        ensures { OnOk result (Grown self.old self.new (spec.fixed (kind ∷ []))) }
    {
        self.word(spelling(kind))
    }

    /// Appends a word and a blank.
    fn word(&mut self, text: &[u8]) -> Result<(), NoMemory>
        ensures { OnOk result (self.new ≡ self.old ++ (text.now ++ SPACE ∷ [])) }
    {
        self.bytes.extend_from_slice(text).map_err(|_| NoMemory)?;
        self.bytes.push(SPACE).map_err(|_| NoMemory)
    }
}

/// How a keyword or a symbol is spelled.
#[tactic(auto, unfolding(crate::specs::Printed::spelling))]
fn spelling(kind: TokenKind) -> &'static [u8]
    ensures { result.now ≡ spec.spelling kind }
{
    match kind {
        TokenKind::Keyword(n) => spelled(&KEYWORDS, n as usize),
        TokenKind::Symbol(n) => spelled(&SYMBOLS, n as usize),
        _ => b"",
    }
}

/// The spelling in the row of this index, and none where there is no such row.
#[tactic(auto, using(crate::proofs::Rows::row_spelling, crate::proofs::Rows::no_row))]
fn spelled(rows: &[(&'static [u8], u8)], n: usize) -> &'static [u8]
    ensures { result.now ≡ slice_index_or (map (λ row. row.0.now) rows.now) n [] }
{
    if n < rows.len() { rows[n].0 } else { b"" }
}
