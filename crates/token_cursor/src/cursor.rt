//! A cursor over the tokens of a text.

ghost use Rattle.std.specs.Prelude.{◌≡◌, ◌⊎◌, ◌∷◌, [], length, IfOk, IsAscii};
ghost use Rattle.sim_lexer.specs.Words.{words_of};
ghost use Rattle.token_cursor.specs.Cursor.{AreOf};
ghost use Rattle.sim_grammar.specs.Read as read;
ghost use Rattle.token_cursor.specs.Reads.{Reads, Skips};
ghost use Rattle.sim_grammar.specs.Rule as rule;

use crate::halt::Halt;
use sim_lexer::{Token, TokenKind};
use sim_syntax::{Name, Num};
use std::alloc::{AllocError, Global};
use std::marker::Model;
use vocabulary::Text;

/// The tokens of a text that aren't read yet. Contracts see their words.
#[derive(Drop)]
pub struct Cursor<'a> {
    source: &'a [u8],
    tokens: &'a [Token],
}

impl<'a> Model for Cursor<'a> {
    ghost use Rattle.std.specs.Prelude.{List};
    ghost use Rattle.sim_lexer.specs.Words.{Word, words_of};
    ghost use Rattle.token_cursor.specs.Cursor.{AreOf};

    ghost Value = { List Word };

    ghost view = { λ c. words_of c.source.now c.tokens.now };

    ghost invariant = { λ c. AreOf c.source.now c.tokens.now };
}

/// Whether two tokens are of one kind, and of one spelling where their kind has several fixed ones.
fn is_kind(a: TokenKind, b: TokenKind) -> bool
    ensures { result ≡ read.is_kind a b }
{
    match (a, b) {
        (TokenKind::Keyword(m), TokenKind::Keyword(n)) => m == n,
        (TokenKind::Symbol(m), TokenKind::Symbol(n)) => m == n,
        (TokenKind::Name, TokenKind::Name) => true,
        (TokenKind::Number, TokenKind::Number) => true,
        (TokenKind::End, TokenKind::End) => true,
        _ => false,
    }
}

/// Whether a kind is one of these.
fn among(kinds: &[TokenKind], kind: TokenKind) -> bool
    ensures { result ≡ read.among kinds.now kind }
{
    kinds.iter().any(|other| is_kind(kind, *other))
}

/// Bytes as a text.
fn to_text(alloc: Global, bytes: &[u8]) -> Result<Text, AllocError>
    requires { IsAscii bytes.now }
    ensures { IfOk result (λ text. text ≡ bytes.now) }
{
    Ok(Text::of(String::from_utf8_lossy(alloc, bytes)?))
}

impl<'a> Cursor<'a> {
    /// The tokens of a text.
    pub fn of(source: &'a [u8], tokens: &'a [Token]) -> Cursor<'a>
        requires { AreOf source.now tokens.now }
        ensures { result ≡ words_of source.now tokens.now }
    {
        Cursor { source, tokens }
    }

    /// How many tokens are left.
    pub fn left(&self) -> usize
        ensures { result ≡ length self.now }
    {
        self.tokens.len()
    }

    /// The line of the next token.
    pub fn line(&self) -> u32
        ensures { result ≡ rule.line_of self.now }
    {
        match self.tokens {
            [] => 0,
            [token, ..] => token.line,
        }
    }

    /// Whether the next token is of one of these kinds.
    pub fn is_at_one(&self, kinds: &[TokenKind]) -> bool
        ensures { result ≡ read.starts kinds.now self.now }
    {
        match self.tokens {
            [] => false,
            [token, ..] => among(kinds, token.kind),
        }
    }

    /// Whether the next token is of a kind.
    pub fn is_at(&self, kind: TokenKind) -> bool
        ensures { result ≡ read.starts (kind ∷ []) self.now }
    {
        self.is_at_one(&[kind])
    }

    /// Goes past a token of a kind.
    #[tactic(auto, unfolding(sim_grammar::specs::Read::skip_one))]
    fn skip_one(&mut self, kind: TokenKind) -> Result<(), Halt>
        ensures { Skips (read.skip_one kind self.old) result self.new }
    {
        match self.tokens {
            [token, rest @ ..] if is_kind(token.kind, kind) => {
                self.tokens = rest;
                Ok(())
            }
            _ => Err(Halt::Syntax),
        }
    }

    /// Goes past tokens of these kinds.
    #[tactic(auto, unfolding(sim_grammar::specs::Read::skip))]
    pub fn skip(&mut self, kinds: &[TokenKind]) -> Result<(), Halt>
        ensures { Skips (read.skip kinds.now self.old) result self.new }
    {
        match kinds {
            [] => Ok(()),
            [kind, others @ ..] => {
                self.skip_one(*kind)?;
                self.skip(others)?;
                Ok(())
            }
        }
    }

    /// Goes past a token of a kind, if it stands there, and tells whether it did.
    #[tactic(auto, unfolding(sim_grammar::specs::Read::skip, sim_grammar::specs::Read::skip_one))]
    pub fn eat(&mut self, kind: TokenKind) -> bool
        ensures { read.whether (kind ∷ []) self.old ≡ Ok (result, self.new) }
    {
        match self.tokens {
            [token, rest @ ..] if is_kind(token.kind, kind) => {
                self.tokens = rest;
                true
            }
            _ => false,
        }
    }

    /// The text of a token of a kind, a name or a number.
    #[tactic(auto, unfolding(sim_grammar::specs::Read::spelt))]
    fn text(&mut self, alloc: Global, kind: TokenKind) -> Result<Text, Halt>
        requires { (kind ≡ TokenKind.Name) ⊎ (kind ≡ TokenKind.Number) }
        ensures { Reads (read.spelt kind self.old) result self.new }
    {
        match self.tokens {
            [token, rest @ ..] if is_kind(token.kind, kind) => {
                let bytes = &self.source[token.from as usize..token.to as usize];
                let text = to_text(alloc, bytes)?;
                self.tokens = rest;
                Ok(text)
            }
            _ => Err(Halt::Syntax),
        }
    }

    /// A name.
    pub fn name(&mut self, alloc: Global) -> Result<Name, Halt>
        ensures { Reads (read.spelt TokenKind.Name self.old) result self.new }
    {
        self.text(alloc, TokenKind::Name)
    }

    /// A number's digits.
    pub fn number(&mut self, alloc: Global) -> Result<Num, Halt>
        ensures { Reads (read.spelt TokenKind.Number self.old) result self.new }
    {
        self.text(alloc, TokenKind::Number)
    }
}
