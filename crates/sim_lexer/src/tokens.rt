//! The tokens of a whole text.

use crate::token::Token;
use std::marker::Model;

/// The tokens of a text in their order: a `Vec` that contracts see as the list of them.
#[derive(Drop)]
pub struct Tokens {
    list: Vec<Token>,
}

impl Model for Tokens {
    ghost use Rattle.std.specs.Prelude.{List};
    ghost use Rattle.sim_lexer.specs.declared.token.Token.{Token};

    ghost Value = { List Token };

    ghost view = { λ tokens. tokens.list.items };
}

impl Tokens {
    ghost use Rattle.std.specs.Prelude.{◌≡◌};

    /// The tokens of a vector.
    pub(crate) fn of(list: Vec<Token>) -> Tokens
        ensures { result ≡ list.items }
    {
        Tokens { list }
    }

    /// The tokens in order.
    pub fn list(&self) -> &[Token]
        ensures { result.now ≡ self.now }
    {
        &self.list
    }
}
