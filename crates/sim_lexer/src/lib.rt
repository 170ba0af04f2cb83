//! The tokens of a program's text: names, numbers, keywords and symbols, each with its offsets and its line, or
//! the first fault in the text. Blanks and comments separate tokens and are none themselves.
#![tactic(auto)]

mod joining;
mod lexer;
mod token;
mod tokens;

pub use joining::joining_law;
pub use lexer::{lex, line_at};
pub use token::{KEYWORDS, LexFault, SYMBOLS, Token, TokenKind, keyword, symbol};
pub use tokens::Tokens;
