//! The tokens of a program's text: their kinds, and the numbers of the keywords and symbols.

use thiserror::Error;

/// What a token is.
#[derive(Clone, Copy, Debug, PartialEq, Eq)]
pub enum TokenKind {
    /// A letter or `_`, then letters, digits and `_`, that is no keyword.
    Name,
    /// Digits, optionally with a point and digits.
    Number,
    /// The keyword of this number in [`keyword`].
    Keyword(u8),
    /// The symbol of this number in [`symbol`].
    Symbol(u8),
    /// The end of the text.
    End,
}

/// A token and where it stands, in bytes of the text.
#[derive(Clone, Copy, Debug, PartialEq, Eq)]
pub struct Token {
    pub kind: TokenKind,
    /// The offset of its first byte, from 0.
    pub from: u32,
    /// The offset after its last byte.
    pub to: u32,
    /// The line of its first byte, from 1.
    pub line: u32,
}

/// Why a text has no tokens. Each fault but `Memory` names the first byte of the token where it stands.
#[derive(Clone, Copy, Debug, PartialEq, Eq, Error)]
pub enum LexFault {
    /// No token begins with the byte at this offset.
    #[error("bad byte at {at}")]
    BadByte { at: u32 },
    /// The name at this offset has more bytes than a name may have.
    #[error("long name at {at}")]
    LongName { at: u32 },
    /// The token at this offset is the first that is too many.
    #[error("too many tokens at {at}")]
    TooMany { at: u32 },
    /// The token at this offset opens one bracket or block more than may be open.
    #[error("too deep at {at}")]
    TooDeep { at: u32 },
    /// Out of memory.
    #[error("no memory")]
    Memory,
}

/// The numbers of the keywords: their indexes in alphabetical order, from 0.
pub mod keyword {
    pub const AND: u8 = 0;

    pub const ASSERT: u8 = 1;

    pub const BY: u8 = 2;

    pub const DOT: u8 = 3;

    pub const ELEMENT: u8 = 4;

    pub const ELSE: u8 = 5;

    pub const END: u8 = 6;

    pub const EXTERN: u8 = 7;

    pub const FOR: u8 = 8;

    pub const FUNC: u8 = 9;

    pub const IF: u8 = 10;

    pub const IN: u8 = 11;

    pub const INT: u8 = 12;

    pub const ISQRT: u8 = 13;

    pub const IX: u8 = 14;

    pub const MAIN: u8 = 15;

    pub const MAP: u8 = 16;

    pub const MATRIX: u8 = 17;

    pub const MAX: u8 = 18;

    pub const MIN: u8 = 19;

    pub const NOT: u8 = 20;

    pub const OR: u8 = 21;

    pub const PROC: u8 = 22;

    pub const QUOT: u8 = 23;

    pub const REDUCE: u8 = 24;

    pub const RESCALE: u8 = 25;

    pub const SET: u8 = 26;

    pub const TANGENT: u8 = 27;

    pub const TO: u8 = 28;

    pub const VAR: u8 = 29;

    pub const VECTOR: u8 = 30;

    pub const WHILE: u8 = 31;
}

/// The numbers of the symbols: their indexes in a list with the longer ones first, from 0.
pub mod symbol {
    /// `.*`
    pub const ENTRYWISE: u8 = 0;
    /// `->`
    pub const ARROW: u8 = 1;
    /// `==`
    pub const EQUAL: u8 = 2;
    /// `!=`
    pub const DIFFERS: u8 = 3;
    /// `<=`
    pub const AT_MOST: u8 = 4;
    /// `>=`
    pub const AT_LEAST: u8 = 5;
    /// `(`
    pub const OPEN_PAREN: u8 = 6;
    /// `)`
    pub const CLOSE_PAREN: u8 = 7;
    /// `[`
    pub const OPEN_BRACKET: u8 = 8;
    /// `]`
    pub const CLOSE_BRACKET: u8 = 9;
    /// `{`
    pub const OPEN_BRACE: u8 = 10;
    /// `}`
    pub const CLOSE_BRACE: u8 = 11;
    /// `:`
    pub const COLON: u8 = 12;
    /// `;`
    pub const SEMICOLON: u8 = 13;
    /// `,`
    pub const COMMA: u8 = 14;
    /// `.`
    pub const POINT: u8 = 15;
    /// `*`
    pub const STAR: u8 = 16;
    /// `+`
    pub const PLUS: u8 = 17;
    /// `-`
    pub const MINUS: u8 = 18;
    /// `=`
    pub const ASSIGN: u8 = 19;
    /// `<`
    pub const LESS: u8 = 20;
    /// `>`
    pub const GREATER: u8 = 21;
    /// `'`
    pub const TRANSPOSE: u8 = 22;
}

/// Each keyword's spelling and number.
pub const KEYWORDS: [(&[u8], u8); 32] = [
    (b"and", keyword::AND),
    (b"assert", keyword::ASSERT),
    (b"by", keyword::BY),
    (b"dot", keyword::DOT),
    (b"element", keyword::ELEMENT),
    (b"else", keyword::ELSE),
    (b"end", keyword::END),
    (b"extern", keyword::EXTERN),
    (b"for", keyword::FOR),
    (b"func", keyword::FUNC),
    (b"if", keyword::IF),
    (b"in", keyword::IN),
    (b"int", keyword::INT),
    (b"isqrt", keyword::ISQRT),
    (b"ix", keyword::IX),
    (b"main", keyword::MAIN),
    (b"map", keyword::MAP),
    (b"matrix", keyword::MATRIX),
    (b"max", keyword::MAX),
    (b"min", keyword::MIN),
    (b"not", keyword::NOT),
    (b"or", keyword::OR),
    (b"proc", keyword::PROC),
    (b"quot", keyword::QUOT),
    (b"reduce", keyword::REDUCE),
    (b"rescale", keyword::RESCALE),
    (b"set", keyword::SET),
    (b"tangent", keyword::TANGENT),
    (b"to", keyword::TO),
    (b"var", keyword::VAR),
    (b"vector", keyword::VECTOR),
    (b"while", keyword::WHILE),
];

/// Each symbol's spelling and number. No spelling follows one that begins it.
pub const SYMBOLS: [(&[u8], u8); 23] = [
    (b".*", symbol::ENTRYWISE),
    (b"->", symbol::ARROW),
    (b"==", symbol::EQUAL),
    (b"!=", symbol::DIFFERS),
    (b"<=", symbol::AT_MOST),
    (b">=", symbol::AT_LEAST),
    (b"(", symbol::OPEN_PAREN),
    (b")", symbol::CLOSE_PAREN),
    (b"[", symbol::OPEN_BRACKET),
    (b"]", symbol::CLOSE_BRACKET),
    (b"{", symbol::OPEN_BRACE),
    (b"}", symbol::CLOSE_BRACE),
    (b":", symbol::COLON),
    (b";", symbol::SEMICOLON),
    (b",", symbol::COMMA),
    (b".", symbol::POINT),
    (b"*", symbol::STAR),
    (b"+", symbol::PLUS),
    (b"-", symbol::MINUS),
    (b"=", symbol::ASSIGN),
    (b"<", symbol::LESS),
    (b">", symbol::GREATER),
    (b"'", symbol::TRANSPOSE),
];
