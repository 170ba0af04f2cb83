//! Cuts the text of a program into its tokens.
//!
//! Blanks and comments separate tokens, and each token is the longest that can stand at its offset. How many
//! tokens a text may have, how long a name may be and how many brackets and blocks may be open at once is
//! limited.

ghost use Rattle.std.specs.Prelude.{◌≡◌, ◌+◌, ◌<◌, ◌≤◌, List, Ok, length, take, drop, count_by, IfOk, IfSome, All, bytes_eq, find, option_map, nat_eq, map, position, slice_index_or, []};
ghost use Rattle.std.specs.List.{starts_with, range_with_len};
ghost use Rattle.vocabulary.specs.Answers.{Answers};
ghost use Rattle.sim_lexer.specs.Tokens as spec;

use crate::token::{KEYWORDS, LexFault, SYMBOLS, Token, TokenKind, keyword, symbol};
use crate::tokens::Tokens;
use std::alloc::Global;
use vocabulary::limits::{MOST_DEPTH, MOST_NAME_BYTES, MOST_PROGRAM_BYTES, MOST_TOKENS};

/// The tokens of a text, the last of them its end, or the first fault in the text.
#[tactic(auto, using(crate::proofs::LexingLaw::are_cut, crate::proofs::LexingLaw::are_spelled, crate::proofs::LexingLaw::are_longest, crate::proofs::LexingLaw::all_lie, crate::proofs::LexingLaw::are_few, crate::proofs::LexingLaw::end_once))]
pub fn lex(alloc: Global, bytes: &[u8]) -> Result<Tokens, LexFault>
    requires { length bytes.now ≤ MOST_PROGRAM_BYTES }
    // Which tokens they are, and which fault it is.
    ensures exact { Answers LexFault.Memory (spec.tokens bytes.now) result }
    // Where a text has tokens, it is their bytes with gaps between, and each is the longest.
    ensures cut { (tokens : List Token) → spec.tokens bytes.now ≡ Ok tokens → spec.IsCut bytes.now 0 tokens }
    ensures spelled { (tokens : List Token) → spec.tokens bytes.now ≡ Ok tokens → All (spec.IsSpelled bytes.now) tokens }
    ensures longest { (tokens : List Token) → spec.tokens bytes.now ≡ Ok tokens → All (spec.IsLongest bytes.now) tokens }
    // What a reader of them can rely on.
    ensures lies { (tokens : List Token) → spec.tokens bytes.now ≡ Ok tokens → All (spec.LiesIn bytes.now) tokens }
    ensures few { (tokens : List Token) → spec.tokens bytes.now ≡ Ok tokens → length tokens ≤ MOST_TOKENS }
    ensures ends { (tokens : List Token) → spec.tokens bytes.now ≡ Ok tokens → spec.EndsOnce tokens }
{
    let mut tokens = Vec::new(alloc);
    let mut last = Token {
        kind: TokenKind::End,
        from: 0,
        to: 0,
        line: 1,
    };
    let mut depth = 0;
    loop {
        let token = token_after(bytes, last)?;
        if tokens.len() == MOST_TOKENS as usize {
            return Err(LexFault::TooMany { at: token.from });
        }
        depth = depth_after(depth, token)?;
        tokens.push(token).map_err(|_| LexFault::Memory)?;
        if token.kind == TokenKind::End {
            return Ok(Tokens::of(tokens));
        }
        last = token;
    }
}

/// The next token after the last one and a gap, or the bad byte there.
#[tactic(auto, using(crate::proofs::Lexing::line_moves), unfolding(crate::specs::Tokens::token_after))]
fn token_after(bytes: &[u8], last: Token) -> Result<Token, LexFault>
    requires size { length bytes.now ≤ MOST_PROGRAM_BYTES }
    requires last { spec.LiesIn bytes.now last }
    requires line { last.line ≡ spec.line_at bytes.now last.from }
    ensures exact { result ≡ spec.token_after bytes.now last.to }
    ensures lies { IfOk result (spec.LiesIn bytes.now) }
    ensures line { IfOk result (λ token. token.line ≡ spec.line_at bytes.now token.from) }
{
    let offset = last.to as usize;
    let from = offset + gap_len(&bytes[offset..]);
    match token_at(&bytes[from..]) {
        None => Err(LexFault::BadByte { at: from as u32 }),
        Some((kind, size)) => Ok(Token {
            kind,
            from: from as u32,
            to: (from + size) as u32,
            line: last.line + line_feeds(&bytes[last.from as usize..from]) as u32,
        }),
    }
}

/// The line of an offset of a text: 1 and the line feeds before it.
pub fn line_at(bytes: &[u8], offset: u32) -> u32
    requires { length bytes.now ≤ MOST_PROGRAM_BYTES }
    ensures { result ≡ spec.line_at bytes.now offset }
{
    let before = bytes.get(..offset as usize).unwrap_or(bytes);
    1 + line_feeds(before) as u32
}

/// How many line feeds there are.
fn line_feeds(bytes: &[u8]) -> usize
    ensures { result ≡ count_by spec.is_line_feed bytes.now }
{
    bytes.iter().filter(|b| **b == b'\n').count()
}

/// How many brackets and blocks are open after a token, from those before it, or the token's fault.
#[tactic(auto, unfolding(crate::specs::Tokens::depth_after))]
fn depth_after(depth: u32, token: Token) -> Result<u32, LexFault>
    requires order { token.from ≤ token.to }
    requires depth { depth ≤ MOST_DEPTH }
    ensures exact { result ≡ spec.depth_after depth token }
    ensures within { IfOk result (λ depth. depth ≤ MOST_DEPTH) }
{
    if token.kind == TokenKind::Name && token.to - token.from > MOST_NAME_BYTES {
        return Err(LexFault::LongName { at: token.from });
    }
    let depth = depth_after_kind(depth, token.kind);
    if depth > MOST_DEPTH {
        return Err(LexFault::TooDeep { at: token.from });
    }
    Ok(depth)
}

/// How many brackets and blocks are open after a token of this kind, from those before it. Never below 0.
fn depth_after_kind(depth: u32, kind: TokenKind) -> u32
    requires { depth ≤ MOST_DEPTH }
    ensures { result ≡ spec.depth_after_kind depth kind }
{
    if opens(kind) {
        depth + 1
    } else if closes(kind) {
        depth.saturating_sub(1)
    } else {
        depth
    }
}

fn opens(kind: TokenKind) -> bool
    ensures { result ≡ spec.opens kind }
{
    match kind {
        TokenKind::Keyword(n) => n == keyword::IF || n == keyword::WHILE || n == keyword::FOR,
        TokenKind::Symbol(n) => {
            n == symbol::OPEN_PAREN || n == symbol::OPEN_BRACKET || n == symbol::OPEN_BRACE
        }
        _ => false,
    }
}

fn closes(kind: TokenKind) -> bool
    ensures { result ≡ spec.closes kind }
{
    match kind {
        TokenKind::Keyword(n) => n == keyword::END,
        TokenKind::Symbol(n) => {
            n == symbol::CLOSE_PAREN || n == symbol::CLOSE_BRACKET || n == symbol::CLOSE_BRACE
        }
        _ => false,
    }
}

/// With how many bytes of blanks and comments a text begins.
fn gap_len(text: &[u8]) -> usize
    ensures exact { result ≡ spec.gap_len text.now }
    ensures within { result ≤ length text.now }
{
    let mut in_comment = false;
    for (i, b) in text.iter().enumerate() {
        if in_comment {
            in_comment = *b != b'\n';
        } else if *b == b'%' {
            in_comment = true;
        } else if !is_blank(*b) {
            return i;
        }
    }
    text.len()
}

/// The kind of the token with which a text begins, and its length, unless the first byte begins none.
#[tactic(auto, unfolding(crate::specs::Tokens::token_at))]
fn token_at(text: &[u8]) -> Option<(TokenKind, usize)>
    ensures exact { result ≡ spec.token_at text.now }
    ensures within { IfSome result (λ token. token.1 ≤ length text.now) }
{
    match text {
        [] => Some((TokenKind::End, 0)),
        [b, ..] if is_letter(*b) => {
            let size = name_len(text);
            Some((word_kind(&text[..size]), size))
        }
        [b, ..] if b.is_ascii_digit() => Some((TokenKind::Number, number_len(text))),
        _ => symbol_at(text),
    }
}

/// The kind of a token that is spelled as a name.
fn word_kind(word: &[u8]) -> TokenKind
    ensures { result ≡ spec.word_kind word.now }
{
    match number_of(&KEYWORDS, word) {
        None => TokenKind::Name,
        Some(number) => TokenKind::Keyword(number),
    }
}

/// The number of the first row that spells the word, where each row's number is its index.
fn number_of(rows: &[(&[u8], u8)], word: &[u8]) -> Option<u8>
    requires { map (λ row. row.1) rows.now ≡ range_with_len 0 (length rows.now) }
    ensures { result ≡ position (λ spelling. bytes_eq spelling word.now) (map (λ row. row.0.now) rows.now) }
{
    rows.iter().find(|row| row.0 == word).map(|row| row.1)
}

/// The first symbol of the table with which a text begins, and its length.
fn symbol_at(text: &[u8]) -> Option<(TokenKind, usize)>
    ensures exact { result ≡ spec.symbol_token_at text.now }
    ensures within { IfSome result (λ token. token.1 ≤ length text.now) }
{
    beginning_of(&SYMBOLS, text).map(|(number, size)| (TokenKind::Symbol(number), size))
}

/// The number and the length of the first row with whose spelling the text begins, where each row's number
/// is its index.
fn beginning_of(rows: &[(&[u8], u8)], text: &[u8]) -> Option<(u8, usize)>
    requires { map (λ row. row.1) rows.now ≡ range_with_len 0 (length rows.now) }
    ensures exact { let spellings = map (λ row. row.0.now) rows.now in
        result ≡ option_map (λ n. (n, length (slice_index_or spellings n []))) (position (starts_with nat_eq text.now) spellings) }
    ensures within { IfSome result (λ found. found.1 ≤ length text.now) }
{
    rows.iter()
        .find(|row| text.starts_with(row.0))
        .map(|row| (row.1, row.0.len()))
}

/// With how many bytes that can stand in a name a text begins.
fn name_len(text: &[u8]) -> usize
    ensures exact { result ≡ spec.name_len text.now }
    ensures within { result ≤ length text.now }
{
    text.iter().take_while(|b| is_name_byte(**b)).count()
}

/// With how many digits a text begins.
fn digits_len(text: &[u8]) -> usize
    ensures exact { result ≡ spec.digits_len text.now }
    ensures within { result ≤ length text.now }
{
    text.iter().take_while(|b| b.is_ascii_digit()).count()
}

/// The length of the number with which a text begins. A point belongs to it where a digit follows.
fn number_len(text: &[u8]) -> usize
    ensures exact { result ≡ spec.number_len text.now }
    ensures within { result ≤ length text.now }
{
    let whole = digits_len(text);
    match &text[whole..] {
        [b'.', decimals @ ..] => match digits_len(decimals) {
            0 => whole,
            size => whole + 1 + size,
        },
        _ => whole,
    }
}

fn is_blank(b: u8) -> bool
    ensures { result ≡ spec.is_blank b }
{
    b == b' ' || b == b'\t' || b == b'\r' || b == b'\n'
}

fn is_letter(b: u8) -> bool
    ensures { result ≡ spec.is_letter b }
{
    b.is_ascii_alphabetic() || b == b'_'
}

fn is_name_byte(b: u8) -> bool
    ensures { result ≡ spec.is_name_byte b }
{
    is_letter(b) || b.is_ascii_digit()
}
