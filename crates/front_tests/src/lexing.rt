//! The tokens of worked texts, and the faults of others.
use sim_lexer::{LexFault, TokenKind, keyword, lex, symbol};
use std::test::Fail;

/// A token's kind, where it begins and ends, and its line.
type Row = (TokenKind, u32, u32, u32);

const NAME: TokenKind = TokenKind::Name;

const NUMBER: TokenKind = TokenKind::Number;

const END: TokenKind = TokenKind::End;

static TOKENS: [(&[u8], &[Row]); 6] = [
    (b"", &[(END, 0, 0, 1)]),
    (b"%\x00\xff\n a", &[(NAME, 5, 6, 2), (END, 6, 6, 2)]),
    (
        b"iff if\t_9",
        &[
            (NAME, 0, 3, 1),
            (TokenKind::Keyword(keyword::IF), 4, 6, 1),
            (NAME, 7, 9, 1),
            (END, 9, 9, 1),
        ],
    ),
    (
        b"1.5.x 7.",
        &[
            (NUMBER, 0, 3, 1),
            (TokenKind::Symbol(symbol::POINT), 3, 4, 1),
            (NAME, 4, 5, 1),
            (NUMBER, 6, 7, 1),
            (TokenKind::Symbol(symbol::POINT), 7, 8, 1),
            (END, 8, 8, 1),
        ],
    ),
    (
        b"->-.*<=\r\n<% >\n",
        &[
            (TokenKind::Symbol(symbol::ARROW), 0, 2, 1),
            (TokenKind::Symbol(symbol::MINUS), 2, 3, 1),
            (TokenKind::Symbol(symbol::ENTRYWISE), 3, 5, 1),
            (TokenKind::Symbol(symbol::AT_MOST), 5, 7, 1),
            (TokenKind::Symbol(symbol::LESS), 9, 10, 2),
            (END, 14, 14, 3),
        ],
    ),
    (
        b")(end while",
        &[
            (TokenKind::Symbol(symbol::CLOSE_PAREN), 0, 1, 1),
            (TokenKind::Symbol(symbol::OPEN_PAREN), 1, 2, 1),
            (TokenKind::Keyword(keyword::END), 2, 5, 1),
            (TokenKind::Keyword(keyword::WHILE), 6, 11, 1),
            (END, 11, 11, 1),
        ],
    ),
];

#[test]
fn texts_and_their_tokens(rt: HostRuntime) -> Result<(), Fail> {
    for (text, want) in &TOKENS {
        assert!(rt; text.len() <= 100);
        let tokens = lex(rt.alloc(), text)?;
        let found: Vec<Row> = tokens
            .list()
            .iter()
            .map(|token| (token.kind, token.from, token.to, token.line))
            .collect(rt.alloc())?;
        assert!(rt; found.as_slice() == *want, "in {text:?}");
    }
    Ok(())
}

const NAME_64: &[u8] = &[b'n'; 64];

const NAME_65: &[u8] = &[b'n'; 65];

const DEPTH_64: &[u8] = &[b'['; 64];

const DEPTH_65: &[u8] = &[b'['; 65];

/// Texts, and the faults of those that have no tokens.
static FAULTS: [(&[u8], Option<LexFault>); 10] = [
    (b"a\n ?", Some(LexFault::BadByte { at: 3 })),
    (b"a!", Some(LexFault::BadByte { at: 1 })),
    (b"\x0c", Some(LexFault::BadByte { at: 0 })),
    (b"end\x00", Some(LexFault::BadByte { at: 3 })),
    (b"\xEF\xBB\xBFproc", Some(LexFault::BadByte { at: 0 })),
    (b"caf\xC3\xA9", Some(LexFault::BadByte { at: 3 })),
    (NAME_64, None),
    (NAME_65, Some(LexFault::LongName { at: 0 })),
    (DEPTH_64, None),
    (DEPTH_65, Some(LexFault::TooDeep { at: 64 })),
];

#[test]
fn texts_and_their_faults(rt: HostRuntime) {
    for (text, want) in &FAULTS {
        assert!(rt; text.len() <= 100);
        assert!(rt; lex(rt.alloc(), text).err() == *want, "of {text:?}");
    }
    // The end is a token too, and a byte that begins none is found before it is one too many.
    let mut many = [b'+'; 65_537];
    many[65_536] = b'?';
    let too_many = LexFault::TooMany { at: 65_536 };
    let bad_byte = LexFault::BadByte { at: 65_536 };
    assert!(rt; lex(rt.alloc(), &many[..65_535]).is_ok());
    assert!(rt; lex(rt.alloc(), &many[..65_536]).err() == Some(too_many));
    assert!(rt; lex(rt.alloc(), &many).err() == Some(bad_byte));
}
