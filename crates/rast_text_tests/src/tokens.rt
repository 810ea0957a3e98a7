// The tokens of texts, cut by hand.
use rast_ast::Kind;
use rast_lex::{LexErr, Token, tokens};
use std::test::Fail;

fn token(kind: Kind, at: u32, len: u32) -> Token {
    Token { kind, at, len }
}

#[test]
fn cuts_at_the_longest(rt: HostRuntime) -> Result<(), Fail> {
    let found = tokens(rt.alloc(), b"x<-1%\n-ob a-o b12/\\")?;
    let wanted = [
        token(Kind::Name, 0, 1),
        token(Kind::LeftArrow, 1, 2),
        token(Kind::Number, 3, 1),
        token(Kind::Minus, 6, 1),
        token(Kind::Name, 7, 2),
        token(Kind::Name, 10, 1),
        token(Kind::Lolli, 11, 2),
        token(Kind::Name, 14, 3),
        token(Kind::And, 17, 2),
    ];
    assert_eq!(rt; found.as_slice(), wanted.as_slice());
    Ok(())
}

#[test]
fn reads_keywords(rt: HostRuntime) -> Result<(), Fail> {
    let found = tokens(
        rt.alloc(),
        b"explicit impossible work workx 12ab 4294967295",
    )?;
    let wanted = [
        token(Kind::Explicit, 0, 8),
        token(Kind::Impossible, 9, 10),
        token(Kind::Work, 20, 4),
        token(Kind::Name, 25, 5),
        token(Kind::Number, 31, 2),
        token(Kind::Name, 33, 2),
        token(Kind::Number, 36, 10),
    ];
    assert_eq!(rt; found.as_slice(), wanted.as_slice());
    Ok(())
}

// No case file has this byte, since it is a text.
#[test]
fn names_a_byte_that_begins_no_character(rt: HostRuntime) {
    assert_eq!(rt;
        tokens(rt.alloc(), b"x %ab\xff").err(),
        Some(LexErr::BadByte { at: 5 })
    );
}
