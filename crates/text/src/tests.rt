// Tokens and numbers of short texts.
use crate::cursor::Cursor;
use crate::lexer::next_token;
use crate::number::numeral_value;
use crate::token::{Token, TokenFault, TokenRule};

/// The fault at the front of a text at byte place 7, if there is one.
fn fault(text: &[u8]) -> Option<TokenFault> {
    next_token(text, 7).err()
}

/// A fault at byte place 7.
fn breaks(rule: TokenRule) -> Option<TokenFault> {
    Some(TokenFault { place: 7, rule })
}

#[test]
fn takes_a_mark(rt: HostRuntime) {
    assert_eq!(rt; next_token(b"(", 0), Ok((Token::Open, b"".as_slice())));
}

#[test]
fn takes_a_word(rt: HostRuntime) {
    assert_eq!(rt;
        next_token(b"grid 1)", 1),
        Ok((Token::Word(b"grid", 1), b" 1)".as_slice()))
    );
}

#[test]
fn takes_a_numeral(rt: HostRuntime) {
    assert_eq!(rt;
        next_token(b"-12)", 5),
        Ok((Token::Numeral(b"-12", 5), b")".as_slice()))
    );
}

#[test]
fn passes_what_it_takes(rt: HostRuntime) {
    let mut cursor = Cursor::new(b"(grid -12)R");
    assert_eq!(rt; cursor.next_token(), Ok(Token::Open));
    assert_eq!(rt; cursor.next_token(), Ok(Token::Word(b"grid", 1)));
    assert_eq!(rt; cursor.next_token(), Ok(Token::Space));
    assert_eq!(rt; cursor.next_token(), Ok(Token::Numeral(b"-12", 6)));
    assert_eq!(rt; cursor.next_token(), Ok(Token::Close));
    assert_eq!(rt;
        cursor.next_token(),
        Err(TokenFault {
            place: 10,
            rule: TokenRule::NoToken
        })
    );
    assert_eq!(rt; cursor.place, 10);
    assert_eq!(rt; cursor.rest, b"R".as_slice());
}

#[test]
fn names_the_broken_rule(rt: HostRuntime) {
    assert_eq!(rt; fault(b""), breaks(TokenRule::TextEnded));
    assert_eq!(rt; fault(b"R"), breaks(TokenRule::NoToken));
    assert_eq!(rt; fault(b"abcdefghijklmnopq"), breaks(TokenRule::LongWord));
    assert_eq!(rt; fault(b"-"), breaks(TokenRule::BareMinus));
    assert_eq!(rt; fault(b"-0"), breaks(TokenRule::MinusZero));
    assert_eq!(rt; fault(b"007"), breaks(TokenRule::LeadingZero));
    assert_eq!(rt; fault(b"1234567"), breaks(TokenRule::LongNumeral));
    assert_eq!(rt; fault(b"123456"), None);
}

#[test]
fn reads_numbers(rt: HostRuntime) {
    assert_eq!(rt; numeral_value(b"-65536"), Some(-65536));
    assert_eq!(rt; numeral_value(b"0"), Some(0));
    assert_eq!(rt; numeral_value(b"1 2"), None);
}
