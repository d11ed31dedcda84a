// The token at the front of a text.
ghost use Rattle.std.specs.Prelude.{◌<◌, IsTrue, length, slice_index};
ghost use Rattle.text.specs.Longest.{LongestRuns};
ghost use Rattle.text.specs.Taken.{Found, Next};
ghost use Rattle.text.specs.Token.{is_letter, begins_numeral};

use crate::numeral::Numeral;
use crate::token::{Token, TokenFault, TokenRule};

/// The most letters of a word.
const MOST_LETTERS: usize = 16;

/// Takes the token at the front of the remaining text, which begins at the byte place `place`, and leaves the rest.
// The steps take a text and its place, and no cursor: a cursor's place is bounded, and any place may be asked about here.
pub fn next_token<'a>(text: &'a [u8], place: usize) -> Result<(Token<'a>, &'a [u8]), TokenFault>
    ensures { Next text.now place result }
{
    front(text, place).map_err(|rule| TokenFault { place, rule })
}

// The three private steps answer by one definition, `Found`, which is about two values and so no invariant.
/// The token at the front and what follows it, or the rule that is broken there.
fn front<'a>(text: &'a [u8], place: usize) -> Result<(Token<'a>, &'a [u8]), TokenRule>
    ensures { Found text.now place result }
{
    let [first, rest @ ..] = text else {
        return Err(TokenRule::TextEnded);
    };
    match char::from(*first) {
        '(' => Ok((Token::Open, rest)),
        ')' => Ok((Token::Close, rest)),
        ' ' => Ok((Token::Space, rest)),
        '\n' => Ok((Token::LineEnd, rest)),
        'a'..='z' => word(text, place),
        '-' | '0'..='9' => numeral(text, place),
        _ => Err(TokenRule::NoToken),
    }
}

// The two below count their runs each by a chain: in one function over the class of bytes, the proof does not see that the closure
// which is passed on stays the same.
/// The word that begins with the first byte, a letter.
fn word<'a>(text: &'a [u8], place: usize) -> Result<(Token<'a>, &'a [u8]), TokenRule>
    requires some { 0 < length text.now }
    requires letter { IsTrue (is_letter (slice_index text.now 0)) }
    ensures { Found text.now place result }
{
    let n = text.iter().take_while(|b| b.is_ascii_lowercase()).count();
    if n > MOST_LETTERS {
        return Err(TokenRule::LongWord);
    }
    let (word, rest) = text.split_at(n);
    Ok((Token::Word(word, place), rest))
}

/// The numeral that begins with the first byte, a minus or a digit.
fn numeral<'a>(text: &'a [u8], place: usize) -> Result<(Token<'a>, &'a [u8]), TokenRule>
    requires some { 0 < length text.now }
    requires begins { IsTrue (begins_numeral (slice_index text.now 0)) }
    ensures { Found text.now place result }
{
    let n = 1 + text[1..].iter().take_while(|b| b.is_ascii_digit()).count();
    let (numeral, rest) = text.split_at(n);
    match Numeral::new(numeral).broken_rule() {
        Some(rule) => Err(rule),
        None => Ok((Token::Numeral(numeral, place), rest)),
    }
}

/// A mark at the front of a text stands alone, and a word of at most 16 letters or a numeral of at most 6 digits is a longest run.
pub fn tokens_are_longest_runs()
    ensures { LongestRuns 16 6 }
{}
