// A cursor over a text, which takes one token after the other.
ghost use Rattle.std.specs.Prelude.{◌+◌, ◌^◌, ◌<◌, length};

use crate::lexer::next_token;
use crate::token::{Token, TokenFault};

/// What is left of a text, and the byte place where it begins.
#[derive(Clone, Copy)]
pub struct Cursor<'a> {
    pub rest: &'a [u8],
    pub place: usize,
    pub ghost in_range: { place + length rest.now < 2 ^ 64 },
}

impl<'a> Cursor<'a> {
    ghost use Rattle.std.specs.Prelude.{◌≡◌, OnOk};
    ghost use Rattle.text.specs.Cursor.{Onward, Passes};

    /// The whole of a text.
    pub fn new(text: &'a [u8]) -> Cursor<'a>
        ensures whole { result.rest.now ≡ text.now }
        ensures start { result.place ≡ 0 }
    {
        Cursor {
            rest: text,
            place: 0,
        }
    }

    /// Takes the token at the front and passes it; where there is none, the cursor stays.
    pub fn next_token(&mut self) -> Result<Token<'a>, TokenFault>
        ensures passes { Passes self.old result self.new }
        ensures onward { OnOk result (Onward self.old self.new) }
    {
        let (token, rest) = next_token(self.rest, self.place)?;
        self.place += self.rest.len() - rest.len();
        self.rest = rest;
        Ok(token)
    }
}
