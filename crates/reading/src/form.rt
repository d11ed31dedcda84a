// The tokens that the form of a grid text needs, one after the other.
ghost use Rattle.std.specs.Prelude.{◌≡◌, OnOk};
ghost use Rattle.text.specs.Cursor.{Onward};

use crate::fault::FormFault;
use text::cursor::Cursor;
use text::number::numeral_value;
use text::token::Token;

// That a step goes on is a clause of each: it is about the cursor before and after, which no invariant can be.
/// Takes a text apart by its form. A fault ends the reading, so that where the cursor stands then is left open.
#[derive(Drop)]
pub(crate) struct Parser<'a> {
    pub(crate) at: Cursor<'a>,
}

impl<'a> Parser<'a> {
    /// At the front of a text.
    pub(crate) fn new(text: &'a [u8]) -> Parser<'a>
        ensures whole { result.at.rest.now ≡ text.now }
        ensures start { result.at.place ≡ 0 }
    {
        Parser {
            at: Cursor::new(text),
        }
    }

    // Each of those below says which token it accepts: a closure for that would be as long as what they share.
    /// Passes over one of the marks.
    pub(crate) fn mark(&mut self, wanted: Token<'a>) -> Result<(), FormFault>
        ensures { OnOk result (Onward self.old.at self.new.at) }
    {
        let place = self.at.place;
        if self.at.next_token()? == wanted {
            Ok(())
        } else {
            Err(FormFault::OtherToken(place))
        }
    }

    /// Any word.
    pub(crate) fn word(&mut self) -> Result<&'a [u8], FormFault>
        ensures { OnOk result (Onward self.old.at self.new.at) }
    {
        let place = self.at.place;
        match self.at.next_token()? {
            Token::Word(letters, _) => Ok(letters),
            _ => Err(FormFault::OtherToken(place)),
        }
    }

    /// Passes over one word.
    pub(crate) fn keyword(&mut self, wanted: &[u8]) -> Result<(), FormFault>
        ensures { OnOk result (Onward self.old.at self.new.at) }
    {
        let place = self.at.place;
        if self.word()? == wanted {
            Ok(())
        } else {
            Err(FormFault::OtherToken(place))
        }
    }

    /// Any numeral, as the number that it writes.
    pub(crate) fn number(&mut self) -> Result<i32, FormFault>
        ensures { OnOk result (Onward self.old.at self.new.at) }
    {
        let place = self.at.place;
        let value = match self.at.next_token()? {
            Token::Numeral(digits, _) => numeral_value(digits),
            _ => None,
        };
        value.ok_or(FormFault::OtherToken(place))
    }
}
