// What a refused reading tells.
ghost use Rattle.std.specs.Prelude.{◌≡◌};
ghost use Rattle.reading.specs.Layer.{layer_of, place_of, cause_of, line_of, letter_of, told};

use crate::fault::{FileFault, FormFault};
use points::refusal::Refusal;
use std::fmt;
use text::token::TokenRule;

/// The layer of a text at which it is refused.
#[derive(Clone, Copy, PartialEq, Eq, Debug)]
pub enum Layer {
    /// No token begins here, or the one that does breaks its rule: W.
    Word,
    /// The form needs another token here: F.
    Form,
    /// The text ends before the end line is complete, or goes on after it: E.
    End,
    /// The grid refuses the line that begins here: G.
    Grid,
}

/// The letter that a report prints.
impl From<Layer> for char {
    ghost from_gives = { λ layer r. r ≡ letter_of layer };

    fn from(layer: Layer) -> char {
        match layer {
            Layer::Word => 'W',
            Layer::Form => 'F',
            Layer::End => 'E',
            Layer::Grid => 'G',
        }
    }
}

/// A refused reading: the refusal, its line, counted from 1, or 0 where no line is read yet, its byte, counted from 0, and its layer.
#[derive(Clone, Copy, PartialEq, Eq, Debug)]
pub struct ReadRefusal {
    pub refusal: Refusal,
    pub line: usize,
    pub byte: usize,
    pub layer: Layer,
}

impl fmt::Display for ReadRefusal {
    fn fmt<W: fmt::Write>(&self, f: &mut fmt::Formatter<W>) -> fmt::Result {
        let number = u32::from(self.refusal);
        let letter = char::from(self.layer);
        writeln!(f, "(refused {number} {} {} {letter})", self.line, self.byte)
    }
}

impl FileFault {
    /// The layer at which a text is refused.
    pub fn layer(self) -> Layer
        ensures { result ≡ layer_of self }
    {
        match self {
            FileFault::Broken(FormFault::Lexical(token)) => match token.rule {
                TokenRule::TextEnded => Layer::End,
                _ => Layer::Word,
            },
            FileFault::Broken(FormFault::OtherToken(_)) => Layer::Form,
            FileFault::GoesOn(_) => Layer::End,
            FileFault::Refused(_, _) => Layer::Grid,
        }
    }

    /// The byte at which a text is refused.
    pub fn place(self) -> usize
        ensures { result ≡ place_of self }
    {
        match self {
            FileFault::Broken(FormFault::Lexical(token)) => token.place,
            FileFault::Broken(FormFault::OtherToken(place)) => place,
            FileFault::GoesOn(place) => place,
            FileFault::Refused(_, place) => place,
        }
    }

    /// Why a text is refused.
    pub fn refusal(self) -> Refusal
        ensures { result ≡ cause_of self }
    {
        match self {
            FileFault::Broken(_) => Refusal::Form,
            FileFault::GoesOn(_) => Refusal::Form,
            FileFault::Refused(refusal, _) => refusal,
        }
    }
}

/// The line of a byte.
fn line_at(text: &[u8], byte: usize) -> usize
    ensures { result ≡ line_of text.now byte }
{
    1 + text.iter().take(byte).filter(|b| **b == b'\n').count()
}

/// What a text's fault tells.
pub(crate) fn refused(text: &[u8], fault: FileFault) -> ReadRefusal
    ensures { result ≡ told text.now fault }
{
    let byte = fault.place();
    ReadRefusal {
        refusal: fault.refusal(),
        line: line_at(text, byte),
        byte,
        layer: fault.layer(),
    }
}
