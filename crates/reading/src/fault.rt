// The faults of a text: a token's inside a form's inside a file's.
ghost use Rattle.std.specs.Prelude.{◌≡◌};
ghost use Rattle.reading.specs.declared.fault.FileFault.TheVariants.{Broken};
ghost use Rattle.reading.specs.declared.fault.FormFault.TheVariants.{Lexical};

use points::refusal::Refusal;
use text::token::TokenFault;

/// Why a line breaks the form.
#[derive(Clone, Copy, PartialEq, Eq, Debug)]
pub enum FormFault {
    /// There is no token, or the one there breaks its rule.
    Lexical(TokenFault),
    /// The form needs another token at this place.
    OtherToken(usize),
}

/// Why a text is not read.
#[derive(Clone, Copy, PartialEq, Eq, Debug)]
pub enum FileFault {
    /// A line breaks the form.
    Broken(FormFault),
    /// The text goes on at this place, after the end line.
    GoesOn(usize),
    /// The grid refuses the line that begins at this place.
    Refused(Refusal, usize),
}

impl From<TokenFault> for FormFault {
    ghost from_gives = { λ e r. r ≡ Lexical e };

    fn from(fault: TokenFault) -> FormFault {
        FormFault::Lexical(fault)
    }
}

impl From<FormFault> for FileFault {
    ghost from_gives = { λ e r. r ≡ Broken e };

    fn from(fault: FormFault) -> FileFault {
        FileFault::Broken(fault)
    }
}
