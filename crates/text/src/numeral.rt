// A numeral in its parts, the rules that it keeps, and the number that it writes.
ghost use Rattle.std.specs.Prelude.{◌≡◌, ◌^◌, ◌<◌, ◌≤◌, true, length};
ghost use Rattle.std.specs.List.{list_all};
ghost use Rattle.text.specs.Token.{has_minus, digits_of, is_digit, rule_broken, keeps_rules};
ghost use Rattle.text.specs.Number.{decimal, signed};

use crate::token::TokenRule;

/// The most digits of a numeral.
const MOST_DIGITS: usize = 6;

/// An optional minus, and the bytes after it.
#[derive(Clone, Copy)]
pub(crate) struct Numeral<'a> {
    minus: bool,
    digits: &'a [u8],
}

impl<'a> Numeral<'a> {
    /// Parts the minus from the digits.
    pub(crate) fn new(bytes: &'a [u8]) -> Numeral<'a>
        ensures sign { result.minus ≡ has_minus bytes.now }
        ensures digits { result.digits.now ≡ digits_of bytes.now }
    {
        match bytes {
            [b'-', digits @ ..] => Numeral {
                minus: true,
                digits,
            },
            digits => Numeral {
                minus: false,
                digits,
            },
        }
    }

    /// The first rule that an optional minus and a run of digits break.
    // An `Option`: what is asked for is a broken rule, and `is_lawful` asks whether there is none.
    pub(crate) fn broken_rule(self) -> Option<TokenRule>
        ensures { result ≡ rule_broken self.entry.minus self.entry.digits.now }
    {
        match self.digits {
            [] => Some(TokenRule::BareMinus),
            [b'0', ..] if self.minus => Some(TokenRule::MinusZero),
            [b'0', _, ..] => Some(TokenRule::LeadingZero),
            digits if digits.len() > MOST_DIGITS => Some(TokenRule::LongNumeral),
            _ => None,
        }
    }

    /// Whether all after the minus is digits, and no rule is broken.
    pub(crate) fn is_lawful(self) -> bool
        ensures { result ≡ keeps_rules self.entry.minus self.entry.digits.now }
    {
        self.digits.iter().all(|b| b.is_ascii_digit()) && self.broken_rule().is_none()
    }

    /// The number that at most six digits write, below 0 after a minus.
    pub(crate) fn value(self) -> i32
        requires digits { list_all is_digit self.digits.now ≡ true }
        requires few { length self.digits.now ≤ 6 }
        ensures { result ≡ signed self.entry.minus self.entry.digits.now }
    {
        let value = decimal(self.digits) as i32;
        if self.minus { -value } else { value }
    }
}

/// The number that at most six digits write.
fn decimal(digits: &[u8]) -> u32
    requires digits { list_all is_digit digits.now ≡ true }
    requires few { length digits.now ≤ 6 }
    ensures value { result ≡ decimal digits.now }
    ensures small { result < 10 ^ 6 }
{
    let mut value = 0;
    // A `fold` was tried: its closure would have to say how large the number so far can be, and its proof did not close. What the
    // library parses is a text, and can fail.
    for digit in digits {
        value = value * 10 + u32::from(*digit - b'0');
    }
    value
}
