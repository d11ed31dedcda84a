// The tokens of a grid text, and the faults that a text can have in one.

/// A token. A word and a numeral are parts of the caller's text, with the byte place where they begin.
#[derive(Clone, Copy, PartialEq, Eq, Debug)]
pub enum Token<'a> {
    Open,
    Close,
    Space,
    LineEnd,
    Word(&'a [u8], usize),
    Numeral(&'a [u8], usize),
}

/// The rule that a text breaks.
#[derive(Clone, Copy, PartialEq, Eq, Debug)]
pub enum TokenRule {
    /// The text ends where a token is looked for.
    TextEnded,
    /// No token begins with this byte.
    NoToken,
    /// A word has at most 16 letters.
    LongWord,
    /// A minus has digits after it.
    BareMinus,
    /// No digit 0 comes after a minus.
    MinusZero,
    /// No digit comes after a first digit 0.
    LeadingZero,
    /// A numeral has at most 6 digits.
    LongNumeral,
}

/// The place of the token that breaks a rule, and the rule.
#[derive(Clone, Copy, PartialEq, Eq, Debug)]
pub struct TokenFault {
    pub place: usize,
    pub rule: TokenRule,
}
