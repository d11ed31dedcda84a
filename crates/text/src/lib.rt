// The tokens of a grid text, and the numbers that its numerals write.
#![tactic(auto)]

pub mod cursor;
pub mod lexer;
pub mod number;
mod numeral;
#[cfg(test)]
mod tests;
pub mod token;
