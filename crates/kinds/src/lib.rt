// Kinds of value: one interface, and three kinds that implement it.
#![tactic(auto)]

pub mod dyadic;
pub mod examples;
pub mod kind;
mod limits;
pub mod pair;
pub mod residue;
#[cfg(test)]
mod tests;
