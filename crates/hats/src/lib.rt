// Sizes of surpluses and terms, and the steps in which an interpolant is evaluated over any kind of value.
#![tactic(auto)]

pub mod bounds;
pub mod hat;
pub mod multiple;
#[cfg(test)]
mod tests;
