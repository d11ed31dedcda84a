// Coordinates, points and places of a sparse grid, and the refusals of the whole library.
#![tactic(auto)]

pub mod axis;
pub mod dimensions;
pub mod examples;
pub mod point;
pub mod refusal;
#[cfg(test)]
mod tests;
