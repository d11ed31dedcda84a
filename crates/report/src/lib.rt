// What the program `integrate` prints for an input.
#![tactic(auto)]

pub mod lowest;
pub mod report;
#[cfg(test)]
mod tests;
