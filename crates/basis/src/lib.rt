// The hierarchical hat basis: surplus, interpolant and integral, and their laws.
#![tactic(auto)]

pub mod examples;
pub mod laws;
pub mod shapes;
