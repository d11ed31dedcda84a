// A sparse grid over memory that the caller lends.
#![tactic(auto)]

pub mod grid;
pub mod making;
pub mod putting;
pub mod questions;
pub mod record;
mod surplus;
