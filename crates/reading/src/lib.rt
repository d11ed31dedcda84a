// Reading a grid text into a grid.
#![tactic(auto)]

pub mod fault;
mod form;
pub mod layer;
mod line;
pub mod reader;
