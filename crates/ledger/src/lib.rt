// The ledger of a grid: points in, points out and their tickets, and what holds at the end of every course of calls.
#![tactic(auto)]

pub mod examples;
pub mod laws;
