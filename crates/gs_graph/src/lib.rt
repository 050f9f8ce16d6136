//! Which tasks wait for which, which may run, and the actions of the main program in order.
#![tactic(auto)]

mod counters;
mod edges;
mod graph;
mod lower;
mod numbers;
#[cfg(test)]
mod tests;

pub use graph::Graph;
