//! The names of a run: their numbers, their current versions, and what was written in which order.
#![tactic(auto)]

mod table;
#[cfg(test)]
mod tests;
mod writes;

pub use table::NameTable;
