//! The report of a record, and the generator that makes a large valid run from a number.
#![tactic(auto)]

mod entries;
mod generator;
mod law;
mod laws;
mod put;
mod reporting;
#[cfg(test)]
mod tests;
mod values;

pub use generator::{Made, make};
pub use law::SelfLaw;
pub use laws::{hash_gives_a_file, mark_gives_a_file};
pub use reporting::report;
