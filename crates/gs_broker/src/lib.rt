//! Workers, jobs in flight, the choice of a start, and what is given up.
#![tactic(auto)]

mod broker;
mod choice;
mod counts;
mod jobs;
mod kind;
pub mod laws;
mod line;
#[cfg(test)]
mod list_tests;
mod operations;
mod outcome;
mod reader;
mod tasks;
#[cfg(test)]
mod tests;
mod words;
mod workers;

pub use broker::Broker;
pub use choice::Ready;
pub use kind::{WorkersErr, WorkersKind};
pub use outcome::Loss;
pub use workers::Workers;
