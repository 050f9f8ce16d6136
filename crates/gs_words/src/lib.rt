//! The words of a command: which command they say, or where they go wrong.
#![tactic(auto)]

mod command;
mod given;
mod laws;
mod options;
mod reading;
#[cfg(test)]
mod tests;
mod words;

pub use command::{Command, PLAN_LIMIT, SELF_LIMIT, Usage};
pub use laws::one_reading;
pub use reading::read;
