//! What brings a run's results to the user's files, and what removes its record.
#![tactic(auto)]

mod back;
mod copy;
mod err;
mod finals;
mod removal;

pub use back::write_back;
pub use err::BackErr;
pub use removal::clean;

#[cfg(test)]
mod tests;
