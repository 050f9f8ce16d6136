//! What a task gave, kept in the record of its run.
#![tactic(auto)]

mod keep;
mod notes;
mod outputs;

pub use keep::keep_outputs;
pub use notes::copy_notes;

#[cfg(test)]
mod tests;
