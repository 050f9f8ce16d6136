//! What ends a run: its results are brought to the user's files, and that is recorded.
#![tactic(auto)]

mod finishing;
mod halt;

pub use finishing::finish;
pub use halt::Halt;

#[cfg(test)]
mod tests;
