//! What stands against a call of a task, found from looks at the user's files alone.
#![tactic(auto)]

mod judging;
mod look;
#[cfg(test)]
mod tests;

pub use judging::{Judged, judge, reads_at};
pub use look::{Looks, Seen};
