//! The tasks that may be started, beside the broker that chooses among them.
#![tactic(auto)]

mod arrays;
mod kinds;
mod listed;
mod place;
mod queue;
#[cfg(test)]
mod tests;

pub use queue::Queue;
