//! Laws of what main programs ask, and of their sequential runs.
#![tactic(auto)]

pub mod laws;
