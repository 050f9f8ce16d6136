//! What a run that goes out of order may do: its frontier, which tasks are ready, what is lost, and
//! the histories that are as they should be.
#![tactic(auto)]

pub mod laws;
