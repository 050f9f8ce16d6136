//! What a queue of tasks stands for: the history of a run. It says how a queue goes with the events
//! of a history, that what it picks is due, and that what it gives up is the history's loss.
#![tactic(auto)]

pub mod laws;
