//! No run writes the files that its own texts stand in.
#![tactic(auto)]

pub mod laws;
