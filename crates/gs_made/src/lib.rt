//! What the texts say that are made from a number, and that their run ends.
#![tactic(auto)]

pub mod laws;
