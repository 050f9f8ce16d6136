//! When a folder stands for a run: the texts, the user's files at first, and the law.
#![tactic(auto)]

pub mod laws;
