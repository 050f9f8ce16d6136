//! A text that says no interface goes wrong at one place, in one way.
#![tactic(auto)]

pub mod laws;
