//! Each task of a run is small: a law of the sequential run.
#![tactic(auto)]

pub mod laws;
