//! A printed program reads back as an equal one.
#![tactic(auto)]

pub mod laws;
