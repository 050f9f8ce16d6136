//! The productions of the main program's language, and that they say what the grammar of the reader says.
#![tactic(auto)]

pub mod laws;
