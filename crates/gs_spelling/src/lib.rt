//! How names, numbers, strings and symbols of a main program are written, and that a printed program is cut into its signs again.
#![tactic(auto)]

pub mod laws;
