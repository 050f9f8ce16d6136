//! The entries of a run's record as bytes, and in order.
#![tactic(auto)]

mod actions;
mod book;
mod entry;
mod failure;
mod fits;
mod gate;
mod notes;
mod payload;
mod spelled;

pub use book::Book;
pub use entry::{Entry, GateNote, Stage, Texts};
pub use failure::Failure;
pub use fits::{Fitting, is_gate_entry};
pub use payload::{decode, encode};
pub use spelled::Spelled;

#[cfg(test)]
mod tests;
