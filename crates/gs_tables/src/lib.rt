//! The tables of a run that goes out of order: its tasks with the versions that they read, the
//! names of files with their versions, who waits for whom, and what is known of originals.
#![tactic(auto)]

mod answering;
mod asking;
mod gating;
mod lengths;
mod marking;
mod noted;
mod places;
mod row;
mod sources;
mod starting;
mod tables;
#[cfg(test)]
mod tests;

pub use answering::Scalar;
pub use asking::Called;
pub use gating::Gated;
pub use noted::DoneNote;
pub use row::StartArg;
pub use tables::Tables;
