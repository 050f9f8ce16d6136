//! A sequential program that is run out of order: the machine that decides what is asked, started
//! and given up.
#![tactic(auto)]

mod gating;
mod handling;
pub mod laws;
mod listing;
mod losing;
mod machine;
mod stage;
mod starting;
mod telling;
mod turning;
mod verdict;

pub use gs_looks::Seen;
pub use gs_tables::{DoneNote, StartArg};
pub use machine::{Core, Start};
pub use stage::{Loaded, Step};
pub use verdict::Verdict;
