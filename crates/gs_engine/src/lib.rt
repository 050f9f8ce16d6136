//! A run over a site: what the core decides is read, kept, started and waited for, and what its
//! tasks gave is recorded, until the program has ended and its results are brought back.
#![tactic(auto)]

mod begin;
mod reading;
mod running;
mod seal;
mod serve;
mod start;
mod wait;

pub use gs_finish::finish;
pub use running::{RunFault, run};
