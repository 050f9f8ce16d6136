//! A log of payloads on a disk. A record is written behind a closed gate, synced, and opened by a
//! write of its own, so that after a crash at any moment it is wholly there or wholly absent.
#![tactic(auto)]

mod bytes;
mod err;
mod laws;
mod limits;
mod log;
mod names;
mod place;
mod reading;
mod steps;

pub use err::LogErr;
pub use laws::{one_list, one_list_held};
pub use limits::{MAX_PAYLOAD, MAX_RECORDS};
pub use log::Log;

#[cfg(test)]
mod tests;
