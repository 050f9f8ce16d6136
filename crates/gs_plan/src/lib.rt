//! A plan for a finished run: how its tasks could have been placed on so many slots, and a chain of
//! tasks that no schedule can beat.
#![tactic(auto)]

mod chain;
mod fitting;
mod keys;
mod kind;
mod laws;
mod line;
mod links;
mod placing;
mod planning;
mod printing;
mod reader;
mod scan;
mod schedule;
mod state;
mod table;
mod telling;
#[cfg(test)]
mod tests;
mod ties;

pub use fitting::fits;
pub use kind::{DURATION_LIMIT, DurErr, DurKind};
pub use laws::{fails_once, says_one_list, there_is_one_chain, there_is_one_schedule};
pub use planning::{PLAN_SLOTS, plan};
pub use printing::text;
pub use reader::durations;
pub use table::{Placed, Plan};
