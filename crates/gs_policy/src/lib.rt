//! What a start costs: a closure together with the law that it follows.
#![tactic(auto)]

mod law;
mod limits;
mod policy;
#[cfg(test)]
mod tests;

pub use law::{CostLaw, Flat};
pub use limits::{BYTES_LIMIT, COST_LIMIT};
pub use policy::{Policy, Prices};
