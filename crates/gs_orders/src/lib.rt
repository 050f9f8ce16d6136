//! A main program as a flat list of orders, each of which takes one step and says where the next
//! one stands.
#![tactic(auto)]

mod emit;
mod hand;
mod order;
mod plain;
#[cfg(test)]
mod tests;

pub use emit::{Orders, orders_of};
pub use hand::Handed;
pub use order::Order;
