//! Where tasks run: links to workers, and a disk and a link together.
#![tactic(auto)]

mod copies;
mod desk;
mod fit;
mod kit;
mod link;
mod marks;
mod memory;
mod past;
mod site;
#[cfg(test)]
mod tests;
mod turn;

pub use kit::KitLaw;
pub use link::{Event, Link, StartErr};
pub use memory::MemLink;
pub use past::Past;
pub use site::Site;
pub use turn::Turn;
