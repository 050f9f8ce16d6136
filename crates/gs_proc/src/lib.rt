//! Tasks as child programs of this machine, which get their files in a staging folder.
#![tactic(auto)]

mod call;
mod number;
mod outs;
mod proc_link;
mod stage;
mod task;
mod tasks;
#[cfg(test)]
mod tests;
mod trouble;
mod wait;
mod words;

pub use proc_link::ProcLink;
