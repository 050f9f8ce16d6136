//! The reader of the main program: the tree that a text says, or the place and the kind of its first fault.
#![tactic(auto)]

mod args;
mod assign;
mod begin;
mod build;
mod expr;
mod fault;
mod frame;
mod head;
pub mod laws;
mod make;
mod marks;
mod mode;
mod name;
mod named;
mod operator;
mod simple;
mod start;
mod stmt;
mod stop;
mod terms;
mod text;
mod vars;

pub use fault::{ParseErr, ParseKind};
pub use text::parse;

#[cfg(test)]
mod tests;
