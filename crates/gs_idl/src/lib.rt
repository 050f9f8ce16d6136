//! The interface text: which operations a program may call, and what each of them reads and writes.
#![tactic(auto)]

mod idl;
mod keyword;
pub mod laws;
mod memory;
mod passing;
mod printer;
mod reader;
#[cfg(test)]
mod tests;
mod token;

pub use idl::{Dir, Idl, ParamKind};
pub use memory::NoMemory;
pub use printer::print;
pub use reader::{IdlErr, read};
pub use token::IdlKind;
