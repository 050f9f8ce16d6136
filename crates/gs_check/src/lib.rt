//! The checks of a main program against the operations that it may call.
#![tactic(auto)]

mod call;
mod checked;
mod expr;
mod format;
mod kind;
pub mod laws;
mod names;
mod run;
mod stmt;
#[cfg(test)]
mod tests;
mod vars;

pub use checked::Checked;
pub use kind::CheckKind;
pub use run::{CheckErr, check};
