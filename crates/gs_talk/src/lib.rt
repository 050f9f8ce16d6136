//! The meaning of a main program: what it asks, step by step, and the values of its expressions.
#![tactic(auto)]

mod arithmetic;
mod atoi;
mod error;
mod evaluate;
mod formats;
mod formula;
pub mod laws;
mod lines;
mod question;
mod slot;
mod taken;
#[cfg(test)]
mod tests;
mod vars;

pub use error::{TalkErr, Trouble};
pub use evaluate::{eval, int_of, text_of, value, values};
pub use formats::{format, format_bytes};
pub use formula::{Formula, formulas, place_of};
pub use lines::line;
pub use question::{Answer, CallArg, Question};
pub use slot::Slot;
pub use taken::Line;
pub use vars::{Vars, first_slot};
