//! Built-in operations on files: their law, and a link that carries them out by itself.
#![tactic(auto)]

mod filters;
mod giving;
mod inside;
mod laws;
mod operation;
#[cfg(test)]
mod tests;

pub use filters::FilterLaw;
pub use inside::InsideLink;
pub use laws::{digest_is_a_string, failures_are_lawful};
pub use operation::Operation;
