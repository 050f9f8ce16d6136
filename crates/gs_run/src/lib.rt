//! The top call of `gs`: from the words of the command line to the files in the folder.
#![tactic(auto)]

mod calls;
mod checking;
mod judge;
mod kinds;
pub mod laws;
mod names;
mod ready;
mod refusal;
mod run;
mod running;
mod showing;
mod sources;
mod stop;
mod texts;
mod verbs;

pub use kinds::TextKind;
pub use run::gs;
pub use stop::Stop;
