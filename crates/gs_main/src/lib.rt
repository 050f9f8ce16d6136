//! A main program as a dialogue: it asks for what it needs, and goes on by the answers.
#![tactic(auto)]

mod begin;
mod calls;
mod dialogue;
mod files;
mod prints;
mod reply;
mod run;
mod script;
mod waits;
mod work;

pub use dialogue::Main;
