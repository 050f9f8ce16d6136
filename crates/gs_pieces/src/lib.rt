//! The pieces of what a main program has done: open files by their handles, the names of files,
//! what stands at the places of a call, and what is noted of its variables.
#![tactic(auto)]

mod handles;
mod naming;
mod open_file;
mod passed;
mod read_err;
mod var_notes;

pub use handles::{append, change, go_to, is_any_open, is_open, is_written, open_count, opened_at};
pub use naming::name_in;
pub use open_file::{Opened, writes};
pub use passed::{Passed, has_twice, leaves_file, note, note_within, passed_all, pend, written};
pub use read_err::ReadErr;
pub use var_notes::{notes, text_copy};
