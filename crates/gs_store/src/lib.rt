//! The record of a run on disk: which texts it is of, which tasks are done and with which outputs,
//! what the main program did and left, and the versions of files that these name.
#![tactic(auto)]

mod begin;
mod err;
mod files;
mod kept;
mod load;
mod names;
mod same;
mod store;
mod version;

pub use err::StoreErr;
pub use gs_entries::{Entry, GateNote, Stage, Texts};
pub use names::{copy_version, main_file, out_file, version_file};
pub use same::{OtherRun, What};
pub use store::Store;

#[cfg(test)]
mod tests;
