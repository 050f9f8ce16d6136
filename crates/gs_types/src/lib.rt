//! The words that every layer of `gs` speaks: names, bytes, texts, values, jobs, laws and sinks.
#![tactic(auto)]

mod action;
mod blob;
mod job;
mod law;
mod laws;
mod limits;
mod mem_sink;
mod memory;
mod name;
mod note;
mod sequence;
mod settings;
mod sink;
mod std_sink;
#[cfg(test)]
mod tests;
mod text;
mod value;

pub use action::Action;
pub use blob::Blob;
pub use job::{Arg, Job};
pub use law::{Law, NoLaw};
pub use laws::{refused_is_started_and_failed, since_is_what_came_after};
pub use limits::{
    ACTION_LIMIT, FILE_LIMIT, FUEL_DEFAULT, FUEL_LIMIT, HANDLE_LIMIT, NAME_LENGTH, NAME_LIMIT,
    OPERATION_LIMIT, PARAMETER_LIMIT, PRINTED_LIMIT, SLOT_LIMIT, STRING_LIMIT, TASK_LIMIT,
    TEXT_LIMIT, TRIES_DEFAULT, TRIES_LIMIT, VARIABLE_LIMIT, WINDOW_DEFAULT, WINDOW_LIMIT,
    WORKER_FAILURES, WORKER_LIMIT,
};
pub use mem_sink::MemSink;
pub use memory::NoMemory;
pub use name::{BadName, Name};
pub use note::{FinalNote, Note, OutNote, VarNote, Version};
pub use sequence::Sequence;
pub use settings::{FaultKind, Settings};
pub use sink::{Sink, SinkFailed, put_all};
pub use std_sink::StdSink;
pub use text::{Text, TextErr};
pub use value::Value;
