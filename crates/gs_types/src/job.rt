// A task as a worker gets it.
use crate::{Blob, Sequence, Value};

/// What stands at a place of a task: a value that is given, a file that is given and taken back, or
/// a value that is to be made.
#[derive(Debug, Drop)]
pub enum Arg {
    Given { v: Value },
    Both { bytes: Blob },
    OutFile,
    OutInt,
    OutStr,
}

/// Task `n`, from 1, for worker `worker`, from 0: the worker's program, the operation's name and
/// what stands at its places.
#[derive(Debug, Drop)]
pub struct Job {
    pub n: u32,
    pub worker: u32,
    pub program: Blob,
    pub op: Blob,
    pub args: Sequence<Arg>,
}
