// The table of a plan.
use gs_types::Sequence;

/// Where a task, numbered from 1, is placed: its slot, from 0, its start and its end.
#[derive(Clone, Copy, Debug, PartialEq, Eq)]
pub struct Placed {
    pub n: u32,
    pub slot: u32,
    pub start: u64,
    pub end: u64,
}

/// A schedule of all tasks, by their numbers, with its last end and the sum of the durations, and
/// the chain that bounds it, by numbers from its front, with its duration.
#[derive(Debug, Drop)]
pub struct Plan {
    pub tasks: Sequence<Placed>,
    pub end: u64,
    pub work: u64,
    pub chain: Sequence<u32>,
    pub length: u64,
}
