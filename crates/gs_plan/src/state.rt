// What has been placed so far, and what waits.
use crate::keys::Keys;

/// How many levels the keys of tasks have, and how many places.
pub(crate) const TASK_LEVELS: u32 = 14;

pub(crate) const TASK_PLACES: usize = 16_384;

/// How many levels the keys of slots have, and how many places.
pub(crate) const SLOT_LEVELS: u32 = 10;

pub(crate) const SLOT_PLACES: usize = 1_024;

/// How far the needs of actions are met: those of the first `reached` tasks, which are told, and
/// the first `met` of all, of which the last ends at `time`.
#[derive(Clone, Copy)]
pub(crate) struct Gate {
    pub reached: usize,
    pub met: usize,
    pub time: u64,
}

/// A task that isn't placed has the end 0, since no task takes no time. `free` has for each slot
/// the time from which it is free, `tasks` for each task that may be placed the time from which it
/// may. `left` counts what a task waits for, and `ready` is the last end of what it waited for.
#[derive(Drop)]
pub(crate) struct State {
    pub starts: Vec<u64>,
    pub ends: Vec<u64>,
    pub slots: Vec<u32>,
    pub free: Keys,
    pub tasks: Keys,
    pub left: Vec<usize>,
    pub ready: Vec<u64>,
    pub clock: u64,
    pub gate: Gate,
}
