// What words say.
use gs_types::{Name, Settings};

/// Tasks of a run that makes itself. The least is 1.
pub const SELF_LIMIT: u64 = 2_000;

/// Slots of a plan. The least is 1.
pub const PLAN_LIMIT: u64 = 1_024;

/// The commands: `run IDL PROGRAM WORKERS` with its options, `check IDL PROGRAM`, `report`, `clean`,
/// `self SEED N`, and `plan SLOTS DURATIONS`.
#[derive(Drop)]
pub enum Command {
    Run {
        idl: Name,
        program: Name,
        workers: Name,
        settings: Settings,
    },
    Check {
        idl: Name,
        program: Name,
    },
    Report,
    Clean,
    SelfRun {
        seed: u64,
        n: u32,
    },
    Plan {
        slots: u32,
        durations: Name,
    },
}

/// The place, from 0, of the first word with which no command goes on, or the number of words.
#[derive(Clone, Copy, Debug, PartialEq, Eq)]
pub struct Usage {
    pub word: u32,
}
