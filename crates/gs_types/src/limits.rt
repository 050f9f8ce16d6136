// Limits that several crates hold to. Each is the greatest number that is allowed, but for the
// defaults.

/// Bytes of a file that is passed to a task, opened by the main program, or made by either.
pub const FILE_LIMIT: usize = 16_777_216;

/// Bytes of a string.
pub const STRING_LIMIT: usize = 1_024;

/// Bytes of an IDL, a program or a worker list.
pub const TEXT_LIMIT: usize = 65_536;

/// Bytes of the text that a run prints.
pub const PRINTED_LIMIT: usize = 16_777_216;

/// Bytes of a file's name.
pub const NAME_LENGTH: usize = 200;

/// Task calls of a run.
pub const TASK_LIMIT: usize = 10_000;

/// Actions of a run, without its end.
pub const ACTION_LIMIT: usize = 50_000;

/// Distinct file names of a run.
pub const NAME_LIMIT: usize = 20_000;

/// Operations of an IDL.
pub const OPERATION_LIMIT: usize = 64;

/// Parameters of an operation.
pub const PARAMETER_LIMIT: usize = 16;

/// Variables of a main program.
pub const VARIABLE_LIMIT: usize = 128;

/// Handles that are open at once.
pub const HANDLE_LIMIT: usize = 8;

/// Workers of a worker list.
pub const WORKER_LIMIT: usize = 64;

/// Slots of a worker.
pub const SLOT_LIMIT: usize = 16;

/// Failures after which a worker isn't used in the call.
pub const WORKER_FAILURES: u32 = 5;

/// Steps of a main program, and the number where none is given. The least is 1.
pub const FUEL_LIMIT: u64 = 1_000_000_000;

pub const FUEL_DEFAULT: u64 = 10_000_000;

/// Calls that may be unfinished at once, and the number where none is given. The least is 1.
pub const WINDOW_LIMIT: u32 = 10_000;

pub const WINDOW_DEFAULT: u32 = 1_000;

/// Failures after which a task is lost, and the number where none is given. The least is 1.
pub const TRIES_LIMIT: u32 = 100;

pub const TRIES_DEFAULT: u32 = 3;
