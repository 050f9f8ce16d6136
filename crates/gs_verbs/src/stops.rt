// Why a command stops.
use gs_plan::DurKind;
use gs_types::Version;

/// Why the store of a folder isn't used.
#[derive(Debug, Drop)]
pub enum BadStore {
    /// The file of the log is none. `at` is the place of the gate of the first record that does not
    /// fit.
    Log {
        at: u64,
    },
    /// The record of this index, from 0, is no entry or stands out of order; or it is a header whose
    /// interface doesn't read, or the gate of actions that don't fit the interface.
    Record {
        index: u32,
    },
    /// The file of a version is absent, or its length in bytes isn't the one that was kept.
    Lost {
        version: Version,
        kept: u64,
        found: Option<u64>,
    },
}

/// Why no report was written: the store isn't used, the disk or the output failed, or memory was
/// wanting.
#[derive(Debug, Drop)]
pub enum ReportStop {
    Store { bad: BadStore },
    Disk,
    Sink,
    Memory,
}

/// Why the store wasn't removed: its results may not be in the user's files yet, the disk failed, or
/// memory was wanting.
#[derive(Clone, Copy, Debug, PartialEq, Eq)]
pub enum CleanStop {
    Gated,
    Disk,
    Memory,
}

/// Why no plan was written: there is no file of durations, or it goes wrong, on a line, from 1, or
/// as a whole, on line 0; the store isn't used; no run has ended; the disk or the output failed; or
/// memory was wanting.
#[derive(Debug, Drop)]
pub enum PlanStop {
    NoText,
    BadText { line: u32, kind: DurKind },
    Store { bad: BadStore },
    NoRun,
    Disk,
    Sink,
    Memory,
}
