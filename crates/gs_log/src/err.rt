// Why a call of the log failed.
ghost use Rattle.std.specs.Prelude.{◌≡◌};
ghost use Rattle.gs_log.specs.Told.{told_by};
ghost use Rattle.gs_log.specs.declared.err.LogErr.TheVariants.{NoMemory};

use gs_disk::DiskErr;
use std::alloc::{AllocError, AllocFailed};
use thiserror::Error;

/// Why a call of the log failed.
#[derive(Clone, Copy, Debug, Drop, PartialEq, Eq, Error)]
pub enum LogErr {
    /// There is no mark, and so no log.
    #[error("no log")]
    NoMark,
    /// The bytes are no log. `at` is the place of the gate of the first record that doesn't fit,
    /// and 0 for an absent or an empty file.
    #[error("bad log at {at}")]
    BadLog { at: u64 },
    /// The disk failed.
    #[error("disk fault")]
    DiskFault,
    /// There was no memory, or the disk found none.
    #[error("out of memory")]
    NoMemory,
}

impl From<DiskErr> for LogErr {
    ghost from_gives = { λ e told. told ≡ told_by e };

    fn from(e: DiskErr) -> LogErr {
        match e {
            DiskErr::Fault => LogErr::DiskFault,
            DiskErr::Memory => LogErr::NoMemory,
        }
    }
}

impl From<AllocError> for LogErr {
    ghost from_gives = { λ e told. told ≡ NoMemory };

    fn from(_e: AllocError) -> LogErr {
        LogErr::NoMemory
    }
}

impl<T: Drop> From<AllocFailed<T>> for LogErr {
    ghost from_gives = { λ _ told. told ≡ NoMemory };

    fn from(_e: AllocFailed<T>) -> LogErr {
        LogErr::NoMemory
    }
}
