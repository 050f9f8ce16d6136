// Why a call of the store failed.
ghost use Rattle.std.specs.Prelude.{◌≡◌};
ghost use Rattle.gs_log.specs.Told.{IsOutside as IsOutsideLog};
ghost use Rattle.gs_store.specs.Causes.{err_of_log, err_of_disk};
ghost use Rattle.gs_store.specs.declared.err.StoreErr.TheVariants as errs;

use gs_disk::DiskErr;
use gs_log::LogErr;
use gs_types::{NoMemory, Version};
use std::alloc::AllocError;
use thiserror::Error;

/// Why a call of the store failed.
#[derive(Debug, Drop, Error)]
pub enum StoreErr {
    /// The file of the log is none. `at` is the place of the gate of the first record that does
    /// not fit.
    #[error("bad log at {at}")]
    BadLog {
        at: u64,
    },
    /// The record of this index, from 0, is no entry or stands out of order.
    #[error("bad record {index}")]
    BadRecord {
        index: u32,
    },
    /// The file of a version is absent, or its length in bytes isn't the one that was kept.
    #[error("lost version")]
    LostVersion {
        version: Version,
        kept: u64,
        found: Option<u64>,
    },
    /// The disk failed.
    #[error("disk fault")]
    DiskFault,
    /// There was no memory, or the disk found none.
    #[error("out of memory")]
    NoMemory,
}

impl From<DiskErr> for StoreErr {
    ghost from_gives = { λ e told. told ≡ err_of_disk e };

    fn from(e: DiskErr) -> StoreErr {
        match e {
            DiskErr::Fault => StoreErr::DiskFault,
            DiskErr::Memory => StoreErr::NoMemory,
        }
    }
}

impl From<NoMemory> for StoreErr {
    ghost from_gives = { λ _ told. told ≡ errs.NoMemory };

    fn from(_e: NoMemory) -> StoreErr {
        StoreErr::NoMemory
    }
}

impl From<AllocError> for StoreErr {
    ghost from_gives = { λ _ told. told ≡ errs.NoMemory };

    fn from(_e: AllocError) -> StoreErr {
        StoreErr::NoMemory
    }
}

/// An error of a call of the log that adds, or makes it.
pub fn outside_err(e: LogErr) -> StoreErr
    requires { IsOutsideLog e }
    ensures { result ≡ err_of_log e }
{
    match e {
        LogErr::DiskFault => StoreErr::DiskFault,
        LogErr::NoMemory => StoreErr::NoMemory,
        LogErr::NoMark | LogErr::BadLog { .. } => unreachable!(),
    }
}
