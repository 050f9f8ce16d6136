// Why results weren't brought to the user's files.
ghost use Rattle.std.specs.Prelude.{◌≡◌};
ghost use Rattle.gs_back.specs.Told.{err_of_disk};

use gs_disk::DiskErr;
use gs_types::Version;
use thiserror::Error;

/// Why results weren't brought to the user's files.
#[derive(Debug, Drop, Error)]
pub enum BackErr {
    /// The file of a version is absent, or its length in bytes isn't the one that was kept.
    #[error("lost version")]
    Lost {
        version: Version,
        kept: u64,
        found: Option<u64>,
    },
    /// The disk failed.
    #[error("disk fault")]
    Fault,
    /// The disk found no memory.
    #[error("out of memory")]
    Memory,
}

impl From<DiskErr> for BackErr {
    ghost from_gives = { λ e told. told ≡ err_of_disk e };

    fn from(e: DiskErr) -> BackErr {
        match e {
            DiskErr::Fault => BackErr::Fault,
            DiskErr::Memory => BackErr::Memory,
        }
    }
}
