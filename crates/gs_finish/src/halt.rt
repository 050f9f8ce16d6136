// Why the engine stops early.
ghost use Rattle.std.specs.Prelude.{◌≡◌};
ghost use Rattle.gs_finish.specs.Halting.{halt_of, halt_of_disk};
ghost use Rattle.gs_finish.specs.declared.halt.Halt.TheVariants as halt;

use gs_disk::DiskErr;
use gs_store::StoreErr;
use gs_types::{NoMemory, Version};

/// Why the engine stops early: a fault of the disk, want of memory, or a version whose file is
/// absent or of another length, in bytes, than was kept.
#[derive(Debug, Drop)]
pub enum Halt {
    Disk,
    NoMemory,
    Lost {
        version: Version,
        kept: u64,
        found: Option<u64>,
    },
}

impl From<StoreErr> for Halt {
    ghost from_gives = { λ e h. h ≡ halt_of e };

    fn from(e: StoreErr) -> Self {
        match e {
            StoreErr::LostVersion {
                version,
                kept,
                found,
            } => Halt::Lost {
                version,
                kept,
                found,
            },
            StoreErr::DiskFault => Halt::Disk,
            StoreErr::NoMemory => Halt::NoMemory,
            StoreErr::BadLog { at: _ } => Halt::NoMemory,
            StoreErr::BadRecord { index: _ } => Halt::NoMemory,
        }
    }
}

impl From<DiskErr> for Halt {
    ghost from_gives = { λ e h. h ≡ halt_of_disk e };

    fn from(e: DiskErr) -> Self {
        match e {
            DiskErr::Fault => Halt::Disk,
            DiskErr::Memory => Halt::NoMemory,
        }
    }
}

impl From<NoMemory> for Halt {
    ghost from_gives = { λ e h. h ≡ halt.NoMemory };

    fn from(_e: NoMemory) -> Self {
        Halt::NoMemory
    }
}
