// What a disk in memory holds, and what it held.
ghost use Rattle.std.specs.Prelude.{◌≡◌};
ghost use Rattle.gs_disk.specs.Mem.{touched_name, is_other};

use crate::DiskName;
use std::collections::BTreeMap;
use std::snapshot::Snapshot;

/// A call since the last sync that succeeded, with what undoes it.
#[derive(Drop)]
pub enum Touch {
    /// The name was created or removed. This stood there before.
    Renamed {
        name: DiskName,
        before: Option<Vec<u8>>,
    },
    /// So many bytes were written from an offset on. These stood there before, in a file that ended
    /// so.
    Written {
        name: DiskName,
        at: usize,
        len: usize,
        before: Vec<u8>,
        end: usize,
    },
}

impl Touch {
    /// It is a call on a file of another name.
    pub fn is_beside(&self, other: &DiskName) -> bool
        ensures { result ≡ is_other other.now (touched_name self.now) }
    {
        match self {
            Touch::Renamed { name, .. } => name != other,
            Touch::Written { name, .. } => name != other,
        }
    }
}

/// What was done since the last sync that succeeded, the last call in front. It is for proofs
/// alone, and so no want of memory loses any of it.
#[derive(Drop)]
pub enum Since {
    /// The files at that sync.
    Synced(Snapshot<BTreeMap<DiskName, Vec<u8>>>),
    /// The name was created or removed.
    Named(DiskName, Snapshot<Since>),
    /// So many bytes were written from an offset on.
    Wrote(DiskName, usize, usize, Snapshot<Since>),
    /// A synced file of these bytes was put there.
    Added(DiskName, Snapshot<Vec<u8>>, Snapshot<Since>),
}

/// The files as they read, and what was done since the last sync.
#[derive(Drop)]
pub struct Now {
    pub files: BTreeMap<DiskName, Vec<u8>>,
    pub since: Snapshot<Since>,
    // the calls since the last sync, the first of them first
    pub touched: Vec<Touch>,
    // each of them found memory to be kept
    pub is_whole: bool,
}

/// What a disk held at each earlier moment, the newest first.
#[derive(Drop)]
pub enum Past {
    Start,
    Then(Snapshot<Now>, Snapshot<Past>),
}
