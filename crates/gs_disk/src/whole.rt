// Reading a whole file.
ghost use Rattle.std.specs.Prelude.{◌≡◌, IfOk, OnErr};
ghost use Rattle.gs_types.specs.Bytes.{IsBytes};
ghost use Rattle.gs_disk.specs.Folder.{Same};
ghost use Rattle.gs_disk.specs.Moments.{Passes};
ghost use Rattle.gs_disk.specs.Whole.{IsWhole, Carries, HasFault};

use crate::{Disk, DiskErr, DiskName};
use std::alloc::Global;

/// What was read of a file. Lengths are in bytes.
#[derive(Clone, Copy, Debug, PartialEq, Eq)]
pub enum Whole {
    /// No such file is there.
    Absent,
    /// It is longer than the limit, and nothing was read.
    TooLong { len: u64 },
    /// So many bytes were read, which is all that the file gave.
    Read { len: u64 },
}

/// Reads a file of at most `limit` bytes. Only where it gives `Read` has `into` changed, and then
/// it holds what was read. `Fault` is one of the disk; `Memory` may also be want of room for the
/// bytes.
pub fn read_whole<D: Disk>(
    alloc: Global,
    disk: &mut D,
    name: &DiskName,
    limit: u64,
    into: &mut Vec<u8>,
) -> Result<Whole, DiskErr>
    ensures whole { D.tells → IfOk result (λ w. IsWhole ((D.state disk.old).folder name.now) limit
        into.new.items w) }
    ensures same { D.tells → (D.state disk.new).folder ≡ (D.state disk.old).folder }
    ensures images { D.tells → Passes Same (D.state disk.old) (D.state disk.new) }
    ensures carries { IfOk result (λ w. Carries limit into.old.items into.new.items w) }
    ensures bytes { IsBytes into.new.items }
    ensures refused { OnErr result (into.new.items ≡ into.old.items) }
    ensures cause { HasFault (D.state disk.old) (D.state disk.new) result }
{
    let Some(len) = disk.len(name)? else {
        return Ok(Whole::Absent);
    };
    if len > limit {
        return Ok(Whole::TooLong { len });
    }
    let mut room = Vec::new(alloc);
    if room.resize(len as usize, 0).is_err() {
        return Err(DiskErr::Memory);
    }
    let n = disk.read_into(name, 0, &mut room)?;
    room.truncate(n);
    *into = room;
    Ok(Whole::Read { len: n as u64 })
}
