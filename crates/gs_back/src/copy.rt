// Copying a file.
ghost use Rattle.std.specs.Prelude.{◌≡◌, ◌≢◌, ◌≤◌, [], ◌∷◌, Some, OnOk, IfOk, length, option_map};
ghost use Rattle.gs_types.specs.declared.limits.TheConstants.{FILE_LIMIT};
ghost use Rattle.gs_disk.specs.Folder.{HasCause};
ghost use Rattle.gs_store.specs.Spans.{TouchesOnly};

use gs_disk::{Disk, DiskErr, DiskName};

/// The bytes that are copied at once.
const PIECE: usize = 4096;

/// Makes a copy of a file of at most `FILE_LIMIT` bytes, piece by piece, and gives the number of
/// bytes that it had. It takes no memory.
pub fn copy_file<D: Disk>(
    disk: &mut D,
    from: &DiskName,
    to: &DiskName,
    len: u64,
) -> Result<u64, DiskErr>
    requires apart { from.now ≢ to.now }
    requires small { len ≤ FILE_LIMIT }
    requires long { D.tells
        → option_map length ((D.state disk.old).folder from.now) ≡ Some len }
    ensures count { D.tells → IfOk result (λ n. n ≡ len) }
    ensures set { D.tells
        → OnOk result ((D.state disk.new).folder to.now ≡ (D.state disk.old).folder from.now) }
    ensures touches { D.tells
        → TouchesOnly (to.now ∷ []) (D.state disk.old) (D.state disk.new) }
    ensures cause { HasCause (D.state disk.old) (D.state disk.new) result }
{
    disk.create(to)?;
    let mut piece = [0u8; PIECE];
    let mut at: u64 = 0;
    while at < len {
        let n = disk.read_into(from, at, &mut piece)?;
        if n == 0 {
            return Ok(at);
        }
        disk.write(to, at, &piece[..n])?;
        at += n as u64;
    }
    Ok(at)
}
