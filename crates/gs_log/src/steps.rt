// The calls of the disk that make a log, and that add a record to it.
ghost use Rattle.std.specs.Prelude.{◌≡◌, ◌<◌, ◌≤◌, ◌++◌, [], ◌∷◌, ℕ, List, None, OnOk, length};
ghost use Rattle.std.specs.Int.{w32, to_le_bytes};
ghost use Rattle.gs_disk.specs.Folder.{Folder, KeepsOthers, HasCause};
ghost use Rattle.gs_disk.specs.Moments.{Passes, LeavesOnly, EachNow, Always};
ghost use Rattle.gs_log.specs.declared.limits.TheConstants.{MAX_PAYLOAD, MAX_RECORDS};
ghost use Rattle.gs_log.specs.Names.{log_name, mark_name};
ghost use Rattle.gs_log.specs.Holding.{Holds, IsBeforeOrAfter, IsNoneOrEmpty};

use crate::Log;
use crate::names::{log_file, mark_file};
use gs_disk::{Disk, DiskErr};

/// Makes the log's file, and then its mark.
pub fn make_files<D: Disk>(disk: &mut D) -> Result<(), DiskErr>
    requires unmarked { D.tells → EachNow (λ image. image mark_name ≡ None) (D.state disk.old) }
    ensures any_moment { D.tells → Always (IsNoneOrEmpty (D.state disk.old).folder)
        (D.state disk.old) (D.state disk.new) }
    ensures images { D.tells → Passes (KeepsOthers (log_name ∷ mark_name ∷ [])) (D.state disk.old)
        (D.state disk.new) }
    ensures only { D.tells → OnOk result (LeavesOnly (D.state disk.new).folder (D.state disk.new)) }
    ensures held { D.tells → OnOk result (Holds [] (D.state disk.new).folder) }
    ensures others { D.tells → KeepsOthers (log_name ∷ mark_name ∷ []) (D.state disk.old).folder
        (D.state disk.new).folder }
    ensures cause { HasCause (D.state disk.old) (D.state disk.new) result }
{
    let log = log_file();
    let mark = mark_file();
    disk.create(&log)?;
    disk.write(&log, 0, &[0])?;
    disk.sync()?;
    disk.create(&mark)?;
    disk.sync()?;
    Ok(())
}

/// Writes a record behind the closed gate, and then opens the gate.
pub fn add_record<D: Disk>(
    disk: &mut D,
    list: &Log,
    payload: &[u8],
    closed: &[u8],
) -> Result<(), DiskErr>
    requires small { length payload.now ≤ MAX_PAYLOAD }
    requires room { length list.now < MAX_RECORDS }
    requires spelled { closed.now ≡ (to_le_bytes w32 (length payload.now) ++ payload.now) ++ 0
        ∷ [] }
    requires stands { D.tells → EachNow (Holds list.now) (D.state disk.old) }
    ensures any_moment { D.tells
        → Always (IsBeforeOrAfter list.now payload.now (D.state disk.old).folder) (D.state disk.old)
        (D.state disk.new) }
    ensures images { D.tells → Passes (KeepsOthers (log_name ∷ [])) (D.state disk.old)
        (D.state disk.new) }
    ensures only { D.tells → OnOk result (LeavesOnly (D.state disk.new).folder (D.state disk.new)) }
    ensures held { D.tells → OnOk result
        (Holds (list.now ++ payload.now ∷ []) (D.state disk.new).folder) }
    ensures others { D.tells → KeepsOthers (log_name ∷ []) (D.state disk.old).folder
        (D.state disk.new).folder }
    ensures cause { HasCause (D.state disk.old) (D.state disk.new) result }
{
    let log = log_file();
    let end = list.end();
    disk.write(&log, end + 1, closed)?;
    disk.sync()?;
    disk.write(&log, end, &[1])?;
    disk.sync()?;
    Ok(())
}
