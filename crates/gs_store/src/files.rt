// Calls on one file, or on the log.
ghost use Rattle.std.specs.Prelude.{◌≡◌, ◌<◌, ◌≤◌, ◌++◌, [], ◌∷◌, OnOk, OnErr, Some, length};
ghost use Rattle.gs_types.specs.declared.limits.TheConstants.{FILE_LIMIT};
ghost use Rattle.gs_disk.specs.Folder.{HasCause};
ghost use Rattle.gs_disk.specs.Moments.{EachNow};
ghost use Rattle.gs_log.specs.Holding.{Holds};
ghost use Rattle.gs_log.specs.declared.limits.TheConstants.{MAX_PAYLOAD, MAX_RECORDS};
ghost use Rattle.gs_store.specs.Spans.{TouchesOnly};
ghost use Rattle.gs_store.specs.Told.{FailsOutside, Appends};

use crate::err::{StoreErr, outside_err};
use gs_disk::{Disk, DiskErr, DiskName};
use gs_log::Log;

/// Makes a file of these bytes, whatever stood there. Nothing is synced.
pub fn put_file<D: Disk>(disk: &mut D, name: &DiskName, bytes: &[u8]) -> Result<(), DiskErr>
    requires { length bytes.now ≤ FILE_LIMIT }
    ensures put { D.tells → OnOk result ((D.state disk.new).folder name.now ≡ Some bytes.now) }
    ensures touches { D.tells
        → TouchesOnly (name.now ∷ []) (D.state disk.old) (D.state disk.new) }
    ensures cause { HasCause (D.state disk.old) (D.state disk.new) result }
{
    disk.create(name)?;
    disk.write(name, 0, bytes)?;
    Ok(())
}

/// Adds a payload to the log.
pub fn append<D: Disk>(log: &mut Log, disk: &mut D, payload: &[u8]) -> Result<(), StoreErr>
    requires small { length payload.now ≤ MAX_PAYLOAD }
    requires room { length log.old < MAX_RECORDS }
    requires stands { D.tells → EachNow (Holds log.old) (D.state disk.old) }
    ensures list { OnOk result (log.new ≡ log.old ++ payload.now ∷ []) }
    ensures same { OnErr result (log.new ≡ log.old) }
    ensures appends { D.tells
        → Appends log.old payload.now (D.state disk.old) (D.state disk.new) result }
    ensures fails { FailsOutside (D.state disk.old) (D.state disk.new) result }
{
    match log.append(disk, payload) {
        Ok(()) => Ok(()),
        Err(e) => Err(outside_err(e)),
    }
}
