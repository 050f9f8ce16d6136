// Setting one of the user's files.
ghost use Rattle.std.specs.Prelude.{◌≡◌, ◌≤◌, [], ◌∷◌, OnOk, IfErr};
ghost use Rattle.gs_types.specs.declared.limits.TheConstants.{FILE_LIMIT};
ghost use Rattle.gs_disk.specs.Folder.{Same};
ghost use Rattle.gs_disk.specs.Moments.{Passes};
ghost use Rattle.gs_store.specs.Names.{version_name, IsKept};
ghost use Rattle.gs_store.specs.Spans.{TouchesOnly};
ghost use Rattle.gs_store.specs.Versions.{IsStanding};
ghost use Rattle.gs_back.specs.Told.{RefusesFile, HasCause};

use crate::copy::copy_file;
use crate::err::BackErr;
use gs_disk::{Disk, DiskName};
use gs_store::{copy_version, version_file};
use gs_types::{FinalNote, Name, Version};

/// That the file of a version has another length than was kept.
fn lost(v: &Version, kept: u64, found: Option<u64>) -> BackErr
    ensures { result ≡ BackErr.Lost v.now kept found }
{
    BackErr::Lost {
        version: copy_version(v),
        kept,
        found,
    }
}

/// Whether the version of a final stands with its length.
fn check_version<D: Disk>(disk: &mut D, last: &FinalNote) -> Result<(), BackErr>
    ensures stands { D.tells
        → OnOk result (IsStanding (D.state disk.old).folder last.now.version last.now.len) }
    ensures refused { D.tells
        → IfErr result (RefusesFile (D.state disk.old).folder last.now.version last.now.len) }
    ensures same { D.tells → (D.state disk.new).folder ≡ (D.state disk.old).folder }
    ensures images { D.tells → Passes Same (D.state disk.old) (D.state disk.new) }
    ensures cause { HasCause (D.state disk.old) (D.state disk.new) result }
{
    let found = disk.len(&version_file(&last.version))?;
    if found == Some(last.len) {
        return Ok(());
    }
    Err(lost(&last.version, last.len, found))
}

/// Makes a user's file what the version of a final is. `Lost` exactly where the version's file is
/// absent or of another length.
pub fn set_final<D: Disk>(disk: &mut D, name: &Name, last: &FinalNote) -> Result<(), BackErr>
    requires kept { IsKept last.now.version }
    requires small { last.now.len ≤ FILE_LIMIT }
    ensures set { D.tells → OnOk result ((D.state disk.new).folder name.now
        ≡ (D.state disk.old).folder (version_name last.now.version)) }
    ensures stood { D.tells
        → OnOk result (IsStanding (D.state disk.old).folder last.now.version last.now.len) }
    ensures refused { D.tells
        → IfErr result (RefusesFile (D.state disk.old).folder last.now.version last.now.len) }
    ensures touches { D.tells
        → TouchesOnly (name.now ∷ []) (D.state disk.old) (D.state disk.new) }
    ensures cause { HasCause (D.state disk.old) (D.state disk.new) result }
{
    if let Err(failure) = check_version(disk, last) {
        return Err(failure);
    }
    let from = version_file(&last.version);
    let to = DiskName::of(name.bytes());
    let len = copy_file(disk, &from, &to, last.len)?;
    if len == last.len {
        return Ok(());
    }
    Err(lost(&last.version, last.len, Some(len)))
}
