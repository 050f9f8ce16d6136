// Removing a record.
ghost use Rattle.std.specs.Prelude.{◌≡◌, ◌↔◌, [], ◌∷◌, None, IsTrue, OnOk, length, slice_index_or};
ghost use Rattle.gs_disk.specs.Folder.{KeepsOthers, HasCause};
ghost use Rattle.gs_disk.specs.Moments.{LeavesOnly};
ghost use Rattle.gs_disk.specs.Name.{IsStore};
ghost use Rattle.gs_log.specs.Names.{mark_name};
ghost use Rattle.gs_back.specs.Clean.{Cleans, Unmarks, RemovesStored};

use gs_disk::{Disk, DiskErr, DiskName};
use std::alloc::Global;

/// The file is one of the store.
fn is_stored(name: &DiskName) -> bool
    ensures { IsTrue result ↔ IsStore name.now }
{
    name.bytes().starts_with(b".gs.")
}

/// The file that marks that the log counts.
#[tactic(auto, using(gs_log::specs::Names::mark_is_name), unfolding(gs_log::specs::Names::mark_name))]
fn mark_file() -> DiskName
    ensures { result ≡ mark_name }
{
    DiskName::of(b".gs.on")
}

/// Removes the mark, and syncs.
fn remove_mark<D: Disk>(disk: &mut D) -> Result<(), DiskErr>
    ensures unmarks { D.tells → Unmarks (D.state disk.old) (D.state disk.new) result }
    ensures cause { HasCause (D.state disk.old) (D.state disk.new) result }
{
    disk.remove(&mark_file())?;
    disk.sync()?;
    Ok(())
}

/// Removes those of these files that are the store's. Nothing is synced.
fn remove_stored<D: Disk>(disk: &mut D, names: &[DiskName]) -> Result<(), DiskErr>
    ensures removes { D.tells
        → RemovesStored names.now (D.state disk.old) (D.state disk.new) result }
    ensures cause { HasCause (D.state disk.old) (D.state disk.new) result }
{
    for name in names {
        if !is_stored(name) {
            continue;
        }
        disk.remove(name)?;
    }
    Ok(())
}

/// Removes the record: its mark, and once that is gone on the disk, every other file of the store,
/// and syncs. A crash leaves the record as it was, or no mark. The user's files stay.
pub fn clean<D: Disk>(alloc: Global, disk: &mut D) -> Result<(), DiskErr>
    ensures cleans { D.tells → Cleans (D.state disk.old) (D.state disk.new) result }
    ensures cause { HasCause (D.state disk.old) (D.state disk.new) result }
{
    remove_mark(disk)?;
    let names = disk.names(alloc)?;
    remove_stored(disk, &names)?;
    disk.sync()?;
    Ok(())
}
