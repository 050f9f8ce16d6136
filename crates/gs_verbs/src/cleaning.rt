// The command `clean`.
ghost use Rattle.std.specs.Prelude.{◌≡◌};
ghost use Rattle.gs_disk.specs.Folder.{Same};
ghost use Rattle.gs_disk.specs.Moments.{Passes};
ghost use Rattle.gs_verbs.specs.Cleaning.{stop_of_disk, MayEnds, MayTold, RanClean, Removed};

use crate::CleanStop;
use crate::loading::{Unloaded, load};
use gs_disk::{Disk, DiskErr};
use gs_store::Stage;
use std::alloc::Global;

// Whether the store may go: it doesn't load, or not as one whose results are still to be handed
// over. Nothing is written.
fn may_clean<D: Disk>(alloc: Global, disk: &mut D) -> Result<(), CleanStop>
    ensures gated { D.tells → MayTold (D.state disk.old).folder result }
    ensures same { D.tells → (D.state disk.new).folder ≡ (D.state disk.old).folder }
    ensures images { D.tells → Passes Same (D.state disk.old) (D.state disk.new) }
    ensures cause { MayEnds (D.state disk.old).faults (D.state disk.new).faults result }
{
    match load(alloc, disk) {
        Ok(store) => match store.stage() {
            Stage::Gated => Err(CleanStop::Gated),
            _ => Ok(()),
        },
        Err(Unloaded::Bad { bad: _ }) => Ok(()),
        Err(Unloaded::Disk) => Err(CleanStop::Disk),
        Err(Unloaded::Memory) => Err(CleanStop::Memory),
    }
}

fn stop_of_disk(e: DiskErr) -> CleanStop
    ensures { result ≡ stop_of_disk e }
{
    match e {
        DiskErr::Fault => CleanStop::Disk,
        DiskErr::Memory => CleanStop::Memory,
    }
}

fn remove<D: Disk>(alloc: Global, disk: &mut D) -> Result<(), CleanStop>
    ensures { Removed D.tells (D.state disk.old) (D.state disk.new) result }
{
    match gs_back::clean(alloc, disk) {
        Ok(()) => Ok(()),
        Err(e) => Err(stop_of_disk(e)),
    }
}

/// Removes the folder's store, also one that doesn't load, and leaves the user's files. `Gated`
/// exactly where the store loads as one whose results may not be in the user's files yet; then
/// nothing is changed. A crash leaves the record as it was, or no mark.
pub fn clean<D: Disk>(alloc: Global, disk: &mut D) -> Result<(), CleanStop>
    ensures { RanClean D.tells (D.state disk.old) (D.state disk.new) result }
{
    match may_clean(alloc, disk) {
        Ok(()) => remove(alloc, disk),
        Err(stop) => Err(stop),
    }
}
