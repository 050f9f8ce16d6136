// Bringing the results of a run that has ended to the user's files.
ghost use Rattle.std.specs.Prelude.{◌≡◌, OnOk, IfOk, IfErr, IsOk, Ok};
ghost use Rattle.gs_disk.specs.Moments.{EachNow, Always};
ghost use Rattle.gs_entries.specs.Order.{stage_of};
ghost use Rattle.gs_entries.specs.declared.entry.Entry.TheVariants as made;
ghost use Rattle.gs_entries.specs.declared.entry.Stage.TheVariants as stages;
ghost use Rattle.gs_store.specs.Ordered.{HasEnded};
ghost use Rattle.gs_store.specs.State.{IsDiskOf, with_entry};
ghost use Rattle.gs_store.specs.Versions.{AllStand};
ghost use Rattle.gs_back.specs.Finals.{finals_of, kept_of};
ghost use Rattle.gs_back.specs.Told.{MeetsNoFault};
ghost use Rattle.gs_site.specs.Site.{disk_of, link_of, mark_of};
ghost use Rattle.gs_life.specs.Origin.{Origin};
ghost use Rattle.gs_life.specs.Called.{StandsFor, Stood, IsBack, Closes};
ghost use Rattle.gs_life.specs.Stands.{Stands, StandsClosed};
ghost use Rattle.gs_finish.specs.Halting.{HaltCaused};
ghost use Rattle.gs_finish.specs.Finishing.{halt_of_back, LacksFinal, IsNotLost};
ghost use Rattle.gs_finish.specs.declared.halt.Halt.TheVariants as halt;

use crate::halt::Halt;
use gs_back::{BackErr, write_back};
use gs_disk::Disk;
use gs_entries::Stage;
use gs_site::{Link, Site};
use gs_store::Store;
use std::alloc::Global;

// What an error of bringing back stops with.
fn halt_of(e: BackErr) -> Halt
    ensures { result ≡ halt_of_back e }
{
    match e {
        BackErr::Lost {
            version,
            kept,
            found,
        } => Halt::Lost {
            version,
            kept,
            found,
        },
        BackErr::Fault => Halt::Disk,
        BackErr::Memory => Halt::NoMemory,
    }
}

// Brings the results to the user's files.
fn bring_back<D: Disk>(store: &Store, disk: &mut D) -> Result<(), Halt>
    requires gated { stage_of store.now.entries ≡ stages.Gated }
    requires disk_of_store { D.tells → IsDiskOf store.now (D.state disk.old) }
    ensures back { D.tells → (o : Origin) → StandsFor o store.now.entries (D.state disk.old)
        → Stood o store.now.entries (λ f. IsBack o f store.now.entries) (D.state disk.old)
        (D.state disk.new) result }
    ensures disk { D.tells → OnOk result (IsDiskOf store.now (D.state disk.new)) }
    ensures stood { D.tells → OnOk result (AllStand (D.state disk.old).folder
        (kept_of (finals_of store.now.entries))) }
    ensures refused { D.tells → IfErr result (LacksFinal (D.state disk.old).folder
        (finals_of store.now.entries)) }
    ensures cause { HaltCaused (D.state disk.old) (D.state disk.new) result }
    ensures complete { D.tells → MeetsNoFault (finals_of store.now.entries) (D.state disk.old)
        (D.state disk.new) → IsOk result }
{
    match write_back(store, disk) {
        Ok(()) => Ok(()),
        Err(failure) => Err(halt_of(failure)),
    }
}

// Records that the results are brought back.
fn close<D: Disk>(alloc: Global, store: &mut Store, disk: &mut D) -> Result<(), Halt>
    requires gated { stage_of store.old.entries ≡ stages.Gated }
    requires disk_of_store { D.tells → IsDiskOf store.old (D.state disk.old) }
    ensures store { OnOk result (store.new ≡ with_entry store.old made.Closed) }
    ensures closes { D.tells → (o : Origin) → StandsFor o store.old.entries (D.state disk.old)
        → IsBack o (D.state disk.old).folder store.old.entries
        → Closes o (D.state disk.old) (D.state disk.new) result }
    ensures disk { D.tells → OnOk result (IsDiskOf store.new (D.state disk.new)) }
    ensures outside { IfErr result IsNotLost }
    ensures cause { HaltCaused (D.state disk.old) (D.state disk.new) result }
{
    store.close(alloc, disk)?;
    Ok(())
}

// Brings the results to the user's files, and records it.
fn finish_gated<D: Disk>(alloc: Global, mut store: Store, disk: &mut D) -> Result<Store, Halt>
    requires gated { stage_of store.entries ≡ stages.Gated }
    requires disk_of_store { D.tells → IsDiskOf store (D.state disk.old) }
    ensures store { IfOk result (λ s. s ≡ with_entry store made.Closed) }
    ensures disk { D.tells → IfOk result (λ s. IsDiskOf s (D.state disk.new)) }
    ensures stands { D.tells → (o : Origin) → StandsFor o store.entries (D.state disk.old)
        → Always (Stands o) (D.state disk.old) (D.state disk.new) }
    ensures closed { D.tells → OnOk result ((o : Origin)
        → StandsFor o store.entries (D.state disk.old)
        → EachNow (StandsClosed o) (D.state disk.new)) }
    ensures stood { D.tells → OnOk result (AllStand (D.state disk.old).folder
        (kept_of (finals_of store.entries))) }
    ensures refused { D.tells → IfErr result (LacksFinal (D.state disk.old).folder
        (finals_of store.entries)) }
    ensures cause { HaltCaused (D.state disk.old) (D.state disk.new) result }
    ensures complete { D.tells → MeetsNoFault (finals_of store.entries) (D.state disk.old)
        (D.state disk.new) → IfErr result (λ e. e ≡ halt.NoMemory) }
{
    if let Err(failure) = bring_back(&store, disk) {
        return Err(failure);
    }
    if let Err(failure) = close(alloc, &mut store, disk) {
        return Err(failure);
    }
    Ok(store)
}

/// Finishes a run whose program has ended: brings its results to the user's files and records it.
/// A closed store is handed back as it is, and nothing is touched. It answers `Lost` exactly where
/// the file of a final's version isn't of the length that was kept, with the first, and `Disk` only
/// where the disk's count of faults rose.
pub fn finish<D: Disk, K: Link>(
    alloc: Global,
    store: Store,
    site: &mut Site<D, K>,
) -> Result<Store, Halt>
    requires ended { HasEnded (stage_of store.entries) }
    requires disk_of_store { D.tells → IsDiskOf store (D.state (disk_of site.old)) }
    ensures closes { stage_of store.entries ≡ stages.Gated
        → IfOk result (λ s. s ≡ with_entry store made.Closed) }
    ensures keeps { stage_of store.entries ≡ stages.Closed
        → (result ≡ Ok store) × (disk_of site.new ≡ disk_of site.old) }
    ensures stage { IfOk result (λ s. stage_of s.entries ≡ stages.Closed) }
    ensures link { link_of site.new ≡ link_of site.old }
    ensures mark { mark_of site.new ≡ mark_of site.old }
    ensures disk { D.tells → IfOk result (λ s. IsDiskOf s (D.state (disk_of site.new))) }
    ensures stands { D.tells → (o : Origin)
        → StandsFor o store.entries (D.state (disk_of site.old))
        → Always (Stands o) (D.state (disk_of site.old)) (D.state (disk_of site.new)) }
    ensures closed { D.tells → OnOk result ((o : Origin)
        → StandsFor o store.entries (D.state (disk_of site.old))
        → EachNow (StandsClosed o) (D.state (disk_of site.new))) }
    ensures stood { D.tells → stage_of store.entries ≡ stages.Gated
        → OnOk result (AllStand (D.state (disk_of site.old)).folder
        (kept_of (finals_of store.entries))) }
    ensures refused { D.tells → IfErr result (LacksFinal (D.state (disk_of site.old)).folder
        (finals_of store.entries)) }
    ensures cause { HaltCaused (D.state (disk_of site.old)) (D.state (disk_of site.new)) result }
    ensures complete { D.tells → MeetsNoFault (finals_of store.entries)
        (D.state (disk_of site.old)) (D.state (disk_of site.new))
        → IfErr result (λ e. e ≡ halt.NoMemory) }
{
    match store.stage() {
        Stage::Gated => finish_gated(alloc, store, site.disk()),
        Stage::Closed => Ok(store),
        Stage::Fresh | Stage::Running => unreachable!(),
    }
}
