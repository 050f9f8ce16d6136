// The end of a run: what the program did and left is recorded, and its results are brought back.
ghost use Rattle.std.specs.Prelude.{◌≡◌, ℕ, true, OnOk, IfOk, IfErr};
ghost use Rattle.gs_types.specs.History.{History};
ghost use Rattle.gs_disk.specs.Folder.{Same};
ghost use Rattle.gs_disk.specs.Moments.{Passes};
ghost use Rattle.gs_entries.specs.Entries.{entry};
ghost use Rattle.gs_entries.specs.Order.{stage_of};
ghost use Rattle.gs_entries.specs.declared.entry.Entry.TheVariants as made;
ghost use Rattle.gs_entries.specs.declared.entry.Stage.TheVariants as stages;
ghost use Rattle.gs_store.specs.State.{IsDiskOf, with_entry};
ghost use Rattle.gs_store.specs.Versions.{IsStanding, AllStand, finals_kept};
ghost use Rattle.gs_history.specs.Setup.{Setup};
ghost use Rattle.gs_core.specs.Core as cores;
ghost use Rattle.gs_core.specs.Core.{IsVerdict};
ghost use Rattle.gs_core.specs.Gate.{IsGate};
ghost use Rattle.gs_core.specs.declared.stage.Stage.TheVariants as stage;
ghost use Rattle.gs_core.specs.declared.verdict.Verdict.TheVariants as verdict;
ghost use Rattle.gs_site.specs.Site.{disk_of, link_of, mark_of};
ghost use Rattle.gs_life.specs.Called.{StandsFor, Stood, Closes};
ghost use Rattle.gs_life.specs.Origin.{Origin};
ghost use Rattle.gs_life.specs.Stands.{IsGateOf, IsGated};
ghost use Rattle.gs_finish.specs.Finishing.{IsNotLost};
ghost use Rattle.gs_finish.specs.Halting.{HaltCaused, Lacks};
ghost use Rattle.gs_engine.specs.Reading.{LacksLength};
ghost use Rattle.gs_engine.specs.Sane.{moment_of};
ghost use Rattle.gs_engine.specs.Sealing.{LacksKept, WhereEnded};

use gs_core::Core;
use gs_disk::Disk;
use gs_entries::is_gate_entry;
use gs_finish::{Halt, finish};
use gs_site::{Link, Site};
use gs_store::{GateNote, Store, copy_version, version_file};
use gs_types::{FinalNote, NoMemory};
use std::alloc::Global;

// What the program did and left, where it can be recorded: else it finds no memory.
fn gate_of(alloc: Global, core: &Core) -> Result<GateNote, NoMemory>
    requires settled { core.now.stage ≡ stage.Settled }
    ensures fits { IfOk result (λ g. entry.fits (made.Gate g) ≡ true) }
    ensures says { (s : Setup) (k : ℕ) (h : History) → cores.Stands core.now s k h
        → IsVerdict s k h verdict.Ended → IfOk result (IsGate s k) }
{
    let note = core.gate_note()?;
    if !is_gate_entry(alloc, &note)? {
        return Err(NoMemory);
    }
    Ok(note)
}

// The file of a final's version stands with its length.
fn check_final<D: Disk>(disk: &mut D, last: &FinalNote) -> Result<(), Halt>
    ensures stands { D.tells
        → OnOk result (IsStanding (D.state disk.old).folder last.now.version last.now.len) }
    ensures refused { D.tells
        → IfErr result (Lacks (D.state disk.old).folder last.now.version (Some last.now.len)) }
    ensures same { D.tells → (D.state disk.new).folder ≡ (D.state disk.old).folder }
    ensures images { D.tells → Passes Same (D.state disk.old) (D.state disk.new) }
    ensures cause { HaltCaused (D.state disk.old) (D.state disk.new) result }
{
    let found = disk.len(&version_file(&last.version))?;
    if found == Some(last.len) {
        return Ok(());
    }
    Err(Halt::Lost {
        version: copy_version(&last.version),
        kept: last.len,
        found,
    })
}

// The files of all finals' versions stand with their lengths: the first that doesn't is named.
fn check_finals<D: Disk>(disk: &mut D, finals: &[FinalNote]) -> Result<(), Halt>
    ensures stand { D.tells
        → OnOk result (AllStand (D.state disk.old).folder (finals_kept finals.now)) }
    ensures refused { D.tells
        → IfErr result (LacksKept (D.state disk.old).folder (finals_kept finals.now)) }
    ensures same { D.tells → (D.state disk.new).folder ≡ (D.state disk.old).folder }
    ensures images { D.tells → Passes Same (D.state disk.old) (D.state disk.new) }
    ensures cause { HaltCaused (D.state disk.old) (D.state disk.new) result }
{
    for last in finals {
        if let Err(halt) = check_final(disk, last) {
            return Err(halt);
        }
    }
    Ok(())
}

// Records what the program did and left.
fn gate<D: Disk>(alloc: Global, store: &mut Store, disk: &mut D, note: GateNote) -> Result<(), Halt>
    requires running { stage_of store.old.entries ≡ stages.Running }
    requires fits { entry.fits (made.Gate note) ≡ true }
    requires stand { D.tells → AllStand (D.state disk.old).folder (finals_kept note.finals) }
    requires disk_of_store { D.tells → IsDiskOf store.old (D.state disk.old) }
    ensures store { OnOk result (store.new ≡ with_entry store.old (made.Gate note)) }
    ensures disk { D.tells → OnOk result (IsDiskOf store.new (D.state disk.new)) }
    ensures stand { D.tells → AllStand (D.state disk.new).folder (finals_kept note.finals) }
    ensures outside { IfErr result IsNotLost }
    ensures cause { HaltCaused (D.state disk.old) (D.state disk.new) result }
    ensures gates { D.tells → (o : Origin) → StandsFor o store.old.entries (D.state disk.old)
        → IsGateOf o (D.state disk.old).folder note
        → Stood o (with_entry store.old (made.Gate note)).entries
        (λ f. IsGated o f (with_entry store.old (made.Gate note)).entries) (D.state disk.old)
        (D.state disk.new) result }
{
    match store.gate(alloc, disk, note) {
        Ok(()) => Ok(()),
        Err(failure) => Err(Halt::from(failure)),
    }
}

// Records what the program did and left, where the files of its finals stand: the first that
// doesn't is named.
fn gate_checked<D: Disk>(
    alloc: Global,
    store: &mut Store,
    disk: &mut D,
    note: GateNote,
) -> Result<(), Halt>
    requires running { stage_of store.old.entries ≡ stages.Running }
    requires fits { entry.fits (made.Gate note) ≡ true }
    requires disk_of_store { D.tells → IsDiskOf store.old (D.state disk.old) }
    ensures store { OnOk result (store.new ≡ with_entry store.old (made.Gate note)) }
    ensures disk { D.tells → OnOk result (IsDiskOf store.new (D.state disk.new)) }
    ensures stand { D.tells
        → OnOk result (AllStand (D.state disk.new).folder (finals_kept note.finals)) }
    ensures lacks { D.tells
        → IfErr result (LacksKept (D.state disk.old).folder (finals_kept note.finals)) }
    ensures refused { D.tells → IfErr result (LacksLength (D.state disk.new).folder) }
    ensures cause { HaltCaused (D.state disk.old) (D.state disk.new) result }
    ensures gates { D.tells → (o : Origin) → StandsFor o store.old.entries (D.state disk.old)
        → IsGateOf o (D.state disk.old).folder note
        → Stood o (with_entry store.old (made.Gate note)).entries
        (λ f. IsGated o f (with_entry store.old (made.Gate note)).entries) (D.state disk.old)
        (D.state disk.new) result }
{
    if let Err(halt) = check_finals(disk, note.finals.items()) {
        return Err(halt);
    }
    match gate(alloc, store, disk, note) {
        Ok(()) => Ok(()),
        Err(halt) => Err(halt),
    }
}

/// Ends a run whose program has ended with each task done: records what it did and left, brings its
/// results to the user's files, and records that. Where the parts are joined, it never answers
/// `Lost`.
pub(crate) fn seal<D: Disk, K: Link>(
    alloc: Global,
    core: &Core,
    mut store: Store,
    site: &mut Site<D, K>,
) -> Result<Store, Halt>
    requires settled { core.now.stage ≡ stage.Settled }
    requires running { stage_of store.entries ≡ stages.Running }
    requires disk_of_store { D.tells → IsDiskOf store (D.state (disk_of site.old)) }
    ensures stage { IfOk result (λ s. stage_of s.entries ≡ stages.Closed) }
    ensures disk { D.tells → IfOk result (λ s. IsDiskOf s (D.state (disk_of site.new))) }
    ensures link { link_of site.new ≡ link_of site.old }
    ensures mark { mark_of site.new ≡ mark_of site.old }
    ensures refused { D.tells → IfErr result (LacksLength (D.state (disk_of site.new)).folder) }
    ensures cause { HaltCaused (D.state (disk_of site.old)) (D.state (disk_of site.new)) result }
    ensures closes { D.tells → WhereEnded D.state K.tells K.jobs (λ l. K.L.meaning (K.law l))
        (moment_of core.now store site.old)
        (λ o. Closes o (D.state (disk_of site.old)) (D.state (disk_of site.new)) result) }
    ensures never { D.tells → WhereEnded D.state K.tells K.jobs (λ l. K.L.meaning (K.law l))
        (moment_of core.now store site.old) (λ o. IfErr result IsNotLost) }
{
    let note = match gate_of(alloc, core) {
        Ok(note) => note,
        Err(_) => return Err(Halt::NoMemory),
    };
    if let Err(halt) = gate_checked(alloc, &mut store, site.disk(), note) {
        return Err(halt);
    }
    finish(alloc, store, site)
}
