// The beginning of a call: the record is begun, and a core is made of what is recorded.
ghost use Rattle.std.specs.Prelude.{◌≡◌, ◌++◌, ℕ, true, OnOk, IfOk, IfErr, None};
ghost use Rattle.gs_types.specs.History.{History};
ghost use Rattle.gs_disk.specs.Moments.{Always};
ghost use Rattle.gs_entries.specs.Entries.{entry};
ghost use Rattle.gs_entries.specs.Order.{stage_of};
ghost use Rattle.gs_entries.specs.declared.entry.Entry.TheVariants as made;
ghost use Rattle.gs_entries.specs.declared.entry.Stage.TheVariants as stages;
ghost use Rattle.gs_store.specs.Ordered.{HasEnded};
ghost use Rattle.gs_store.specs.State.{IsDiskOf};
ghost use Rattle.gs_broker.specs.Broker.{job_in};
ghost use Rattle.gs_main.specs.Shown.{talking};
ghost use Rattle.gs_main.specs.Talking.{IsFree};
ghost use Rattle.gs_history.specs.Notes.{AreNoted};
ghost use Rattle.gs_history.specs.Setup.{Setup};
ghost use Rattle.gs_queue.specs.Queue.{job_of};
ghost use Rattle.gs_core.specs.Beginning.{IsGiven};
ghost use Rattle.gs_core.specs.Core as cores;
ghost use Rattle.gs_core.specs.declared.stage.Stage.TheVariants as stage;
ghost use Rattle.gs_site.specs.Link.{IsIdle};
ghost use Rattle.gs_site.specs.Site.{disk_of, link_of, mark_of};
ghost use Rattle.gs_life.specs.Called.{StandsFor, Stood};
ghost use Rattle.gs_life.specs.Origin.{Origin};
ghost use Rattle.gs_life.specs.Stands.{IsRunning, Stands};
ghost use Rattle.gs_finish.specs.Finishing.{IsNotLost};
ghost use Rattle.gs_finish.specs.Halting.{HaltCaused};
ghost use Rattle.gs_engine.specs.Beginning.{notes_by, notes_in, parts_of, Call, Enters, Begun};
ghost use Rattle.gs_engine.specs.Sane.{Sane, IsRecorded, moment_of};
ghost use Rattle.gs_engine.specs.Users.{UsersStay};

use gs_broker::Broker;
use gs_core::{Core, DoneNote};
use gs_disk::Disk;
use gs_finish::Halt;
use gs_keep::copy_notes;
use gs_main::Main;
use gs_site::{Link, Site};
use gs_store::{Entry, Stage, Store, Texts};
use gs_types::NoMemory;
use std::alloc::Global;

// Puts what an entry says of a task that is done behind others.
fn push_note(
    alloc: Global,
    notes: &mut Vec<DoneNote>,
    index: u32,
    entry: &Entry,
) -> Result<(), NoMemory>
    ensures { OnOk result (notes.new.items ≡ notes.old.items ++ notes_by index entry.now) }
{
    match entry {
        Entry::Done { n, op, outs } => {
            let outs = copy_notes(alloc, outs.items())?;
            notes.push(DoneNote {
                index,
                n: *n,
                op: *op,
                outs,
            })?;
            Ok(())
        }
        Entry::Header { .. } | Entry::Gate { .. } | Entry::Closed => Ok(()),
    }
}

// What is recorded of tasks that are done.
fn done_notes(alloc: Global, store: &Store) -> Result<Vec<DoneNote>, NoMemory>
    ensures { IfOk result (λ notes. notes.items ≡ notes_in 0 store.now.entries) }
{
    let mut notes = Vec::new(alloc);
    for index in 0..u32::MAX {
        match store.entry(index) {
            None => return Ok(notes),
            Some(entry) => push_note(alloc, &mut notes, index, entry)?,
        }
    }
    Err(NoMemory)
}

// A core of a program that has asked nothing, with what is recorded.
fn core_of(
    alloc: Global,
    store: &Store,
    main: Main,
    broker: Broker,
    window: u32,
) -> Result<Core, NoMemory>
    requires unused { (n : ℕ) → job_in broker n ≡ None }
    requires free { IsFree (talking main).next }
    ensures main { IfOk result (λ c. (c.main ≡ main) × (c.asked ≡ None)) }
    ensures stage { IfOk result (λ c. c.stage ≡ stage.Open) }
    ensures jobs { IfOk result (λ c. (n : ℕ) → job_of c.queue n ≡ None) }
    ensures stands { (s : Setup) (h : History)
        → IsGiven (talking main) broker window (notes_in 0 store.now.entries) s
        → AreNoted s s.notes h → IfOk result (λ c. cores.Stands c s 0 h) }
{
    let notes = done_notes(alloc, store)?;
    Core::new(alloc, main, notes, broker, window)
}

// Begins a record in which nothing is recorded. One of a run that goes on stays as it is.
fn begin_store<D: Disk>(
    alloc: Global,
    texts: &Texts,
    store: &mut Store,
    disk: &mut D,
) -> Result<(), Halt>
    requires goes_on { ¬ HasEnded (stage_of store.old.entries) }
    requires fits { entry.fits (made.Header texts.now) ≡ true }
    requires disk_of_store { D.tells → IsDiskOf store.old (D.state disk.old) }
    ensures running { OnOk result (stage_of store.new.entries ≡ stages.Running) }
    ensures notes { OnOk result (notes_in 0 store.new.entries ≡ notes_in 0 store.old.entries) }
    ensures disk { D.tells → OnOk result (IsDiskOf store.new (D.state disk.new)) }
    ensures outside { IfErr result IsNotLost }
    ensures users { D.tells → UsersStay (D.state disk.old) (D.state disk.new) }
    ensures cause { HaltCaused (D.state disk.old) (D.state disk.new) result }
    ensures stood { D.tells → (o : Origin) → o.texts ≡ texts.now
        → StandsFor o store.old.entries (D.state disk.old)
        → Stood o store.new.entries (λ f. IsRunning o f store.new.entries)
        (D.state disk.old) (D.state disk.new) result }
{
    match store.stage() {
        Stage::Fresh => match store.begin(alloc, disk, texts) {
            Ok(()) => Ok(()),
            Err(failure) => Err(Halt::from(failure)),
        },
        Stage::Running => Ok(()),
        Stage::Gated | Stage::Closed => unreachable!(),
    }
}

/// Begins a call over a record that is fresh or of a run that goes on, with no job in flight: the
/// record has its texts from then on, and the core has asked nothing. The only errors are a fault
/// of the disk and want of memory.
pub(crate) fn begin<D: Disk, K: Link>(
    alloc: Global,
    texts: &Texts,
    main: Main,
    broker: Broker,
    window: u32,
    store: &mut Store,
    site: &mut Site<D, K>,
) -> Result<Core, Halt>
    requires goes_on { ¬ HasEnded (stage_of store.old.entries) }
    requires fits { entry.fits (made.Header texts.now) ≡ true }
    requires disk_of_store { D.tells → IsDiskOf store.old (D.state (disk_of site.old)) }
    requires idle { IsIdle (K.jobs (link_of site.old)) }
    requires unused { (n : ℕ) → job_in broker n ≡ None }
    requires free { IsFree (talking main).next }
    ensures stage { IfOk result (λ core. core.stage ≡ stage.Open) }
    ensures sane { IfOk result
        (λ core. Sane D.tells D.state K.jobs (moment_of core store.new site.new)) }
    ensures link { link_of site.new ≡ link_of site.old }
    ensures recorded { IsRecorded K.tells store.new.entries (link_of site.new) (mark_of site.new) }
    ensures outside { IfErr result IsNotLost }
    ensures users { D.tells → UsersStay (D.state (disk_of site.old)) (D.state (disk_of site.new)) }
    ensures cause { HaltCaused (D.state (disk_of site.old)) (D.state (disk_of site.new)) result }
    ensures stands { D.tells → (o : Origin) → o.texts ≡ texts.now
        → StandsFor o store.old.entries (D.state (disk_of site.old))
        → Always (Stands o) (D.state (disk_of site.old)) (D.state (disk_of site.new)) }
    ensures begun { D.tells → IfOk result (λ core. (call : Call)
        → Enters D.state K.tells (λ l. K.L.meaning (K.law l))
        (parts_of texts.now (talking main) broker window) store.old.entries (disk_of site.old)
        (link_of site.old) call
        → Begun D.state K.tells K.jobs (λ l. K.L.meaning (K.law l)) call
        (moment_of core store.new site.new)) }
{
    site.begin_run();
    if let Err(halt) = begin_store(alloc, texts, store, site.disk()) {
        return Err(halt);
    }
    match core_of(alloc, store, main, broker, window) {
        Ok(core) => Ok(core),
        Err(_) => Err(Halt::NoMemory),
    }
}
