// Waiting for the end of a job.
ghost use Rattle.std.specs.Prelude.{◌≡◌, ◌≤◌, ◌⊎◌, All, true, false, IfErr, IfOk, OnOk};
ghost use Rattle.gs_types.specs.Counts.{Rises};
ghost use Rattle.gs_entries.specs.Order.{stage_of, has_done};
ghost use Rattle.gs_entries.specs.declared.entry.Stage.TheVariants as stages;
ghost use Rattle.gs_store.specs.State.{IsDiskOf};
ghost use Rattle.gs_talk.specs.Seq as seq;
ghost use Rattle.gs_history.specs.Setup.{Setup};
ghost use Rattle.gs_site.specs.Link.{IsBusy};
ghost use Rattle.gs_site.specs.Site.{disk_of, link_of, mark_of};
ghost use Rattle.gs_keep.specs.Given.{IsWithin};
ghost use Rattle.gs_tables.specs.Outs.{outs_noted};
ghost use Rattle.gs_core.specs.declared.stage.Stage.TheVariants as stage;
ghost use Rattle.gs_core.specs.Stages.{IsAnswered};
ghost use Rattle.gs_finish.specs.Finishing.{IsNotLost};
ghost use Rattle.gs_finish.specs.Halting.{HaltCaused};
ghost use Rattle.gs_engine.specs.Joined.{Goes};
ghost use Rattle.gs_engine.specs.Sane.{Sane, IsRecorded, moment_of};
ghost use Rattle.gs_engine.specs.Steps.{whatever};
ghost use Rattle.gs_engine.specs.Waiting.{IsStillNow, HasGiven, AddsDone, SameMains, KeepsGiven, HasEndedAt, HasFinished, MarksDone};
ghost use Rattle.gs_engine.specs.Users.{UsersStay};

use gs_core::Core;
use gs_disk::Disk;
use gs_finish::Halt;
use gs_keep::keep_outputs;
use gs_site::{Event, Link, Site};
use gs_store::Store;
use gs_types::{OutNote, Sequence, TASK_LIMIT, Value};
use std::alloc::Global;

// Keeps what a task gave: its files, and the entry that it is done. A task that the core doesn't
// know finds no memory.
fn keep<D: Disk>(
    alloc: Global,
    core: &Core,
    store: &mut Store,
    disk: &mut D,
    n: u32,
    outs: &[Value],
) -> Result<Sequence<OutNote>, Halt>
    requires running { stage_of store.old.entries ≡ stages.Running }
    requires undone { has_done store.old.entries n ≡ false }
    requires within { All IsWithin outs.now }
    requires disk_of_store { D.tells → IsDiskOf store.old (D.state disk.old) }
    ensures adds { IfOk result (λ notes. AddsDone n notes store.old store.new) }
    ensures notes { (s : Setup) (t : seq.Task) → HasGiven core.now s n t outs.now
        → IfOk result (λ notes. notes ≡ outs_noted 1 t.params outs.now) }
    ensures disk { D.tells → OnOk result (IsDiskOf store.new (D.state disk.new)) }
    ensures mains { D.tells → SameMains (D.state disk.old).folder (D.state disk.new).folder }
    ensures keeps { D.tells → KeepsGiven core.now store.old.entries store.new.entries n outs.now
        (D.state disk.old) (D.state disk.new) result }
    ensures found { IfErr result IsNotLost }
    ensures users { D.tells → UsersStay (D.state disk.old) (D.state disk.new) }
    ensures cause { HaltCaused (D.state disk.old) (D.state disk.new) result }
{
    let Some(op) = core.operation(n) else {
        return Err(Halt::NoMemory);
    };
    if n == 0 || n as usize > TASK_LIMIT {
        return Err(Halt::NoMemory);
    }
    match keep_outputs(alloc, store, disk, core.idl(), n, op, outs) {
        Ok(notes) => Ok(notes),
        Err(failure) => Err(Halt::from(failure)),
    }
}

// A task has finished: what it gave is kept, and then the core is told.
fn finished_one<D: Disk, K: Link>(
    alloc: Global,
    core: &mut Core,
    store: &mut Store,
    site: &mut Site<D, K>,
    n: u32,
    outs: &[Value],
) -> Result<(), Halt>
    requires settled { core.old.stage ≡ stage.Settled }
    requires within { All IsWithin outs.now }
    requires ended { HasEndedAt n D.tells D.state K.jobs (moment_of core.old store.old site.old) }
    ensures answered { OnOk result (IsAnswered core.new.stage) }
    ensures sane { OnOk result
        (Sane D.tells D.state K.jobs (moment_of core.new store.new site.new)) }
    ensures done { OnOk result (MarksDone n store.old.entries store.new.entries) }
    ensures link { link_of site.new ≡ link_of site.old }
    ensures mark { mark_of site.new ≡ mark_of site.old }
    ensures refused { IfErr result IsNotLost }
    ensures users { D.tells → UsersStay (D.state (disk_of site.old)) (D.state (disk_of site.new)) }
    ensures cause { HaltCaused (D.state (disk_of site.old)) (D.state (disk_of site.new)) result }
    ensures goes { D.tells → (link : K)
        → HasFinished K.tells K.jobs (λ l. K.L.meaning (K.law l)) n outs.now link (link_of site.old)
        → Goes D.state K.tells K.jobs (λ l. K.L.meaning (K.law l))
        (record { core = core.old; store = store.old; disk = disk_of site.old; link = link })
        (moment_of core.new store.new site.new) IsStillNow whatever result }
{
    match keep(alloc, core, store, site.disk(), n, outs) {
        Ok(notes) => {
            core.finished(n, notes);
            Ok(())
        }
        Err(halt) => Err(halt),
    }
}

/// Waits for the end of a job in flight. What its task gave is kept, and recorded, before the core
/// is told of it. Whether it failed is told in `failed`.
pub(crate) fn wait_one<D: Disk, K: Link>(
    alloc: Global,
    core: &mut Core,
    store: &mut Store,
    site: &mut Site<D, K>,
    failed: &mut bool,
) -> Result<(), Halt>
    requires settled { core.old.stage ≡ stage.Settled }
    requires busy { IsBusy (K.jobs (link_of site.old)) }
    requires sane { Sane D.tells D.state K.jobs (moment_of core.old store.old site.old) }
    requires recorded { IsRecorded K.tells store.old.entries (link_of site.old) (mark_of site.old) }
    ensures answered { OnOk result (IsAnswered core.new.stage) }
    ensures sane { OnOk result
        (Sane D.tells D.state K.jobs (moment_of core.new store.new site.new)) }
    ensures recorded { OnOk result
        (IsRecorded K.tells store.new.entries (link_of site.new) (mark_of site.new)) }
    ensures mark { mark_of site.new ≡ mark_of site.old }
    ensures refused { IfErr result IsNotLost }
    ensures users { D.tells → UsersStay (D.state (disk_of site.old)) (D.state (disk_of site.new)) }
    ensures cause { HaltCaused (D.state (disk_of site.old)) (D.state (disk_of site.new)) result }
    ensures rise { K.faults (link_of site.old) ≤ K.faults (link_of site.new) }
    ensures failed { failed.new ≡ true → (failed.old ≡ true)
        ⊎ Rises (K.faults (link_of site.old)) (K.faults (link_of site.new)) }
    ensures goes { D.tells → Goes D.state K.tells K.jobs (λ l. K.L.meaning (K.law l))
        (moment_of core.old store.old site.old) (moment_of core.new store.new site.new)
        IsStillNow whatever result }
{
    match site.next(alloc)? {
        Event::Finished { n, outs } => finished_one(alloc, core, store, site, n, outs.items()),
        Event::Failed { n } => {
            *failed = true;
            core.failed(n);
            Ok(())
        }
    }
}
