// Starting what is due.
ghost use Rattle.std.specs.Prelude.{◌≡◌, ◌≤◌, ◌⊎◌, true, false, IfErr, IfOk, OnOk, Some};
ghost use Rattle.gs_types.specs.Counts.{Rises};
ghost use Rattle.gs_entries.specs.Order.{has_done};
ghost use Rattle.gs_queue.specs.Queue.{MayStart};
ghost use Rattle.gs_site.specs.Site.{disk_of, link_of, mark_of};
ghost use Rattle.gs_core.specs.declared.stage.Stage.TheVariants as stage;
ghost use Rattle.gs_finish.specs.Halting.{HaltCaused};
ghost use Rattle.gs_finish.specs.declared.halt.Halt.TheVariants as halt;
ghost use Rattle.gs_engine.specs.Joined.{Goes};
ghost use Rattle.gs_engine.specs.Reading.{LacksLength};
ghost use Rattle.gs_engine.specs.Sane.{Sane, IsRecorded, moment_of};
ghost use Rattle.gs_engine.specs.Starting.{IsJobFor, HasStart, IsDueNow, HasCosts, IsStill};
ghost use Rattle.gs_engine.specs.Steps.{whatever};
ghost use Rattle.gs_engine.specs.Users.{UsersStay};

use crate::reading::inputs;
use gs_core::{Core, Start};
use gs_disk::Disk;
use gs_finish::Halt;
use gs_policy::{CostLaw, Policy, Prices};
use gs_site::{Link, Site, StartErr};
use gs_store::Store;
use gs_types::{Arg, Blob, Job, NoMemory, Sequence};
use std::alloc::Global;

// The job of a start, which is of a listed worker and a known operation: else it finds no memory.
fn job_for(alloc: Global, core: &Core, start: &Start, args: Sequence<Arg>) -> Result<Job, NoMemory>
    ensures { IfOk result (IsJobFor core.now start.now args) }
{
    let workers = core.workers();
    let idl = core.idl();
    if start.worker >= workers.count() || start.op >= idl.op_count() {
        return Err(NoMemory);
    }
    Ok(Job {
        n: start.n,
        worker: start.worker,
        program: Blob::copy(alloc, workers.program(start.worker))?,
        op: Blob::copy(alloc, idl.op_name(start.op))?,
        args,
    })
}

// Starts a job. One that the link refuses has failed, which is told in `failed`.
fn begin_job<D: Disk, K: Link>(
    alloc: Global,
    core: &mut Core,
    store: &Store,
    site: &mut Site<D, K>,
    job: &Job,
    failed: &mut bool,
) -> Result<(), Halt>
    requires settled { core.old.stage ≡ stage.Settled }
    requires may { MayStart job.now.n job.now.worker core.old.queue }
    requires undone { has_done store.now.entries job.now.n ≡ false }
    requires sane { Sane D.tells D.state K.jobs (moment_of core.old store.now site.old) }
    requires recorded { IsRecorded K.tells store.now.entries (link_of site.old)
        (mark_of site.old) }
    ensures settled { OnOk result (core.new.stage ≡ stage.Settled) }
    ensures sane { OnOk result
        (Sane D.tells D.state K.jobs (moment_of core.new store.now site.new)) }
    ensures disk { disk_of site.new ≡ disk_of site.old }
    ensures recorded { OnOk result (IsRecorded K.tells store.now.entries (link_of site.new)
        (mark_of site.new)) }
    ensures mark { mark_of site.new ≡ mark_of site.old }
    ensures memory { IfErr result (λ e. e ≡ halt.NoMemory) }
    ensures rise { K.faults (link_of site.old) ≤ K.faults (link_of site.new) }
    ensures failed { failed.new ≡ true → (failed.old ≡ true)
        ⊎ Rises (K.faults (link_of site.old)) (K.faults (link_of site.new)) }
    ensures goes { D.tells → Goes D.state K.tells K.jobs (λ l. K.L.meaning (K.law l))
        (moment_of core.old store.now site.old) (moment_of core.new store.now site.new)
        (HasStart job.now) whatever result }
{
    match site.start(alloc, job) {
        Ok(()) => {
            core.started(job.n, job.worker);
            Ok(())
        }
        Err(StartErr::Failed) => {
            *failed = true;
            core.started(job.n, job.worker);
            core.failed(job.n);
            Ok(())
        }
        Err(StartErr::NoMemory) => Err(Halt::NoMemory),
    }
}

// Starts what is due: reads what the task gets, and hands it to its worker. Whether one was refused
// is told in `failed`.
fn start_one<D: Disk, K: Link>(
    alloc: Global,
    core: &mut Core,
    store: &Store,
    site: &mut Site<D, K>,
    start: &Start,
    failed: &mut bool,
) -> Result<(), Halt>
    requires settled { core.old.stage ≡ stage.Settled }
    requires may { MayStart start.now.n start.now.worker core.old.queue }
    requires sane { Sane D.tells D.state K.jobs (moment_of core.old store.now site.old) }
    requires recorded { IsRecorded K.tells store.now.entries (link_of site.old)
        (mark_of site.old) }
    ensures settled { OnOk result (core.new.stage ≡ stage.Settled) }
    ensures sane { OnOk result
        (Sane D.tells D.state K.jobs (moment_of core.new store.now site.new)) }
    ensures recorded { OnOk result (IsRecorded K.tells store.now.entries (link_of site.new)
        (mark_of site.new)) }
    ensures mark { mark_of site.new ≡ mark_of site.old }
    ensures refused { D.tells → IfErr result (LacksLength (D.state (disk_of site.new)).folder) }
    ensures users { D.tells → UsersStay (D.state (disk_of site.old)) (D.state (disk_of site.new)) }
    ensures cause { HaltCaused (D.state (disk_of site.old)) (D.state (disk_of site.new)) result }
    ensures rise { K.faults (link_of site.old) ≤ K.faults (link_of site.new) }
    ensures failed { failed.new ≡ true → (failed.old ≡ true)
        ⊎ Rises (K.faults (link_of site.old)) (K.faults (link_of site.new)) }
    ensures goes { D.tells → Goes D.state K.tells K.jobs (λ l. K.L.meaning (K.law l))
        (moment_of core.old store.now site.old) (moment_of core.new store.now site.new)
        (IsDueNow start.now) whatever result }
{
    if store.has_done(start.n) {
        return Err(Halt::NoMemory);
    }
    let args = match inputs(alloc, store, site.disk(), start.args.items()) {
        Ok(args) => args,
        Err(halt) => return Err(halt),
    };
    let job = match job_for(alloc, core, start, args) {
        Ok(job) => job,
        Err(_) => return Err(Halt::NoMemory),
    };
    begin_job(alloc, core, store, site, &job, failed)
}

/// Starts all that is due, one after the other: until nothing is, or something is lost. Whether a
/// start was refused is told in `failed`.
pub(crate) fn start_all<D: Disk, K: Link, F: Prices, C: CostLaw>(
    alloc: Global,
    core: &mut Core,
    store: &Store,
    site: &mut Site<D, K>,
    p: &Policy<F, C>,
    failed: &mut bool,
) -> Result<(), Halt>
    requires settled { core.old.stage ≡ stage.Settled }
    requires sane { Sane D.tells D.state K.jobs (moment_of core.old store.now site.old) }
    requires recorded { IsRecorded K.tells store.now.entries (link_of site.old)
        (mark_of site.old) }
    ensures settled { OnOk result (core.new.stage ≡ stage.Settled) }
    ensures sane { OnOk result
        (Sane D.tells D.state K.jobs (moment_of core.new store.now site.new)) }
    ensures recorded { OnOk result (IsRecorded K.tells store.now.entries (link_of site.new)
        (mark_of site.new)) }
    ensures mark { mark_of site.new ≡ mark_of site.old }
    ensures refused { D.tells → IfErr result (LacksLength (D.state (disk_of site.new)).folder) }
    ensures users { D.tells → UsersStay (D.state (disk_of site.old)) (D.state (disk_of site.new)) }
    ensures cause { HaltCaused (D.state (disk_of site.old)) (D.state (disk_of site.new)) result }
    ensures rise { K.faults (link_of site.old) ≤ K.faults (link_of site.new) }
    ensures failed { failed.new ≡ true → (failed.old ≡ true)
        ⊎ Rises (K.faults (link_of site.old)) (K.faults (link_of site.new)) }
    ensures goes { D.tells → Goes D.state K.tells K.jobs (λ l. K.L.meaning (K.law l))
        (moment_of core.old store.now site.old) (moment_of core.new store.now site.new)
        (HasCosts (C.cost p.now.law.value)) IsStill result }
{
    for _i in 0..u64::MAX {
        let start = match core.next_start(p) {
            Err(_) => return Err(Halt::NoMemory),
            Ok(None) => return Ok(()),
            Ok(Some(start)) => start,
        };
        let Err(halt) = start_one(alloc, core, store, site, &start, failed) else {
            continue;
        };
        return Err(halt);
    }
    Err(Halt::NoMemory)
}
