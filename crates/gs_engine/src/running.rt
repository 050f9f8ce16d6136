// The run.
ghost use Rattle.std.specs.Prelude.{◌≡◌, ◌≢◌, ◌≤◌, ◌⊎◌, ◌++◌, true, false, ℕ, IfErr, IfOk, OnOk, None, if◌then◌else◌};
ghost use Rattle.gs_types.specs.Counts.{Rises, Caused};
ghost use Rattle.gs_types.specs.History.{History};
ghost use Rattle.gs_entries.specs.Entries.{entry};
ghost use Rattle.gs_entries.specs.Order.{stage_of};
ghost use Rattle.gs_entries.specs.declared.entry.Entry.TheVariants as made;
ghost use Rattle.gs_entries.specs.declared.entry.Stage.TheVariants as stages;
ghost use Rattle.gs_store.specs.Ordered.{HasEnded};
ghost use Rattle.gs_store.specs.State.{IsDiskOf};
ghost use Rattle.gs_broker.specs.Broker.{job_in};
ghost use Rattle.gs_main.specs.Shown.{talking};
ghost use Rattle.gs_main.specs.Talking.{IsFree};
ghost use Rattle.gs_queue.specs.Queue.{job_of};
ghost use Rattle.gs_core.specs.Stages.{IsAnswered};
ghost use Rattle.gs_core.specs.declared.stage.Stage.TheVariants as stage;
ghost use Rattle.gs_site.specs.Link.{IsIdle};
ghost use Rattle.gs_site.specs.Site.{disk_of, link_of, mark_of};
ghost use Rattle.gs_finish.specs.Halting.{HaltCaused};
ghost use Rattle.gs_engine.specs.Beginning.{parts_of, Call, Enters};
ghost use Rattle.gs_core.specs.Core.{IsVerdict};
ghost use Rattle.gs_engine.specs.Joined.{Course, Joined, Goes};
ghost use Rattle.gs_engine.specs.Reading.{LacksLength};
ghost use Rattle.gs_engine.specs.Running.{HasRound, IsMisfitVerdict, IsCutShort, IsGivenUp, IsDiskFault, IsFruitless, RunCaused, LacksLengthIn, Concludes, Went, Ran, fault_of_halt};
ghost use Rattle.gs_engine.specs.declared.running.RunFault.TheVariants as faults;
ghost use Rattle.gs_engine.specs.Sane.{Sane, IsRecorded, moment_of};
ghost use Rattle.gs_engine.specs.Starting.{HasCosts};
ghost use Rattle.gs_engine.specs.Users.{UsersStay};

use crate::begin::begin;
use crate::seal::seal;
use crate::serve::settle;
use crate::start::start_all;
use crate::wait::wait_one;
use gs_broker::Broker;
use gs_core::{Core, Verdict};
use gs_disk::Disk;
use gs_finish::Halt;
use gs_main::Main;
use gs_policy::{CostLaw, Policy, Prices};
use gs_site::{Link, Site};
use gs_store::{Store, Texts};
use gs_types::{FaultKind, Version};
use std::alloc::Global;

/// Why a run hasn't brought its results to the user's files: the program met a fault at a line; its
/// steps ran out; a task failed too often, or each worker that takes it did; the entry with this
/// index is of a task of another form; a version's file is absent or of another length, in bytes,
/// than was kept; a fault of the disk; or want of memory.
#[derive(Debug, Drop)]
pub enum RunFault {
    Program {
        line: u32,
        kind: FaultKind,
    },
    FuelOut,
    TaskLost {
        n: u32,
    },
    WorkersLost {
        n: u32,
    },
    BadRecord {
        index: u32,
    },
    Lost {
        version: Version,
        kept: u64,
        found: Option<u64>,
    },
    Disk,
    NoMemory,
}

/// The same, of an early stop.
fn stopped(halt: Halt) -> RunFault
    ensures { result ≡ fault_of_halt halt }
{
    match halt {
        Halt::Disk => RunFault::Disk,
        Halt::NoMemory => RunFault::NoMemory,
        Halt::Lost {
            version,
            kept,
            found,
        } => RunFault::Lost {
            version,
            kept,
            found,
        },
    }
}

// One round: what the core needs is read and kept, and what is due is started.
fn round<D: Disk, K: Link, F: Prices, C: CostLaw>(
    alloc: Global,
    core: &mut Core,
    store: &mut Store,
    site: &mut Site<D, K>,
    p: &Policy<F, C>,
    failed: &mut bool,
) -> Result<Verdict, Halt>
    requires answered { IsAnswered core.old.stage }
    requires sane { Sane D.tells D.state K.jobs (moment_of core.old store.old site.old) }
    requires recorded { IsRecorded K.tells store.old.entries (link_of site.old)
        (mark_of site.old) }
    ensures settled { OnOk result (core.new.stage ≡ stage.Settled) }
    ensures sane { OnOk result
        (Sane D.tells D.state K.jobs (moment_of core.new store.new site.new)) }
    ensures recorded { OnOk result (IsRecorded K.tells store.new.entries (link_of site.new)
        (mark_of site.new)) }
    ensures refused { D.tells → IfErr result (LacksLength (D.state (disk_of site.new)).folder) }
    ensures users { D.tells → UsersStay (D.state (disk_of site.old)) (D.state (disk_of site.new)) }
    ensures cause { HaltCaused (D.state (disk_of site.old)) (D.state (disk_of site.new)) result }
    ensures rise { K.faults (link_of site.old) ≤ K.faults (link_of site.new) }
    ensures failed { failed.new ≡ true → (failed.old ≡ true)
        ⊎ Rises (K.faults (link_of site.old)) (K.faults (link_of site.new)) }
    ensures goes { D.tells → Goes D.state K.tells K.jobs (λ l. K.L.meaning (K.law l))
        (moment_of core.old store.old site.old) (moment_of core.new store.new site.new)
        (HasCosts (C.cost p.now.law.value)) HasRound result }
{
    if let Err(halt) = settle(alloc, core, store, site) {
        return Err(halt);
    }
    if let Err(halt) = start_all(alloc, core, store, site, p, failed) {
        return Err(halt);
    }
    Ok(core.verdict())
}

// Whether nothing is to be waited for: no job is in flight, or the record is bad.
fn is_over(core: &Core, verdict: Verdict) -> bool
    ensures over { result ≡ true
        → ((n : ℕ) → job_of core.now.queue n ≡ None) ⊎ IsMisfitVerdict verdict }
    ensures waits { result ≡ false → (IsMisfitVerdict verdict → ⊥)
        × ((n : ℕ) × (job_of core.now.queue n ≢ None)) }
{
    match verdict {
        Verdict::Misfit { index: _ } => true,
        _ => core.any_job().is_none(),
    }
}

// Goes on until the run has ended, or nothing more can be done.
fn drive<D: Disk, K: Link, F: Prices, C: CostLaw>(
    alloc: Global,
    core: &mut Core,
    store: &mut Store,
    site: &mut Site<D, K>,
    p: &Policy<F, C>,
    failed: &mut bool,
) -> Result<Verdict, Halt>
    requires answered { IsAnswered core.old.stage }
    requires sane { Sane D.tells D.state K.jobs (moment_of core.old store.old site.old) }
    requires recorded { IsRecorded K.tells store.old.entries (link_of site.old)
        (mark_of site.old) }
    ensures settled { OnOk result (core.new.stage ≡ stage.Settled) }
    ensures sane { OnOk result
        (Sane D.tells D.state K.jobs (moment_of core.new store.new site.new)) }
    ensures over { IfOk result
        (λ v. ((n : ℕ) → job_of core.new.queue n ≡ None) ⊎ IsMisfitVerdict v) }
    ensures refused { D.tells → IfErr result (LacksLength (D.state (disk_of site.new)).folder) }
    ensures users { D.tells → UsersStay (D.state (disk_of site.old)) (D.state (disk_of site.new)) }
    ensures cause { HaltCaused (D.state (disk_of site.old)) (D.state (disk_of site.new)) result }
    ensures rise { K.faults (link_of site.old) ≤ K.faults (link_of site.new) }
    ensures failed { failed.new ≡ true → (failed.old ≡ true)
        ⊎ Rises (K.faults (link_of site.old)) (K.faults (link_of site.new)) }
    ensures goes { D.tells → Goes D.state K.tells K.jobs (λ l. K.L.meaning (K.law l))
        (moment_of core.old store.old site.old) (moment_of core.new store.new site.new)
        (HasCosts (C.cost p.now.law.value)) HasRound result }
{
    for _i in 0..u64::MAX {
        let verdict = match round(alloc, core, store, site, p, failed) {
            Ok(verdict) => verdict,
            Err(halt) => return Err(halt),
        };
        if is_over(core, verdict) {
            return Ok(verdict);
        }
        let Err(halt) = wait_one(alloc, core, store, site, failed) else {
            continue;
        };
        return Err(halt);
    }
    Err(Halt::NoMemory)
}

// What is given up, where something has failed. Where nothing has, nothing is given up.
fn if_failed(failed: bool, fault: RunFault) -> RunFault
    ensures { result ≡ (if failed then fault else faults.NoMemory) }
{
    if failed {
        return fault;
    }
    RunFault::NoMemory
}

// How the run ends by its last verdict.
fn conclude<D: Disk, K: Link>(
    alloc: Global,
    core: &Core,
    store: Store,
    site: &mut Site<D, K>,
    verdict: Verdict,
    failed: bool,
) -> Result<Store, RunFault>
    requires settled { core.now.stage ≡ stage.Settled }
    requires running { stage_of store.entries ≡ stages.Running }
    requires disk_of_store { D.tells → IsDiskOf store (D.state (disk_of site.old)) }
    ensures stage { IfOk result (λ s. stage_of s.entries ≡ stages.Closed) }
    ensures disk { D.tells → IfOk result (λ s. IsDiskOf s (D.state (disk_of site.new))) }
    ensures link { link_of site.new ≡ link_of site.old }
    ensures refused { D.tells → IfErr result (LacksLengthIn (D.state (disk_of site.new)).folder) }
    ensures users { D.tells → IsFruitless result
        → UsersStay (D.state (disk_of site.old)) (D.state (disk_of site.new)) }
    ensures cause { Caused (IsDiskFault result) (D.state (disk_of site.old)).faults
        (D.state (disk_of site.new)).faults }
    ensures blamed { IsGivenUp result → failed ≡ true }
    ensures cut { (IsCutShort result → ⊥) → IsMisfitVerdict verdict → ⊥ }
    ensures concludes { D.tells → (c : Course) (k : ℕ) (h : History)
        → Joined D.state K.tells K.jobs (λ l. K.L.meaning (K.law l)) c
        (moment_of core.now store site.old) k h → IsVerdict c.setup k (h ++ c.noted) verdict
        → Concludes c h (D.state (disk_of site.old)) (D.state (disk_of site.new)) result }
{
    match verdict {
        Verdict::Ended => match seal(alloc, core, store, site) {
            Ok(store) => Ok(store),
            Err(halt) => Err(stopped(halt)),
        },
        Verdict::Fault { line, kind } => Err(RunFault::Program { line, kind }),
        Verdict::FuelOut => Err(RunFault::FuelOut),
        Verdict::TaskLost { n } => Err(if_failed(failed, RunFault::TaskLost { n })),
        Verdict::WorkersLost { n } => Err(if_failed(failed, RunFault::WorkersLost { n })),
        Verdict::Misfit { index } => Err(RunFault::BadRecord { index }),
        Verdict::More => Err(RunFault::NoMemory),
    }
}

// Begins, goes on, and ends; jobs may be left in flight where the run is cut short.
fn go<D: Disk, K: Link, F: Prices, C: CostLaw>(
    alloc: Global,
    texts: &Texts,
    main: Main,
    broker: Broker,
    window: u32,
    p: &Policy<F, C>,
    mut store: Store,
    site: &mut Site<D, K>,
) -> Result<Store, RunFault>
    requires goes_on { ¬ HasEnded (stage_of store.entries) }
    requires fits { entry.fits (made.Header texts.now) ≡ true }
    requires disk_of_store { D.tells → IsDiskOf store (D.state (disk_of site.old)) }
    requires idle { IsIdle (K.jobs (link_of site.old)) }
    requires unused { (n : ℕ) → job_in broker n ≡ None }
    requires free { IsFree (talking main).next }
    ensures idle { (IsCutShort result → ⊥) → IsIdle (K.jobs (link_of site.new)) }
    ensures stage { IfOk result (λ s. stage_of s.entries ≡ stages.Closed) }
    ensures disk { D.tells → IfOk result (λ s. IsDiskOf s (D.state (disk_of site.new))) }
    ensures refused { D.tells → IfErr result (LacksLengthIn (D.state (disk_of site.new)).folder) }
    ensures users { D.tells → IsFruitless result
        → UsersStay (D.state (disk_of site.old)) (D.state (disk_of site.new)) }
    ensures cause { RunCaused (D.state (disk_of site.old)).faults
        (D.state (disk_of site.new)).faults (K.faults (link_of site.old))
        (K.faults (link_of site.new)) result }
    ensures went { D.tells → (call : Call)
        → Enters D.state K.tells (λ l. K.L.meaning (K.law l))
        (parts_of texts.now (talking main) broker window) store.entries (disk_of site.old)
        (link_of site.old) call → C.cost p.now.law.value ≡ call.setup.cost
        → (noted : History) × Went K.tells call (D.state (disk_of site.old))
        (D.state (disk_of site.new)) (link_of site.new) noted result }
{
    let mut core = match begin(alloc, texts, main, broker, window, &mut store, site) {
        Ok(core) => core,
        Err(halt) => return Err(stopped(halt)),
    };
    let mut failed = false;
    match drive(alloc, &mut core, &mut store, site, p, &mut failed) {
        Ok(verdict) => conclude(alloc, &core, store, site, verdict, failed),
        Err(halt) => Err(stopped(halt)),
    }
}

/// Runs a program over a record that is fresh, or of a run of the same texts that goes on, with no
/// job in flight, and leaves none. Each task starts as soon as what it reads is there, on the worker
/// of least cost that is free, and what it gave is recorded before the next wait. Where it has
/// answered `Ok` the record is closed, and the user's files are those of the sequential run; a task
/// that is recorded is never started. After an error the record is loaded anew.
pub fn run<D: Disk, K: Link, F: Prices, C: CostLaw>(
    alloc: Global,
    texts: &Texts,
    main: Main,
    broker: Broker,
    window: u32,
    p: &Policy<F, C>,
    store: Store,
    site: &mut Site<D, K>,
) -> Result<Store, RunFault>
    requires goes_on { ¬ HasEnded (stage_of store.entries) }
    requires fits { entry.fits (made.Header texts.now) ≡ true }
    requires disk_of_store { D.tells → IsDiskOf store (D.state (disk_of site.old)) }
    requires idle { IsIdle (K.jobs (link_of site.old)) }
    requires unused { (n : ℕ) → job_in broker n ≡ None }
    requires free { IsFree (talking main).next }
    ensures idle { IsIdle (K.jobs (link_of site.new)) }
    ensures stage { IfOk result (λ s. stage_of s.entries ≡ stages.Closed) }
    ensures disk { D.tells → IfOk result (λ s. IsDiskOf s (D.state (disk_of site.new))) }
    ensures refused { D.tells → IfErr result (LacksLengthIn (D.state (disk_of site.new)).folder) }
    ensures users { D.tells → IsFruitless result
        → UsersStay (D.state (disk_of site.old)) (D.state (disk_of site.new)) }
    ensures cause { RunCaused (D.state (disk_of site.old)).faults
        (D.state (disk_of site.new)).faults (K.faults (link_of site.old))
        (K.faults (link_of site.new)) result }
    ensures ran { D.tells → (call : Call)
        → Enters D.state K.tells (λ l. K.L.meaning (K.law l))
        (parts_of texts.now (talking main) broker window) store.entries (disk_of site.old)
        (link_of site.old) call → C.cost p.now.law.value ≡ call.setup.cost
        → (noted : History) × Ran K.tells call (D.state (disk_of site.old))
        (D.state (disk_of site.new)) (link_of site.new) noted result }
{
    match go(alloc, texts, main, broker, window, p, store, site) {
        Ok(store) => Ok(store),
        Err(fault) => {
            site.abandon();
            Err(fault)
        }
    }
}
