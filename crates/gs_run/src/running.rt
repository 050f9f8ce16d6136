// The command `run`.
ghost use Rattle.std.specs.Prelude.{◌≡◌, ◌≤◌, IfOk};
ghost use Rattle.gs_types.specs.History.{History};
ghost use Rattle.gs_check.specs.Passing.{program_in, interface_in};
ghost use Rattle.gs_broker.specs.Listed.{entries_in};
ghost use Rattle.gs_entries.specs.Order.{stage_of};
ghost use Rattle.gs_entries.specs.declared.entry.Stage.TheVariants as stages;
ghost use Rattle.gs_life.specs.Called.{StandsFor};
ghost use Rattle.gs_life.specs.Origin.{Origin};
ghost use Rattle.gs_main.specs.Shown.{talking};
ghost use Rattle.gs_main.specs.Talking.{first_talking, IsFree};
ghost use Rattle.gs_policy.specs.Facts.{AreFacts, IsCallable, Answers};
ghost use Rattle.gs_site.specs.Link.{IsIdle};
ghost use Rattle.gs_site.specs.Site.{disk_of, link_of};
ghost use Rattle.gs_store.specs.Ordered.{AreInOrder, HasEnded};
ghost use Rattle.gs_store.specs.State.{IsDiskOf};
ghost use Rattle.gs_types.specs.declared.limits.TheConstants.{TRIES_LIMIT};
ghost use Rattle.gs_engine.specs.Users.{UsersStay};
ghost use Rattle.gs_run.specs.Course.{IsRunOf, IsFruitless, Stood};
ghost use Rattle.gs_run.specs.Halted.{stop_of_halt, stop_of_fault, Halts, Fails, HaltsAs, IsFinish, RunsBy, CarriedBy, IsOfRun, PutsText};
ghost use Rattle.gs_run.specs.Judging.{SaysPlan};
ghost use Rattle.gs_run.specs.Ran.{Ran, Blames};
ghost use Rattle.gs_run.specs.Ready.{IsAtStage, store_in};
ghost use Rattle.gs_run.specs.Sources.{AreNamed};

use crate::Stop;
use crate::judge::Plan;
use crate::names::Words;
use crate::ready::{Ready, prepare};
use crate::refusal::stop_unready;
use gs_broker::Broker;
use gs_check::Checked;
use gs_disk::Disk;
use gs_engine::{RunFault, finish, run};
use gs_finish::Halt;
use gs_main::Main;
use gs_policy::{CostLaw, Flat, Policy, Prices};
use gs_site::{Link, Site};
use gs_store::{Store, Texts};
use gs_types::{NoMemory, Sink, put_all};
use gs_verbs::BadStore;
use std::alloc::Global;

/// The call stops for this.
fn stop_of_halt(halt: Halt) -> Stop
    ensures { result ≡ stop_of_halt halt }
{
    match halt {
        Halt::Disk => Stop::Disk,
        Halt::NoMemory => Stop::Memory,
        Halt::Lost {
            version,
            kept,
            found,
        } => Stop::BadStore {
            bad: BadStore::Lost {
                version,
                kept,
                found,
            },
        },
    }
}

/// The call with so much fuel stops for this.
fn stop_of_fault(fuel: u64, fault: RunFault) -> Stop
    ensures { result ≡ stop_of_fault fuel fault }
{
    match fault {
        RunFault::Program { line, kind } => Stop::Fault { line, kind },
        RunFault::FuelOut => Stop::FuelOut { fuel },
        RunFault::TaskLost { n } => Stop::TaskLost { n },
        RunFault::WorkersLost { n } => Stop::WorkersLost { n },
        RunFault::BadRecord { index } => Stop::BadStore {
            bad: BadStore::Record { index },
        },
        RunFault::Lost {
            version,
            kept,
            found,
        } => Stop::BadStore {
            bad: BadStore::Lost {
                version,
                kept,
                found,
            },
        },
        RunFault::Disk => Stop::Disk,
        RunFault::NoMemory => Stop::Memory,
    }
}

/// The program at its beginning, with its fuel.
fn begin(alloc: Global, words: &Words, checked: Checked) -> Result<Main, NoMemory>
    ensures begins { IfOk result (λ m. talking m ≡ first_talking words.now.idl words.now.program
        (interface_in checked) (program_in checked) words.now.settings.fuel) }
    ensures free { IfOk result (λ m. IsFree (talking m).next) }
{
    Main::new(
        alloc,
        checked,
        words.idl.copy(),
        words.program.copy(),
        words.settings.fuel,
    )
}

/// Runs a program that may begin or go on, at these prices.
fn run_by<D: Disk, K: Link, F: Prices + Drop, C: CostLaw>(
    alloc: Global,
    f: F,
    law: &C,
    words: &Words,
    texts: &Texts,
    store: Store,
    plan: Plan,
    site: &mut Site<D, K>,
) -> Result<Store, Stop>
    requires facts { AreFacts (F.may f) }
    requires callable { IsCallable (F.may f) }
    requires answers { Answers (F.gives f) (C.cost law.now) }
    requires goes_on { HasEnded (stage_of store.entries) → ⊥ }
    requires named { AreNamed texts.now }
    requires says { SaysPlan texts.now plan }
    requires tries { (1 ≤ words.now.settings.tries) × (words.now.settings.tries ≤ TRIES_LIMIT) }
    requires disk_of_store { D.tells → IsDiskOf store (D.state (disk_of site.old)) }
    requires idle { IsIdle (K.jobs (link_of site.old)) }
    ensures idle { IsIdle (K.jobs (link_of site.new)) }
    ensures stage { IfOk result (λ s. stage_of s.entries ≡ stages.Closed) }
    ensures disk { D.tells → IfOk result (λ s. IsDiskOf s (D.state (disk_of site.new))) }
    ensures rise { (D.state (disk_of site.old)).faults ≤ (D.state (disk_of site.new)).faults }
    ensures cause { Blames words.now.settings.fuel (D.state (disk_of site.old)).faults
        (D.state (disk_of site.new)).faults (K.faults (link_of site.old))
        (K.faults (link_of site.new)) 0 0 result }
    ensures users { D.tells → IsFruitless result
        → UsersStay (D.state (disk_of site.old)) (D.state (disk_of site.new)) }
    ensures halts { Halts result }
    ensures ran { D.tells → (o : Origin) (past : History)
        → StandsFor o store.entries (D.state (disk_of site.old))
        → IsRunOf o words.now.idl words.now.program → o.texts ≡ texts.now
        → K.L.meaning (K.law (link_of site.old)) ≡ o.law → K.tells (link_of site.old) past
        → C.cost law.now ≡ (λ op worker bytes. 0)
        → Stood o store.entries past (D.state (disk_of site.old)) (D.state (disk_of site.new))
        (K.tells (link_of site.new))
        (RunsBy o words.now.settings (entries_in plan.workers) store.entries result) result }
{
    let policy = Policy::new(f, law);
    let main = match begin(alloc, words, plan.checked) {
        Ok(main) => main,
        Err(_) => return Err(Stop::Memory),
    };
    let broker = match Broker::new(alloc, plan.workers, words.settings.tries) {
        Ok(broker) => broker,
        Err(_) => return Err(Stop::Memory),
    };
    let window = words.settings.window;
    match run(alloc, texts, main, broker, window, &policy, store, site) {
        Ok(store) => Ok(store),
        Err(fault) => Err(stop_of_fault(words.settings.fuel, fault)),
    }
}

/// Runs a program that may begin or go on. Each start costs nothing.
fn run_plan<D: Disk, K: Link>(
    alloc: Global,
    words: &Words,
    texts: &Texts,
    store: Store,
    plan: Plan,
    site: &mut Site<D, K>,
) -> Result<Store, Stop>
    requires goes_on { HasEnded (stage_of store.entries) → ⊥ }
    requires named { AreNamed texts.now }
    requires says { SaysPlan texts.now plan }
    requires tries { (1 ≤ words.now.settings.tries) × (words.now.settings.tries ≤ TRIES_LIMIT) }
    requires disk_of_store { D.tells → IsDiskOf store (D.state (disk_of site.old)) }
    requires idle { IsIdle (K.jobs (link_of site.old)) }
    ensures idle { IsIdle (K.jobs (link_of site.new)) }
    ensures stage { IfOk result (λ s. stage_of s.entries ≡ stages.Closed) }
    ensures disk { D.tells → IfOk result (λ s. IsDiskOf s (D.state (disk_of site.new))) }
    ensures rise { (D.state (disk_of site.old)).faults ≤ (D.state (disk_of site.new)).faults }
    ensures cause { Blames words.now.settings.fuel (D.state (disk_of site.old)).faults
        (D.state (disk_of site.new)).faults (K.faults (link_of site.old))
        (K.faults (link_of site.new)) 0 0 result }
    ensures users { D.tells → IsFruitless result
        → UsersStay (D.state (disk_of site.old)) (D.state (disk_of site.new)) }
    ensures halts { Halts result }
    ensures ran { D.tells → (o : Origin) (past : History)
        → StandsFor o store.entries (D.state (disk_of site.old))
        → IsRunOf o words.now.idl words.now.program → o.texts ≡ texts.now
        → K.L.meaning (K.law (link_of site.old)) ≡ o.law → K.tells (link_of site.old) past
        → Stood o store.entries past (D.state (disk_of site.old)) (D.state (disk_of site.new))
        (K.tells (link_of site.new))
        (RunsBy o words.now.settings (entries_in plan.workers) store.entries result) result }
{
    run_by(
        alloc,
        |_op: u32, _worker: u32, _bytes: u64| -> u64
            ensures { result ≡ 0 }
        { 0 },
        &Flat,
        words,
        texts,
        store,
        plan,
        site,
    )
}

/// Brings the results of a run that has ended to the user's files.
fn finish_store<D: Disk, K: Link>(
    alloc: Global,
    store: Store,
    site: &mut Site<D, K>,
) -> Result<Store, Stop>
    requires ended { HasEnded (stage_of store.entries) }
    requires disk_of_store { D.tells → IsDiskOf store (D.state (disk_of site.old)) }
    ensures link { link_of site.new ≡ link_of site.old }
    ensures still { stage_of store.entries ≡ stages.Closed
        → disk_of site.new ≡ disk_of site.old }
    ensures stage { IfOk result (λ s. stage_of s.entries ≡ stages.Closed) }
    ensures disk { D.tells → IfOk result (λ s. IsDiskOf s (D.state (disk_of site.new))) }
    ensures rise { (D.state (disk_of site.old)).faults ≤ (D.state (disk_of site.new)).faults }
    ensures cause { Blames 0 (D.state (disk_of site.old)).faults
        (D.state (disk_of site.new)).faults 0 0 0 0 result }
    ensures halts { Fails result }
    ensures stood { D.tells → (o : Origin) (past : History)
        → StandsFor o store.entries (D.state (disk_of site.old))
        → K.tells (link_of site.old) past
        → Stood o store.entries past (D.state (disk_of site.old)) (D.state (disk_of site.new))
        (K.tells (link_of site.new)) (IsFinish result) result }
{
    match finish(alloc, store, site) {
        Ok(store) => Ok(store),
        Err(halt) => Err(stop_of_halt(halt)),
    }
}

/// Finishes what is ready, or runs it.
fn carry_out<D: Disk, K: Link>(
    alloc: Global,
    words: &Words,
    ready: Ready,
    site: &mut Site<D, K>,
) -> Result<Store, Stop>
    requires stage { IsAtStage ready }
    requires tries { (1 ≤ words.now.settings.tries) × (words.now.settings.tries ≤ TRIES_LIMIT) }
    requires disk_of_store { D.tells → IsDiskOf (store_in ready) (D.state (disk_of site.old)) }
    requires idle { IsIdle (K.jobs (link_of site.old)) }
    ensures idle { IsIdle (K.jobs (link_of site.new)) }
    ensures still { stage_of (store_in ready).entries ≡ stages.Closed
        → disk_of site.new ≡ disk_of site.old }
    ensures stage { IfOk result (λ s. stage_of s.entries ≡ stages.Closed) }
    ensures disk { D.tells → IfOk result (λ s. IsDiskOf s (D.state (disk_of site.new))) }
    ensures rise { (D.state (disk_of site.old)).faults ≤ (D.state (disk_of site.new)).faults }
    ensures cause { Blames words.now.settings.fuel (D.state (disk_of site.old)).faults
        (D.state (disk_of site.new)).faults (K.faults (link_of site.old))
        (K.faults (link_of site.new)) 0 0 result }
    ensures users { D.tells → IsFruitless result
        → UsersStay (D.state (disk_of site.old)) (D.state (disk_of site.new)) }
    ensures halts { HaltsAs ready result }
    ensures stood { D.tells → (o : Origin) (past : History)
        → StandsFor o (store_in ready).entries (D.state (disk_of site.old))
        → IsRunOf o words.now.idl words.now.program → IsOfRun o ready
        → K.L.meaning (K.law (link_of site.old)) ≡ o.law → K.tells (link_of site.old) past
        → Stood o (store_in ready).entries past (D.state (disk_of site.old))
        (D.state (disk_of site.new)) (K.tells (link_of site.new))
        (CarriedBy o words.now.settings ready result) result }
{
    match ready {
        Ready::Ended { store } => finish_store(alloc, store, site),
        Ready::Going { texts, store, plan } => run_plan(alloc, words, &texts, store, plan, site),
    }
}

// The entries of a store are in order, as each of its looks tells.
fn look_first(store: &Store)
    ensures { AreInOrder store.now.entries }
{
    let _ = store.entry(0);
}

/// Writes the text that a run with results has printed.
fn put_text<O: Sink>(store: &Store, out: &mut O) -> Result<(), Stop>
    requires closed { stage_of store.now.entries ≡ stages.Closed }
    ensures in_order { AreInOrder store.now.entries }
    ensures text { PutsText store.now.entries O.tells (O.written out.old) (O.written out.new)
        (O.faults out.old) (O.faults out.new) result }
{
    look_first(store);
    let Some(g) = store.gate_note() else {
        unreachable!()
    };
    match put_all(out, g.text.bytes()) {
        Ok(()) => Ok(()),
        Err(_) => Err(Stop::Sink),
    }
}

/// Runs the texts of these names to their end, or finishes their run, and writes what it has
/// printed.
pub(crate) fn run_texts<D: Disk, K: Link, O: Sink>(
    alloc: Global,
    words: &Words,
    site: &mut Site<D, K>,
    out: &mut O,
) -> Result<(), Stop>
    requires idle { IsIdle (K.jobs (link_of site.old)) }
    requires tries { (1 ≤ words.now.settings.tries) × (words.now.settings.tries ≤ TRIES_LIMIT) }
    ensures idle { IsIdle (K.jobs (link_of site.new)) }
    ensures ran { Ran words.now.settings D.tells O.tells (D.state (disk_of site.old))
        (D.state (disk_of site.new)) (K.L.meaning (K.law (link_of site.old)))
        (K.tells (link_of site.old)) (K.tells (link_of site.new))
        (K.faults (link_of site.old)) (K.faults (link_of site.new))
        (O.faults out.old) (O.faults out.new) (O.written out.old) (O.written out.new)
        words.now.idl words.now.program words.now.workers result }
{
    let ready = match prepare(alloc, site.disk(), words) {
        Ok(ready) => ready,
        Err(unready) => return Err(stop_unready(unready)),
    };
    match carry_out(alloc, words, ready, site) {
        Ok(store) => put_text(&store, out),
        Err(stop) => Err(stop),
    }
}
