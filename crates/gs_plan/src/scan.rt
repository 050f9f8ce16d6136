// From the actions of a run to which task follows which.
ghost use Rattle.std.specs.Prelude.{nat_eq, ◌≡◌, ◌==◌, ◌<◌, ◌≤◌, ◌+◌, ℕ, [], Some, None, if◌then◌else◌, length, reverse, take, IfOk, OnOk};
ghost use Rattle.std.specs.HashMap.{get};
ghost use Rattle.gs_plan.specs.Actions.{calls_in, is_among, precedes};
ghost use Rattle.gs_plan.specs.Ties.{AreTies, Ordered};
ghost use Rattle.gs_plan.specs.Scan.{AddsPair, AddsReads, AddsNeeds, AddsCall, AreNumbered, ScannedOf};

use crate::ties::Ties;
use gs_types::Action;
use std::alloc::{AllocError, Global};
use std::collections::HashMap;

/// What the actions so far say. `writers` has the task that wrote a file last, where a task did,
/// and all tasks before `barred` are among the needs.
#[derive(Drop)]
pub(crate) struct Scan {
    pub ties: Ties,
    pub writers: HashMap<u32, u32>,
    pub barred: usize,
}

// The task that wrote the file last, where a task did.
fn writer_of(writers: &HashMap<u32, u32>, name: u32) -> Option<u32>
    ensures { result ≡ get nat_eq writers.now name }
{
    writers.get(&name).copied()
}

// One pair more.
fn add_pair(ties: &mut Ties, before: u32, after: u32) -> Result<(), AllocError>
    ensures { OnOk result (AddsPair before after ties.old ties.new) }
{
    ties.befores.push(before)?;
    ties.afters.push(after)?;
    Ok(())
}

// Task `task` depends on each task that wrote one of these files last.
fn read_files(
    ties: &mut Ties,
    writers: &HashMap<u32, u32>,
    reads: &[u32],
    task: u32,
) -> Result<(), AllocError>
    requires { length ties.old.befores.items ≡ length ties.old.afters.items }
    ensures { OnOk result (AddsReads (λ name. get nat_eq writers.now name) reads.now task
        ties.old ties.new) }
{
    for name in reads {
        if let Some(writer) = writer_of(writers, *name) {
            add_pair(ties, writer, task)?;
        }
    }
    Ok(())
}

// Task `task` wrote these files last.
fn write_files(writers: &mut HashMap<u32, u32>, writes: &[u32], task: u32) -> Result<(), AllocError>
    ensures { OnOk result ((name : ℕ) → get nat_eq writers.new name
        ≡ (if is_among name writes.now then Some task else get nat_eq writers.old name)) }
{
    for name in writes {
        writers.insert(*name, task)?;
    }
    Ok(())
}

// The tasks from one on to another, which isn't among them, are needed.
fn need(ties: &mut Ties, from: usize, to: usize) -> Result<(), AllocError>
    requires order { from ≤ to }
    requires few { to ≤ 10000 }
    ensures { OnOk result (AddsNeeds from to ties.old ties.new) }
{
    for task in from..to {
        ties.needed.push(task as u32)?;
    }
    Ok(())
}

// The next task, which reads and writes these files.
fn call(scan: &mut Scan, reads: &[u32], writes: &[u32]) -> Result<(), AllocError>
    requires few { length scan.old.ties.waits.items ≤ 10000 }
    requires same { length scan.old.ties.befores.items ≡ length scan.old.ties.afters.items }
    ensures { OnOk result (AddsCall reads.now writes.now scan.old scan.new) }
{
    let task = scan.ties.waits.len() as u32;
    read_files(&mut scan.ties, &scan.writers, reads, task)?;
    write_files(&mut scan.writers, writes, task)?;
    let needs = scan.ties.needed.len();
    scan.ties.waits.push(needs)?;
    Ok(())
}

// Task `task` is needed.
fn need_one(scan: &mut Scan, task: usize) -> Result<(), AllocError>
    requires { task < 10000 }
    ensures ties { OnOk result (AddsNeeds task (task + 1) scan.old.ties scan.new.ties) }
    ensures writers { OnOk result (scan.new.writers ≡ scan.old.writers) }
    ensures barred { OnOk result (scan.new.barred ≡ scan.old.barred) }
{
    need(&mut scan.ties, task, task + 1)?;
    Ok(())
}

// All tasks so far are needed.
fn need_all(scan: &mut Scan) -> Result<(), AllocError>
    requires few { length scan.old.ties.waits.items ≤ 10000 }
    requires order { scan.old.barred ≤ length scan.old.ties.waits.items }
    ensures ties { OnOk result (AddsNeeds scan.old.barred (length scan.old.ties.waits.items)
        scan.old.ties scan.new.ties) }
    ensures writers { OnOk result (scan.new.writers ≡ scan.old.writers) }
    ensures barred { OnOk result (scan.new.barred ≡ length scan.old.ties.waits.items) }
{
    let calls = scan.ties.waits.len();
    need(&mut scan.ties, scan.barred, calls)?;
    scan.barred = calls;
    Ok(())
}

// The main program wrote the file last.
fn write_one(scan: &mut Scan, name: u32)
    ensures ties { scan.new.ties ≡ scan.old.ties }
    ensures writers { (x : ℕ) → get nat_eq scan.new.writers x
        ≡ (if name == x then None else get nat_eq scan.old.writers x) }
    ensures barred { scan.new.barred ≡ scan.old.barred }
{
    scan.writers.remove(&name);
}

// Reads one action more.
fn note(scan: &mut Scan, actions: &[Action], at: usize) -> Result<(), AllocError>
    requires at { at < length actions.now }
    requires numbered { AreNumbered (reverse actions.now) }
    requires few { calls_in (reverse actions.now) ≤ 10000 }
    requires scanned { ScannedOf (reverse (take at actions.now)) scan.old }
    ensures { OnOk result (ScannedOf (reverse (take (at + 1) actions.now)) scan.new) }
{
    match &actions[at] {
        Action::Call { reads, writes, .. } => call(scan, reads.items(), writes.items()),
        Action::Use { n, .. } => need_one(scan, *n as usize - 1),
        Action::Result { n } => need_one(scan, *n as usize - 1),
        Action::Read { name } => match writer_of(&scan.writers, *name) {
            Some(task) => need_one(scan, task as usize),
            None => Ok(()),
        },
        Action::Write { name } => {
            write_one(scan, *name);
            Ok(())
        }
        Action::Barrier => need_all(scan),
        Action::End => need_all(scan),
    }
}

fn nothing(alloc: Global) -> Scan
    ensures { ScannedOf [] result }
{
    Scan {
        ties: Ties {
            befores: Vec::new(alloc),
            afters: Vec::new(alloc),
            needed: Vec::new(alloc),
            waits: Vec::new(alloc),
        },
        writers: HashMap::new(alloc),
        barred: 0,
    }
}

/// Which task follows which in a run of these actions.
pub(crate) fn ties_of(alloc: Global, actions: &[Action]) -> Result<Ties, AllocError>
    requires numbered { AreNumbered (reverse actions.now) }
    requires few { calls_in (reverse actions.now) ≤ 10000 }
    ensures ties { IfOk result (λ t. AreTies t (calls_in (reverse actions.now))) }
    ensures sound { IfOk result (λ t. (i j : ℕ) → Ordered t i j → precedes actions.now i j) }
    ensures full { IfOk result (λ t. (i j : ℕ) → precedes actions.now i j → Ordered t i j) }
{
    let mut scan = nothing(alloc);
    for at in 0..actions.len() {
        note(&mut scan, actions, at)?;
    }
    let Scan { ties, .. } = scan;
    Ok(ties)
}
