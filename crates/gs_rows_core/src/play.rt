// A core that is driven: steps are answered, what is due starts, and events happen as they are
// told.
ghost use Rattle.std.specs.Prelude.{◌≡◌, ◌<◌, ◌≤◌, OnOk};
ghost use Rattle.gs_policy.specs.Facts.{AreFacts, IsCallable, Answers};
ghost use Rattle.gs_core.specs.declared.stage.Stage.TheVariants as stage;
ghost use Rattle.gs_rows_core.specs.Due.{IsDue, IsSettled};

use crate::case::{Case, core_of};
use crate::desk::Desk;
use crate::left::{put_end, put_file, put_vars};
use gs_core::{Core, Step, Verdict};
use gs_policy::{CostLaw, Flat, Policy, Prices};
use gs_types::{FinalNote, NoMemory};
use std::alloc::Global;
use std::mem;

/// A task finishes, or fails.
#[derive(Clone, Copy)]
pub enum Event {
    Ends(u32),
    Fails(u32),
}

// Answers steps, as far as the core goes.
fn settle(core: &mut Core, desk: &mut Desk<'_>) -> Result<(), NoMemory>
    requires { IsDue core.old }
    ensures { OnOk result (IsSettled core.new) }
{
    for _i in 0..u32::MAX {
        match core.advance()? {
            Step::Look { name } => core.looked(desk.seen(&name)),
            Step::Load { version, kept: _ } => core.loaded(desk.loaded(&version)?),
            Step::Save { k: _, bytes } => {
                desk.close(bytes)?;
                core.saved();
            }
            Step::Settled => return Ok(()),
        }
    }
    Err(NoMemory)
}

// Starts what is due, each on a worker that is listed.
fn start<F: Prices, C: CostLaw>(
    p: &Policy<F, C>,
    core: &mut Core,
    desk: &mut Desk<'_>,
) -> Result<(), NoMemory>
    requires { IsSettled core.old }
    ensures { OnOk result (IsSettled core.new) }
{
    for _i in 0..u32::MAX {
        let Some(due) = core.next_start(p)? else {
            return Ok(());
        };
        if due.worker >= core.workers().count() {
            return Err(NoMemory);
        }
        desk.start(&due)?;
        core.started(due.n, due.worker);
    }
    Err(NoMemory)
}

// An event happens, if its task is in flight.
fn happen(core: &mut Core, desk: &mut Desk<'_>, event: Event) -> Result<(), NoMemory>
    requires { IsSettled core.old }
    ensures { OnOk result (IsDue core.new) }
{
    match event {
        Event::Ends(n) => {
            if core.job(n).is_some() {
                let outs = desk.finish(n)?;
                core.finished(n, outs);
            }
        }
        Event::Fails(n) => {
            if core.job(n).is_some() {
                desk.fail(n)?;
                core.failed(n);
            }
        }
    }
    Ok(())
}

// These events happen.
fn happen_all<F: Prices, C: CostLaw>(
    p: &Policy<F, C>,
    core: &mut Core,
    desk: &mut Desk<'_>,
    events: &[Event],
) -> Result<(), NoMemory>
    requires { IsDue core.old }
    ensures { OnOk result (IsDue core.new) }
{
    for event in events {
        settle(core, desk)?;
        start(p, core, desk)?;
        happen(core, desk, *event)?;
    }
    Ok(())
}

// Each task in flight finishes, the first one first, until none is.
fn finish_all<F: Prices, C: CostLaw>(
    p: &Policy<F, C>,
    core: &mut Core,
    desk: &mut Desk<'_>,
) -> Result<(), NoMemory>
    requires { IsDue core.old }
    ensures { OnOk result (IsSettled core.new) }
{
    for _i in 0..u32::MAX {
        settle(core, desk)?;
        start(p, core, desk)?;
        match desk.first() {
            None => return Ok(()),
            Some(n) => happen(core, desk, Event::Ends(n))?,
        }
    }
    Err(NoMemory)
}

// The content of a file that was written; `?` where it has another length than it is said to have.
fn content_of<'a>(desk: &'a Desk<'_>, f: &FinalNote) -> &'a [u8] {
    match desk.version(&f.version) {
        Some(bytes) if bytes.len() as u64 == f.len => bytes,
        _ => b"?",
    }
}

// What the program left, as it is recorded.
fn left(alloc: Global, core: &Core, desk: &Desk<'_>) -> Result<Vec<u8>, NoMemory>
    requires { core.now.stage ≡ stage.Settled }
{
    let note = core.gate_note()?;
    let mut words = Vec::new(alloc);
    for f in note.finals.items() {
        match note.names.items().get(f.name as usize) {
            Some(name) => put_file(&mut words, name.bytes(), content_of(desk, f))?,
            None => return Err(NoMemory),
        }
    }
    put_vars(alloc, &mut words, note.vars.items())?;
    put_end(alloc, &mut words, note.text.bytes(), note.actions.len())?;
    Ok(words)
}

// Runs a case by a policy.
fn run_by<F: Prices + Drop, C: CostLaw>(
    f: F,
    law: &C,
    case: &Case<'_>,
    desk: &mut Desk<'_>,
    events: &[Event],
    alloc: Global,
) -> Result<(Verdict, Vec<u8>), NoMemory>
    requires facts { AreFacts (F.may f) }
    requires callable { IsCallable (F.may f) }
    requires answers { Answers (F.gives f) (C.cost law.now) }
{
    let policy = Policy::new(f, law);
    desk.begin();
    let notes = mem::replace(&mut desk.done, Vec::new(alloc));
    let mut core = core_of(alloc, case, notes)?;
    happen_all(&policy, &mut core, desk, events)?;
    finish_all(&policy, &mut core, desk)?;
    if core.any_job().is_some() {
        return Err(NoMemory);
    }
    match core.verdict() {
        Verdict::Ended => Ok((Verdict::Ended, left(alloc, &core, desk)?)),
        verdict => Ok((verdict, Vec::new(alloc))),
    }
}

/// Runs a case with these events, and then each task in flight finishes, the first one first, until
/// none is: the verdict, and what an ended program left. What the desk has of earlier runs was
/// recorded.
pub fn run(
    alloc: Global,
    case: &Case<'_>,
    desk: &mut Desk<'_>,
    events: &[Event],
) -> Result<(Verdict, Vec<u8>), NoMemory> {
    run_by(
        |_op: u32, _worker: u32, _bytes: u64| -> u64
            ensures { result ≡ 0 }
        { 0 },
        &Flat,
        case,
        desk,
        events,
        alloc,
    )
}
