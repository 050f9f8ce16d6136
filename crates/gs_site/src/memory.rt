// A link in memory.
ghost use Rattle.std.specs.Prelude.{◌≡◌, ◌≤◌, [], length, Some, None, IfOk, OnOk, OnErr, IsErrOf};
ghost use Rattle.gs_types.specs.History.{History};
ghost use Rattle.gs_site.specs.Link.{IsIdle, IsBusy, task_of, HasStarted, TellsStart, HasEnded, TellsEnd, EndsByLaw, Abandons};
ghost use Rattle.gs_site.specs.Memory.{law_of, script_of, started_jobs, jobs_of, faults_of, IsTold, told_one, told_all, EndsBy, counted, MayGive, TakesJob, TakesTurn};
ghost use Rattle.gs_site.specs.Past.{shown};

use crate::copies::inputs_of;
use crate::desk::Desk;
use crate::fit::fits;
use crate::turn::{place_behind, turn_at};
use crate::{Event, Link, Past, StartErr, Turn};
use gs_types::{Job, Law, NoMemory, Sequence, Value};
use std::alloc::Global;

/// A link whose jobs give what a law says, and end in the order of a script. It tells its history,
/// which holds no outputs and no files.
#[derive(Drop)]
pub struct MemLink<L> {
    law: L,
    script: Vec<Turn>,
    turn: usize,
    desk: Desk,
    faults: u64,
}

// What the law gives for a job, where that fits the job's places.
fn outs_of<L: Law>(alloc: Global, law: &L, job: &Job) -> Result<Option<Sequence<Value>>, NoMemory>
    ensures { IfOk result (MayGive (L.meaning law.now) job.now) }
{
    let ins = inputs_of(alloc, job.args.items())?;
    match law.apply(alloc, job.op.bytes(), &ins)? {
        Some(outs) if fits(job.args.items(), &outs) => Ok(Some(Sequence::of(outs))),
        _ => Ok(None),
    }
}

// How the job of a task ends.
fn end_of<L: Law>(alloc: Global, law: &L, job: &Job, n: u32, well: bool) -> Result<Event, NoMemory>
    ensures task { IfOk result (λ e. task_of e ≡ n) }
    ensures end { IfOk result (EndsBy (L.meaning law.now) well job.now) }
{
    if !well {
        return Ok(Event::Failed { n });
    }
    Ok(match outs_of(alloc, law, job)? {
        Some(outs) => Event::Finished { n, outs },
        None => Event::Failed { n },
    })
}

// The count of faults after an end.
fn count(faults: u64, event: &Event) -> u64
    ensures { result ≡ counted faults event.now }
{
    match event {
        Event::Finished { .. } => faults,
        Event::Failed { .. } => faults.saturating_add(1),
    }
}

impl<L: Law> MemLink<L> {
    /// A link with no job in flight and no history. `next` takes one turn of the script; a script
    /// that is used up picks the first job, which ends well.
    pub fn new(alloc: Global, law: L, script: Vec<Turn>) -> MemLink<L>
        ensures law { law_of result ≡ law }
        ensures script { script_of result ≡ script.items }
        ensures idle { IsIdle (jobs_of result) }
        ensures jobs { started_jobs result ≡ [] }
        ensures count { faults_of result ≡ 0 }
        ensures told { IsTold result [] }
    {
        MemLink {
            law,
            script,
            turn: 0,
            desk: Desk::new(alloc),
            faults: 0,
        }
    }

    /// The history without jobs and outputs, oldest first.
    pub fn past(&self) -> &[Past]
        ensures { (past : History) → IsTold self.now past → result.now ≡ shown past }
    {
        self.desk.past()
    }
}

impl<L: Law> Link for MemLink<L> {
    type L = L;

    ghost law = { law_of };

    ghost tells = { IsTold };

    ghost jobs = { jobs_of };

    ghost faults = { faults_of };

    fn start(&mut self, alloc: Global, job: &Job) -> Result<(), StartErr>
        requires idle { jobs_of self.old job.now.n ≡ None }
        ensures law { law_of self.new ≡ law_of self.old }
        ensures started { HasStarted jobs_of faults_of self.old self.new job.now result }
        ensures told { TellsStart IsTold self.old self.new job.now result }
        ensures never { IsErrOf result StartErr.Failed → ⊥ }
        ensures takes { OnOk result (TakesJob self.old self.new job.now) }
        ensures unchanged { OnErr result (self.new ≡ self.old) }
    {
        match self.desk.start(alloc, job) {
            Ok(()) => Ok(()),
            Err(_) => Err(StartErr::NoMemory),
        }
    }

    fn next(&mut self, alloc: Global) -> Result<Event, NoMemory>
        requires busy { IsBusy (jobs_of self.old) }
        ensures law { law_of self.new ≡ law_of self.old }
        ensures ended { HasEnded jobs_of faults_of self.old self.new result }
        ensures told { TellsEnd IsTold self.old self.new result }
        ensures by_law { EndsByLaw IsTold jobs_of L.meaning law_of self.old result }
        ensures turn { IfOk result (TakesTurn (L.meaning (law_of self.old)) self.old self.new) }
        ensures unchanged { OnErr result (self.new ≡ self.old) }
    {
        let turn = turn_at(&self.script, self.turn);
        let n = self.desk.pick(turn.pick);
        let event = end_of(alloc, &self.law, self.desk.job(n), n, turn.well)?;
        self.desk.end(&event)?;
        self.turn = place_behind(&self.script, self.turn);
        self.faults = count(self.faults, &event);
        Ok(event)
    }

    fn abandon(&mut self)
        ensures law { law_of self.new ≡ law_of self.old }
        ensures idle { IsIdle (jobs_of self.new) }
        ensures abandons { Abandons IsTold jobs_of faults_of self.old self.new }
        ensures rise { faults_of self.old ≤ faults_of self.new }
        ensures jobs { started_jobs self.new ≡ [] }
        ensures script { script_of self.new ≡ script_of self.old }
        ensures count { faults_of self.new ≡ faults_of self.old }
    {
        self.desk.abandon();
    }

    fn events(&self) -> u64
        ensures { (past : History) → IsTold self.now past → result ≡ length past }
    {
        self.desk.past().len() as u64
    }

    ghost one = { λ l h g a b. told_one h g l.desk.told a b };

    ghost all = { λ l m h a. told_all m.desk.told };
}
