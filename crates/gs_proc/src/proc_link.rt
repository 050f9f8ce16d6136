// A link whose tasks are child programs of this machine.
ghost use Rattle.std.specs.Prelude.{◌≡◌, ◌≤◌, ◌∷◌, ◌++◌, [], ℕ, length, Some, None, IsSome, IfOk, IfSome, OnOk, OnErr};
ghost use Rattle.gs_types.specs.Counts.{up};
ghost use Rattle.gs_types.specs.History.{History};
ghost use Rattle.gs_types.specs.Job.{Fit};
ghost use Rattle.gs_types.specs.declared.job.Job.{Job};
ghost use Rattle.gs_site.specs.Jobs.{without};
ghost use Rattle.gs_site.specs.Link.{IsIdle, IsBusy, task_of, FitsJob, HasStarted, TellsStart, HasEnded, TellsEnd, EndsByLaw, Abandons};
ghost use Rattle.gs_proc.specs.Ends.{IsEnd};
ghost use Rattle.gs_proc.specs.ProcLink.{law_of, tells_of, started_jobs, jobs_of, faults_of, started_count, waited_count, EndedLast};

use crate::call::Call;
use crate::outs::outs_of;
use crate::stage::{clear, make_folder};
use crate::task::{End, Ending, Task};
use crate::tasks::Tasks;
use crate::trouble::Trouble;
use crate::words::command_of;
use gs_site::{Event, Link, StartErr};
use gs_types::{Job, NoLaw, NoMemory, Sequence, Value};
use std::alloc::Global;
use std::process::{Child, Processes};
use std::rt::Files;
use std::time::Clock;

/// Runs each task as a child program, several at once. It tells no history.
///
/// A child is the worker's program with the operation's name as its first word and then a word for
/// each place in order: a given number in decimal, a given string itself, and else the name of a
/// file, `.gs.stage/TASK.PLACE`. At a given file and at one that is taken back that is a copy; at
/// an output no file stands there. Folder and environment are the master's own. The child reads
/// nothing, and what it prints is dropped.
///
/// A task is finished where its child ends with status 0 and each output's file holds what is
/// wanted: a file up to 16,777,216 bytes; a number of `-` or nothing, 1 to 19 digits and one line
/// feed or nothing, within 64 bits; a string without one line feed at its end. Everything else is a
/// failure, and raises the count.
#[derive(Drop)]
pub struct ProcLink<R: Files + Processes + Clock + Drop> {
    rt: R,
    law: NoLaw,
    tasks: Tasks<Child<R::Started>>,
    // The task that ended last, with its child, which tells how.
    last: Option<Task<Child<R::Started>>>,
    faults: u64,
}

// What a task gave whose child has ended, where it is finished.
fn outcome<R: Files>(
    rt: &R,
    alloc: Global,
    call: &Call,
    ending: Ending,
) -> Result<Option<Sequence<Value>>, NoMemory>
    ensures fit { IfOk result (λ outs. IfSome outs (Fit call.now.args)) }
    ensures well { IfOk result (λ outs. IsSome outs → ending ≡ Ending.Well) }
{
    if ending == Ending::Badly {
        return Ok(None);
    }
    match outs_of(rt, alloc, call.n(), call.places()) {
        Ok(outs) => Ok(Some(Sequence::of(outs))),
        Err(Trouble::Failed) => Ok(None),
        Err(Trouble::NoMemory) => Err(NoMemory),
    }
}

// Starts the child of a job, for which its files are staged.
fn start_child<R: Files + Processes>(
    rt: &R,
    alloc: Global,
    job: &Job,
) -> Result<Child<R::Started>, Trouble> {
    let mut command = command_of(rt, alloc, job)?;
    Ok(command.spawn(rt)?)
}

impl<R: Files + Processes + Clock + Drop> ProcLink<R> {
    /// A link with no task in flight.
    pub fn new(rt: R, alloc: Global) -> ProcLink<R>
        ensures idle { IsIdle (jobs_of result) }
        ensures jobs { started_jobs result ≡ [] }
        ensures count { faults_of result ≡ 0 }
    {
        ProcLink {
            rt,
            law: NoLaw,
            tasks: Tasks::new(alloc),
            last: None,
            faults: 0,
        }
    }

    /// The number of failures so far, which stands still at its last value.
    pub fn faults(&self) -> u64
        ensures { result ≡ faults_of self.now }
    {
        self.faults
    }

    // Counts a failure.
    fn fail(&mut self)
        ensures count { faults_of self.new ≡ up (faults_of self.old) }
        ensures rise { faults_of self.old ≤ faults_of self.new }
        ensures law { law_of self.new ≡ law_of self.old }
        ensures jobs { started_jobs self.new ≡ started_jobs self.old }
        ensures last { self.new.last ≡ self.old.last }
    {
        self.faults = self.faults.saturating_add(1);
    }

    fn try_start(&mut self, alloc: Global, job: &Job) -> Result<(), Trouble>
        requires { jobs_of self.old job.now.n ≡ None }
        ensures ok { OnOk result (started_jobs self.new ≡ started_jobs self.old ++ job.now ∷ []) }
        ensures err { OnErr result (started_jobs self.new ≡ started_jobs self.old) }
        ensures count { faults_of self.new ≡ faults_of self.old }
    {
        let call = Call::of(alloc, job)?;
        self.tasks.reserve()?;
        make_folder(&self.rt)?;
        let child = match start_child(&self.rt, alloc, job) {
            Ok(child) => child,
            Err(trouble) => {
                clear(&self.rt, alloc, &call);
                return Err(trouble);
            }
        };
        self.tasks.push(Task { call, child });
        Ok(())
    }

    // Ends a task whose child has ended. After want of memory nothing has changed.
    fn finish(&mut self, alloc: Global, end: End) -> Result<Event, NoMemory>
        requires { IsEnd self.old.tasks.list end }
        ensures ended { IfOk result (λ e. (job : Job) × (jobs_of self.old (task_of e) ≡ Some job)
            × FitsJob job e) }
        ensures jobs { IfOk result (λ e. started_jobs self.new
            ≡ without (task_of e) (started_jobs self.old)) }
        ensures order { OnErr result (started_jobs self.new ≡ started_jobs self.old) }
        ensures count { faults_of self.new ≡ waited_count (faults_of self.old) result }
        ensures rise { faults_of self.old ≤ faults_of self.new }
        ensures last { IfOk result (EndedLast self.old self.new) }
    {
        let call = &self.tasks.at(end.place).call;
        let n = call.n();
        let outs = outcome(&self.rt, alloc, call, end.ending)?;
        clear(&self.rt, alloc, call);
        self.last = Some(self.tasks.take(end.place));
        match outs {
            Some(outs) => Ok(Event::Finished { n, outs }),
            None => {
                self.fail();
                Ok(Event::Failed { n })
            }
        }
    }
}

impl<R: Files + Processes + Clock + Drop> Link for ProcLink<R> {
    type L = NoLaw;

    ghost law = { law_of };

    ghost tells = { tells_of };

    ghost jobs = { jobs_of };

    ghost faults = { faults_of };

    fn start(&mut self, alloc: Global, job: &Job) -> Result<(), StartErr>
        requires idle { jobs_of self.old job.now.n ≡ None }
        ensures law { law_of self.new ≡ law_of self.old }
        ensures started { HasStarted jobs_of faults_of self.old self.new job.now result }
        ensures told { TellsStart tells_of self.old self.new job.now result }
        ensures jobs { OnOk result (started_jobs self.new ≡ started_jobs self.old ++ job.now ∷ []) }
        ensures order { OnErr result (started_jobs self.new ≡ started_jobs self.old) }
        ensures count { faults_of self.new ≡ started_count (faults_of self.old) result }
    {
        match self.try_start(alloc, job) {
            Ok(()) => Ok(()),
            Err(Trouble::NoMemory) => Err(StartErr::NoMemory),
            Err(Trouble::Failed) => {
                self.fail();
                Err(StartErr::Failed)
            }
        }
    }

    fn next(&mut self, alloc: Global) -> Result<Event, NoMemory>
        requires busy { IsBusy (jobs_of self.old) }
        ensures law { law_of self.new ≡ law_of self.old }
        ensures ended { HasEnded jobs_of faults_of self.old self.new result }
        ensures told { TellsEnd tells_of self.old self.new result }
        ensures by_law { EndsByLaw tells_of jobs_of (λ law op ins. None) law_of self.old result }
        ensures jobs { IfOk result (λ e. started_jobs self.new
            ≡ without (task_of e) (started_jobs self.old)) }
        ensures order { OnErr result (started_jobs self.new ≡ started_jobs self.old) }
        ensures count { faults_of self.new ≡ waited_count (faults_of self.old) result }
        ensures last { IfOk result (EndedLast self.old self.new) }
    {
        match self.tasks.wait(&self.rt)? {
            Some(end) => self.finish(alloc, end),
            None => Err(NoMemory),
        }
    }

    fn abandon(&mut self)
        ensures law { law_of self.new ≡ law_of self.old }
        ensures idle { IsIdle (jobs_of self.new) }
        ensures abandons { Abandons tells_of jobs_of faults_of self.old self.new }
        ensures rise { faults_of self.old ≤ faults_of self.new }
        ensures jobs { started_jobs self.new ≡ [] }
        ensures count { faults_of self.new ≡ faults_of self.old }
    {
        self.tasks.clear();
    }

    fn events(&self) -> u64
        ensures told { (past : History) → tells_of self.now past → result ≡ length past }
        ensures none { result ≡ 0 }
    {
        0
    }

    ghost one = { λ l h g a b. absurd a };

    ghost all = { λ l m h a. absurd a };
}
