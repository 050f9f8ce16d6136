// The jobs in flight of a link in memory, and what it did.
ghost use Rattle.std.specs.Prelude.{◌≡◌, ◌≤◌, ◌<◌, ◌+◌, [], ◌∷◌, ◌++◌, length, Some, OnOk, OnErr, IsSome, option_copied, vec_len, vec_capacity};
ghost use Rattle.gs_types.specs.History.{started};
ghost use Rattle.gs_site.specs.Past.{past_of, told_event, history_of, event_told, shown};
ghost use Rattle.gs_site.specs.Jobs.{job_at, without, picked};
ghost use Rattle.gs_site.specs.Link.{task_of};
ghost use Rattle.gs_site.specs.Desk.{DeskState, left_alone};

use crate::Event;
use crate::copies::copy_job;
use crate::past::{Past, Telling, Told, tell};
use gs_types::{Job, NoMemory};
use std::alloc::Global;
use std::marker::Model;
use std::snapshot::Snapshot;

/// The jobs in flight, in the order of their starts, and what was done, oldest first, with room for
/// one more event while a job is in flight.
#[derive(Drop)]
pub(crate) struct Desk {
    jobs: Vec<Job>,
    past: Vec<Past>,
    telling: Snapshot<Telling>,
}

impl Model for Desk {
    ghost use Rattle.std.specs.Prelude.{◌≡◌, ◌<◌, length, vec_len, vec_capacity};
    ghost use Rattle.gs_site.specs.Past.{history_of, shown};
    ghost use Rattle.gs_site.specs.Desk.{DeskState};

    ghost Value = { DeskState };

    ghost view = { λ d. record { jobs = d.jobs.items; told = history_of d.telling.value } };

    ghost invariant = { λ d. (d.past.items ≡ shown (history_of d.telling.value))
        × (0 < length d.jobs.items → vec_len d.past < vec_capacity d.past) };
}

// Notes an event, for which there is room.
fn note(past: &mut Vec<Past>, telling: &mut Snapshot<Telling>, event: Told)
    requires { vec_len past.old < vec_capacity past.old }
    ensures past { past.new.items ≡ past.old.items ++ past_of (told_event event) ∷ [] }
    ensures len { vec_len past.new ≡ vec_len past.old + 1 }
    ensures room { vec_capacity past.old ≤ vec_capacity past.new }
    ensures told { history_of telling.new.value ≡ told_event event ∷ history_of telling.old.value }
{
    tell(telling, &event);
    match past.push(event.past()) {
        Ok(()) => {}
        Err(_) => unreachable!(),
    }
}

fn end_job(jobs: &mut Vec<Job>, n: u32)
    ensures { jobs.new.items ≡ without n jobs.old.items }
{
    jobs.retain(|job| job.n != n);
}

impl Desk {
    pub(crate) fn new(alloc: Global) -> Desk
        ensures { result ≡ record { jobs = []; told = [] } }
    {
        Desk {
            jobs: Vec::new(alloc),
            past: Vec::new(alloc),
            telling: Snapshot::of(&Telling::Start),
        }
    }

    /// The number of a job: the one at this place modulo their number.
    pub(crate) fn pick(&self, pick: u32) -> u32
        requires { 0 < length self.now.jobs }
        ensures { result ≡ picked self.now.jobs pick }
    {
        self.jobs[pick as usize % self.jobs.len()].n
    }

    /// The job of a task that is in flight.
    pub(crate) fn job(&self, n: u32) -> &Job
        requires { IsSome (job_at self.now.jobs n) }
        ensures { job_at self.now.jobs n ≡ Some result.now }
    {
        match find(&self.jobs, n) {
            Some(job) => job,
            None => unreachable!(),
        }
    }

    /// What was done, oldest first.
    pub(crate) fn past(&self) -> &[Past]
        ensures { result.now ≡ shown self.now.told }
    {
        self.past.as_slice()
    }

    /// Takes a job, and room for the events that end it. On want of memory nothing changes.
    pub(crate) fn start(&mut self, alloc: Global, job: &Job) -> Result<(), NoMemory>
        ensures ok { OnOk result
            (self.new ≡ record {
              jobs = self.old.jobs ++ job.now
                  ∷ [];
              told = started job.now.n job.now.worker job.now ∷ self.old.told;
            }) }
        ensures err { OnErr result (self.new ≡ self.old) }
    {
        let copy = copy_job(alloc, job)?;
        self.past.reserve(2)?;
        self.jobs.reserve(1)?;
        note(&mut self.past, &mut self.telling, Told::started(job));
        match self.jobs.push(copy) {
            Ok(()) => Ok(()),
            Err(_) => unreachable!(),
        }
    }

    /// Ends a task in flight. On want of memory nothing changes.
    pub(crate) fn end(&mut self, event: &Event) -> Result<(), NoMemory>
        ensures ok { OnOk result
            (self.new ≡ record {
              jobs = without (task_of event.now) self.old.jobs;
              told = event_told
                  event.now ∷ self.old.told;
            }) }
        ensures err { OnErr result (self.new ≡ self.old) }
    {
        self.past.reserve(2)?;
        note(&mut self.past, &mut self.telling, Told::ended(event));
        end_job(&mut self.jobs, number_of(event));
        Ok(())
    }

    /// Lets all jobs go, which is noted where there is one.
    pub(crate) fn abandon(&mut self)
        ensures { self.new ≡ left_alone self.old }
    {
        if !self.jobs.is_empty() {
            self.jobs.clear();
            note(&mut self.past, &mut self.telling, Told::Abandoned);
        }
    }
}

fn number_of(event: &Event) -> u32
    ensures { result ≡ task_of event.now }
{
    match event {
        Event::Finished { n, .. } | Event::Failed { n } => *n,
    }
}

fn find(jobs: &[Job], n: u32) -> Option<&Job>
    ensures { option_copied result ≡ job_at jobs.now n }
{
    jobs.iter().find(|job| job.n == n)
}
