// A link that carries out built-in operations by itself.
ghost use Rattle.std.specs.Prelude.{◌≡◌, length};
ghost use Rattle.gs_site.specs.Memory.{script_of};
ghost use Rattle.gs_filters.specs.Lawful.{IsTogether};

use crate::FilterLaw;
use gs_site::{Event, Link, MemLink, StartErr};
use gs_types::{Job, NoMemory};
use std::alloc::Global;

/// A link whose jobs give what the law of built-in operations says. It reads no program of a
/// worker, never refuses a start, ends first the job that was started first, and tells its history,
/// which holds no outputs and no files.
#[derive(Drop)]
pub struct InsideLink {
    link: MemLink<FilterLaw>,
    ghost unscripted: { length (script_of link) ≡ 0 },
    ghost together: { ∥ IsTogether link ∥₁ },
}

impl InsideLink {
    ghost use Rattle.std.specs.Prelude.{[]};
    ghost use Rattle.gs_filters.specs.Inside.{waiting, told, faults_of};

    /// A link with no job in flight and no history.
    pub fn new(alloc: Global) -> InsideLink
        ensures waiting { waiting result ≡ [] }
        ensures told { told result ≡ [] }
        ensures count { faults_of result ≡ 0 }
    {
        InsideLink {
            link: MemLink::new(alloc, FilterLaw, Vec::new(alloc)),
        }
    }
}

impl Link for InsideLink {
    ghost use Rattle.std.specs.Prelude.{◌≤◌, None, IfOk, OnOk, OnErr, IsErrOf};
    ghost use Rattle.gs_types.specs.History.{History};
    ghost use Rattle.gs_site.specs.Link.{IsBusy, IsIdle, HasStarted, TellsStart, HasEnded, TellsEnd, EndsByLaw, Abandons};
    ghost use Rattle.gs_site.specs.Memory.{told_one, told_all};
    ghost use Rattle.gs_filters.specs.Filters.{filters};
    ghost use Rattle.gs_filters.specs.Inside.{law_of, jobs_of, faults_of, told, IsTold, IsUnchanged, TakesJob, LetsGo, EndsFirst};

    type L = FilterLaw;

    ghost law = { law_of };

    ghost tells = { IsTold };

    ghost jobs = { jobs_of };

    ghost faults = { faults_of };

    fn start(&mut self, alloc: Global, job: &Job) -> Result<(), StartErr>
        requires idle { jobs_of self.old job.now.n ≡ None }
        ensures law { law_of self.new ≡ law_of self.old }
        ensures started { HasStarted jobs_of faults_of self.old self.new job.now result }
        ensures told { TellsStart IsTold self.old self.new job.now result }
        ensures never { IsErrOf result StartErr.Failed → ⊥ }
        ensures takes { OnOk result (TakesJob self.old self.new job.now) }
        ensures unchanged { OnErr result (IsUnchanged self.old self.new) }
    {
        self.link.start(alloc, job)
    }

    fn next(&mut self, alloc: Global) -> Result<Event, NoMemory>
        requires busy { IsBusy (jobs_of self.old) }
        ensures law { law_of self.new ≡ law_of self.old }
        ensures ended { HasEnded jobs_of faults_of self.old self.new result }
        ensures told { TellsEnd IsTold self.old self.new result }
        ensures by_law { EndsByLaw IsTold jobs_of (λ law. filters) law_of self.old result }
        ensures first { IfOk result (EndsFirst self.old self.new) }
        ensures unchanged { OnErr result (IsUnchanged self.old self.new) }
    {
        self.link.next(alloc)
    }

    fn abandon(&mut self)
        ensures law { law_of self.new ≡ law_of self.old }
        ensures idle { IsIdle (jobs_of self.new) }
        ensures abandons { Abandons IsTold jobs_of faults_of self.old self.new }
        ensures rise { faults_of self.old ≤ faults_of self.new }
        ensures left { LetsGo self.old self.new }
    {
        self.link.abandon();
    }

    fn events(&self) -> u64
        ensures { (past : History) → IsTold self.now past → result ≡ length past }
    {
        self.link.events()
    }

    ghost one = { λ l h g a b. told_one h g (told l) a b };

    ghost all = { λ l m h a. told_all (told m) };
}
