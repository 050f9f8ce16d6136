// What a link in memory did.
ghost use Rattle.std.specs.Prelude.{◌≡◌, ◌∷◌};
ghost use Rattle.gs_site.specs.Past.{past_of, told_event, history_of, event_told};
ghost use Rattle.gs_types.specs.History.{started};

use crate::Event;
use gs_types::{Job, Sequence, Value};
use std::mem;
use std::snapshot::Snapshot;

/// An event of a link, without jobs and outputs. Tasks count from 1, workers from 0.
#[derive(Clone, Copy, Debug, PartialEq, Eq)]
pub enum Past {
    Started { n: u32, worker: u32 },
    Refused { n: u32, worker: u32 },
    Finished { n: u32 },
    Failed { n: u32 },
    Abandoned,
}

/// An event with its job or its outputs, which clauses alone see.
#[derive(Drop)]
pub(crate) enum Told {
    Started {
        n: u32,
        worker: u32,
        job: Snapshot<Job>,
    },
    Finished {
        n: u32,
        outs: Snapshot<Sequence<Value>>,
    },
    Failed {
        n: u32,
    },
    Abandoned,
}

/// The events so far, the newest first.
#[derive(Drop)]
pub(crate) enum Telling {
    Start,
    Then(Snapshot<Told>, Snapshot<Telling>),
}

impl Told {
    /// The start of a job.
    pub(crate) fn started(job: &Job) -> Told
        ensures { told_event result ≡ started job.now.n job.now.worker job.now }
    {
        Told::Started {
            n: job.n,
            worker: job.worker,
            job: Snapshot::of(job),
        }
    }

    /// The end of a job.
    pub(crate) fn ended(event: &Event) -> Told
        ensures { told_event result ≡ event_told event.now }
    {
        match event {
            Event::Finished { n, outs } => Told::Finished {
                n: *n,
                outs: Snapshot::of(outs),
            },
            Event::Failed { n } => Told::Failed { n: *n },
        }
    }

    /// The event without its job or its outputs.
    pub(crate) fn past(&self) -> Past
        ensures { result ≡ past_of (told_event self.now) }
    {
        match self {
            Told::Started { n, worker, .. } => Past::Started {
                n: *n,
                worker: *worker,
            },
            Told::Finished { n, .. } => Past::Finished { n: *n },
            Told::Failed { n } => Past::Failed { n: *n },
            Told::Abandoned => Past::Abandoned,
        }
    }
}

/// Tells one more event.
pub(crate) fn tell(telling: &mut Snapshot<Telling>, event: &Told)
    ensures { history_of telling.new.value ≡ told_event event.now ∷ history_of telling.old.value }
{
    let before = mem::replace(telling, Snapshot::of(&Telling::Start));
    *telling = Snapshot::of(&Telling::Then(Snapshot::of(event), before));
}
