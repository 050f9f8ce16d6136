// What runs tasks, as everything in `gs` sees it.
ghost use Rattle.std.specs.Prelude.{◌≡◌, ◌≤◌, ℕ, length, None};
ghost use Rattle.gs_types.specs.History.{History};
ghost use Rattle.gs_site.specs.Link.{Flying, IsIdle, IsBusy, HasStarted, TellsStart, HasEnded, TellsEnd, EndsByLaw, Abandons};

use gs_types::{Job, Law, NoMemory, Sequence, Value};
use std::alloc::Global;

/// The end of a task: its outputs, in the order of the places that give something, or a failure.
#[derive(Debug, Drop)]
pub enum Event {
    Finished { n: u32, outs: Sequence<Value> },
    Failed { n: u32 },
}

/// Why a task wasn't started: it was refused, which is a failure of the task on this worker, or
/// want of memory, at which nothing changed.
#[derive(Clone, Copy, Debug, PartialEq, Eq)]
pub enum StartErr {
    Failed,
    NoMemory,
}

/// Runs tasks, several at once, and tells their ends one by one.
pub trait Link {
    type L: Law;

    /// The law by which tasks give their outputs. No call changes it.
    ghost law: { Self → Self.L };

    /// The history since the link was made. A link that tells nothing has none.
    ghost tells: { Self → History → Type 0 };

    /// The jobs in flight.
    ghost jobs: { Self → Flying };

    ghost faults: { Self → ℕ };

    /// Starts a task that isn't in flight. `Failed` only where the count of faults rose. After
    /// `NoMemory` nothing has changed.
    fn start(&mut self, alloc: Global, job: &Job) -> Result<(), StartErr>
        requires idle { jobs self.old job.now.n ≡ None }
        ensures law { law self.new ≡ law self.old }
        ensures started { HasStarted jobs faults self.old self.new job.now result }
        ensures told { TellsStart tells self.old self.new job.now result };

    /// Waits for the end of a task in flight. `Failed` only where the count of faults rose. After
    /// want of memory nothing has changed.
    fn next(&mut self, alloc: Global) -> Result<Event, NoMemory>
        requires busy { IsBusy (jobs self.old) }
        ensures law { law self.new ≡ law self.old }
        ensures ended { HasEnded jobs faults self.old self.new result }
        ensures told { TellsEnd tells self.old self.new result }
        ensures by_law { EndsByLaw tells jobs Self.L.meaning law self.old result };

    /// Ends all jobs in flight without an answer. Without one nothing changes. It takes no memory.
    fn abandon(&mut self)
        ensures law { law self.new ≡ law self.old }
        ensures idle { IsIdle (jobs self.new) }
        ensures abandons { Abandons tells jobs faults self.old self.new }
        ensures rise { faults self.old ≤ faults self.new };

    /// The length of the history, where it is told.
    fn events(&self) -> u64
        ensures { (past : History) → tells self.now past → result ≡ length past };

    /// What is told of a link at a moment is one history.
    ghost one: { (l : Self) (h g : History) → tells l h → tells l g → h ≡ g };

    /// A link that tells a history tells one after any call too.
    ghost all: { (l m : Self) (h : History) → tells l h → (g : History) × tells m g };
}
