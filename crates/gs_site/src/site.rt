// A disk and a link together.
ghost use Rattle.std.specs.Prelude.{◌≡◌, ◌≤◌, ℕ, [], ◌∷◌, length, None};
ghost use Rattle.std.specs.Borrow.{sem};
ghost use Rattle.gs_types.specs.History.{History};
ghost use Rattle.gs_site.specs.Link.{IsIdle, IsBusy, HasStarted, TellsStart, HasEnded, TellsEnd, EndsByLaw, Abandons};
ghost use Rattle.gs_site.specs.Lending.{lends_disk};
ghost use Rattle.gs_disk.specs.Moments.{EachNow};
ghost use Rattle.gs_site.specs.Recorded.{HasDone, LacksDone, Recorded};
ghost use Rattle.gs_site.specs.Site.{disk_of, link_of, mark_of, marks_of};

use crate::marks::{Marks, set_mark};
use crate::{Event, Link, StartErr};
use gs_disk::Disk;
use gs_types::{Job, NoMemory};
use std::alloc::Global;
use std::snapshot::Snapshot;

/// A disk and a link, which is private to the site, and the place in the link's history at which
/// the run began.
#[derive(Drop)]
pub struct Site<D, K> {
    disk: D,
    link: K,
    mark: u64,
    marks: Snapshot<Marks>,
}

impl<D: Disk, K: Link> Site<D, K> {
    pub fn new(disk: D, link: K) -> Site<D, K>
        ensures disk { disk_of result ≡ disk }
        ensures link { link_of result ≡ link }
        ensures mark { mark_of result ≡ 0 }
        ensures marks { marks_of result ≡ [] }
    {
        Site {
            disk,
            link,
            mark: 0,
            marks: Snapshot::of(&Marks::Start),
        }
    }

    /// Lends the disk. The link stays as it is.
    pub fn disk(&mut self) -> &mut D
        ensures* lends { sem 𝓛 (lends_disk D.row K.row self.entry result) }
        ensures value { result.now ≡ disk_of self.old }
    {
        &mut self.disk
    }

    /// The link, for reading.
    pub fn link(&self) -> &K
        ensures { result.now ≡ link_of self.now }
    {
        &self.link
    }

    /// Gives disk and link back.
    pub fn take_apart(self) -> (D, K)
        ensures { (result.0 ≡ disk_of self) × (result.1 ≡ link_of self) }
    {
        (self.disk, self.link)
    }

    /// Marks the end of the link's history as the begin of a run. No job is in flight.
    pub fn begin_run(&mut self)
        requires { IsIdle (K.jobs (link_of self.old)) }
        ensures disk { disk_of self.new ≡ disk_of self.old }
        ensures link { link_of self.new ≡ link_of self.old }
        ensures mark { (past : History) → K.tells (link_of self.old) past
            → mark_of self.new ≡ length past }
        ensures marks { marks_of self.new ≡ mark_of self.new ∷ marks_of self.old }
    {
        self.mark = self.link.events();
        set_mark(&mut self.marks, self.mark);
    }

    /// Starts a task that isn't in flight on the link, and that no image's entries say is done.
    /// `Failed` only where the link's count of faults rose. After `NoMemory` nothing has changed.
    pub fn start(&mut self, alloc: Global, job: &Job) -> Result<(), StartErr>
        requires idle { K.jobs (link_of self.old) job.now.n ≡ None }
        requires not_done { D.tells
            → EachNow (LacksDone job.now.n) (D.state (disk_of self.old)) }
        ensures disk { disk_of self.new ≡ disk_of self.old }
        ensures mark { mark_of self.new ≡ mark_of self.old }
        ensures marks { marks_of self.new ≡ marks_of self.old }
        ensures law { K.law (link_of self.new) ≡ K.law (link_of self.old) }
        ensures started { HasStarted K.jobs K.faults (link_of self.old) (link_of self.new) job.now
            result }
        ensures told { TellsStart K.tells (link_of self.old) (link_of self.new) job.now result }
    {
        self.link.start(alloc, job)
    }

    /// Waits for the end of a task in flight. Each task that finished since the mark is done by the
    /// entries of each image. `Failed` only where the link's count of faults rose. After want of
    /// memory nothing has changed.
    pub fn next(&mut self, alloc: Global) -> Result<Event, NoMemory>
        requires busy { IsBusy (K.jobs (link_of self.old)) }
        requires recorded { D.tells → Recorded K.tells (link_of self.old) (mark_of self.old)
            (λ n. EachNow (HasDone n) (D.state (disk_of self.old))) }
        ensures disk { disk_of self.new ≡ disk_of self.old }
        ensures mark { mark_of self.new ≡ mark_of self.old }
        ensures marks { marks_of self.new ≡ marks_of self.old }
        ensures law { K.law (link_of self.new) ≡ K.law (link_of self.old) }
        ensures ended { HasEnded K.jobs K.faults (link_of self.old) (link_of self.new) result }
        ensures told { TellsEnd K.tells (link_of self.old) (link_of self.new) result }
        ensures by_law { EndsByLaw K.tells K.jobs K.L.meaning K.law (link_of self.old) result }
    {
        self.link.next(alloc)
    }

    /// Ends all jobs in flight without an answer. Without one nothing changes. It takes no memory.
    pub fn abandon(&mut self)
        ensures disk { disk_of self.new ≡ disk_of self.old }
        ensures mark { mark_of self.new ≡ mark_of self.old }
        ensures marks { marks_of self.new ≡ marks_of self.old }
        ensures law { K.law (link_of self.new) ≡ K.law (link_of self.old) }
        ensures idle { IsIdle (K.jobs (link_of self.new)) }
        ensures abandons { Abandons K.tells K.jobs K.faults (link_of self.old) (link_of self.new) }
        ensures rise { K.faults (link_of self.old) ≤ K.faults (link_of self.new) }
    {
        self.link.abandon();
    }
}
