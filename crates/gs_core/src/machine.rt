// The machine.
use crate::losing::Lost;
use crate::stage::{Loaded, Stage, reopened, saved_now, seen_now};
use crate::verdict::{Verdict, stopped};
use gs_broker::{Broker, Workers};
use gs_looks::Seen;
use gs_main::Main;
use gs_queue::Queue;
use gs_tables::{DoneNote, StartArg, Tables};
use gs_talk::Question;
use gs_types::{NoMemory, Sequence};
use std::alloc::Global;

/// A start that is due: the task, the worker, the operation, and what the task gets at its places.
#[derive(Drop)]
pub struct Start {
    pub n: u32,
    pub worker: u32,
    pub op: u8,
    pub args: Sequence<StartArg>,
}

/// A program that is asked ahead of its results: the program, its question where that is
/// unanswered, where the last step stands, what is given up, and what is kept of the run.
#[derive(Drop)]
pub struct Core {
    pub(crate) main: Main,
    pub(crate) asked: Option<Question>,
    pub(crate) stage: Stage,
    pub(crate) lost: Option<Lost>,
    pub(crate) tables: Tables,
    pub(crate) queue: Queue,
    pub(crate) alloc: Global,
}

impl Core {
    ghost use Rattle.std.specs.Prelude.{◌≡◌, ℕ, Option, None, IfOk};
    ghost use Rattle.gs_broker.specs.Broker.{job_in};
    ghost use Rattle.gs_main.specs.Talking.{IsFree};
    ghost use Rattle.gs_main.specs.Shown.{talking};
    ghost use Rattle.gs_history.specs.Notes.{AreNoted};
    ghost use Rattle.gs_core.specs.Beginning.{IsGiven};
    ghost use Rattle.gs_types.specs.History.{History};
    ghost use Rattle.gs_history.specs.Setup.{Setup, rest_at, world_at};
    ghost use Rattle.gs_looks.specs.Looked.{IsSeen};
    ghost use Rattle.gs_queue.specs.Queue.{job_of, workers_of};
    ghost use Rattle.gs_broker.specs.Tasks.{IsAnyJob};
    ghost use Rattle.gs_types.specs.declared.note.Version as version;
    ghost use Rattle.gs_talk_laws.specs.Versions.{version_value};
    ghost use Rattle.gs_core.specs.declared.stage.Stage.TheVariants as stage;
    ghost use Rattle.gs_core.specs.Stages.{IsLooking, IsSaving, IsLoaded, ByAsked, LoadBy, with_seen, with_saved, AnswersLook};
    ghost use Rattle.gs_core.specs.Core.{Stands, SameProgram, IsVerdict};

    /// A core of a program that has asked nothing yet: the program, what earlier calls recorded,
    /// the workers, and how many calls may be unfinished at once. The only error is want of memory.
    pub fn new(
        alloc: Global,
        main: Main,
        notes: Vec<DoneNote>,
        broker: Broker,
        window: u32,
    ) -> Result<Core, NoMemory>
        requires unused { (n : ℕ) → job_in broker n ≡ None }
        requires free { IsFree (talking main).next }
        ensures main { IfOk result (λ c. (c.main ≡ main) × (c.asked ≡ None)) }
        ensures stage { IfOk result (λ c. c.stage ≡ stage.Open) }
        ensures jobs { IfOk result (λ c. (n : ℕ) → job_of c.queue n ≡ None) }
        ensures stands { (s : Setup) (h : History) →
            IsGiven (talking main) broker window notes.items s →
            AreNoted s s.notes h → IfOk result (λ c. Stands c s 0 h) }
    {
        Ok(Core {
            main,
            asked: None,
            stage: Stage::Open,
            lost: None,
            tables: Tables::new(alloc, notes, window)?,
            queue: Queue::new(alloc, broker),
            alloc,
        })
    }

    /// The look that was asked is answered.
    pub fn looked(&mut self, seen: Seen)
        requires { IsLooking self.old.stage }
        ensures program { SameProgram self.old self.new }
        ensures tables { self.new.tables ≡ self.old.tables }
        ensures queue { self.new.queue ≡ self.old.queue }
        ensures stage { self.new.stage ≡ with_seen seen self.old.stage }
        ensures stands { (s : Setup) (k : ℕ) (h : History) → Stands self.old s k h →
            AnswersLook s seen self.old.stage → Stands self.new s k h }
    {
        seen_now(&mut self.stage, seen);
    }

    /// The load that was asked is answered.
    pub fn loaded(&mut self, loaded: Loaded)
        requires { self.old.stage ≡ stage.Loading }
        ensures program { SameProgram self.old self.new }
        ensures tables { self.new.tables ≡ self.old.tables }
        ensures queue { self.new.queue ≡ self.old.queue }
        ensures stage { self.new.stage ≡ stage.Loaded loaded }
        ensures stands { (s : Setup) (k : ℕ) (h : History) (v : version.Version) (kept : Option ℕ) →
            Stands self.old s k h → ByAsked (LoadBy s k v kept) (rest_at s k) →
            IsLoaded (version_value s.run.files (world_at s k) v) loaded → Stands self.new s k h }
    {
        self.stage = Stage::Loaded { loaded };
    }

    /// The content that was to be kept is kept.
    pub fn saved(&mut self)
        requires { IsSaving self.old.stage }
        ensures program { SameProgram self.old self.new }
        ensures tables { self.new.tables ≡ self.old.tables }
        ensures queue { self.new.queue ≡ self.old.queue }
        ensures stage { self.new.stage ≡ with_saved self.old.stage }
        ensures stands { (s : Setup) (k : ℕ) (h : History) → Stands self.old s k h →
            Stands self.new s k h }
    {
        saved_now(&mut self.stage);
    }

    /// The worker on which task `n` is in flight; `None` exactly where it is not in flight.
    pub fn job(&self, n: u32) -> Option<u32>
        ensures { result ≡ job_of self.now.queue n }
    {
        self.queue.job(n)
    }

    /// A task in flight; `None` exactly where none is.
    pub fn any_job(&self) -> Option<u32>
        ensures { IsAnyJob (job_of self.now.queue) result }
    {
        self.queue.any_job()
    }

    /// The list of workers.
    pub fn workers(&self) -> &Workers
        ensures { result.now ≡ workers_of self.now.queue }
    {
        self.queue.workers()
    }

    /// How the run has ended.
    pub fn verdict(&self) -> Verdict
        requires { self.now.stage ≡ stage.Settled }
        ensures { (s : Setup) (k : ℕ) (h : History) → Stands self.now s k h →
            IsVerdict s k h result }
    {
        match self.lost {
            Some(Lost::Task { n }) => Verdict::TaskLost { n },
            Some(Lost::Workers { n }) => Verdict::WorkersLost { n },
            Some(Lost::Misfit { index }) => Verdict::Misfit { index },
            None => stopped(&self.asked, self.tables.unfinished() == 0),
        }
    }
}
