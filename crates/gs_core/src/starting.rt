// Tasks that start and end.
ghost use Rattle.std.specs.Prelude.{◌≡◌, ℕ, ◌∷◌, List, IfOk, IfSome, IsSome, Some, None};
ghost use Rattle.gs_types.specs.History.{History, started, refused, finished, failed};
ghost use Rattle.gs_types.specs.declared.job.Job as job;
ghost use Rattle.gs_types.specs.declared.value.Value as value;
ghost use Rattle.gs_history.specs.Setup.{Setup};
ghost use Rattle.gs_history.specs.Good.{IsStart, IsRefused, IsFinish, IsFailure};
ghost use Rattle.gs_queue.specs.Queue.{job_of, MayStart};
ghost use Rattle.gs_tables.specs.Outs.{outs_noted};
ghost use Rattle.gs_tables.specs.Table.{mains_in, looked_in};
ghost use Rattle.gs_core.specs.declared.stage.Stage.TheVariants as stage;
ghost use Rattle.gs_core.specs.Stages.{reopened};
ghost use Rattle.gs_core.specs.Freed.{ListsFreed, IsListedIfOpen, ListsFollowers};
ghost use Rattle.gs_core.specs.Core.{Stands, SameProgram, SetsJob, IsDueStart};

use crate::losing::next_loss;
use crate::machine::{Core, Start};
use crate::stage::{Stage, reopened};
use gs_policy::{CostLaw, Policy, Prices};
use gs_queue::Queue;
use gs_tables::Tables;
use gs_types::{NoMemory, OutNote, Sequence};

// Lists task `m`, if it may start and is not listed yet. It takes no memory.
fn list_open(queue: &mut Queue, tables: &Tables, m: u32)
    ensures more { ListsFreed tables.now queue.old queue.new }
    ensures full { IsListedIfOpen tables.now queue.old queue.new m }
{
    if m == 0 || m > queue.count() || !tables.is_ready(m) {
        return;
    }
    if queue.is_listed(m) || queue.job(m).is_some() {
        return;
    }
    queue.list(tables.listed(m));
}

// Lists each task that may start. It takes no memory.
fn list_all(queue: &mut Queue, tables: &Tables)
    ensures more { ListsFreed tables.now queue.old queue.new }
    ensures full { (m : ℕ) → IsListedIfOpen tables.now queue.old queue.new m }
{
    for i in 0..queue.count() {
        list_open(queue, tables, i + 1);
    }
}

// Lists the tasks that may start since task `n` has finished. It takes no memory. A follower is
// told as often as it reads, so they may be more than can be numbered: each task is looked at then.
fn list_freed(queue: &mut Queue, tables: &Tables, n: u32)
    ensures more { ListsFreed tables.now queue.old queue.new }
    ensures full { ListsFollowers tables.now n queue.old queue.new }
{
    for i in 0..u32::MAX {
        let Some(m) = tables.follower(n, i) else {
            return;
        };
        list_open(queue, tables, m);
    }
    list_all(queue, tables);
}

impl Core {
    /// The start that is due; `None` where no task can start, or something is lost. The only error
    /// is want of memory.
    pub fn next_start<F: Prices, C: CostLaw>(
        &self,
        p: &Policy<F, C>,
    ) -> Result<Option<Start>, NoMemory>
        requires { self.now.stage ≡ stage.Settled }
        ensures due { (s : Setup) (k : ℕ) (h : History) → C.cost p.now.law.value ≡ s.cost →
            Stands self.now s k h → IfOk result (IsDueStart s k h) }
        ensures may { IfOk result (λ o. IfSome o (λ x. MayStart x.n x.worker self.now.queue)) }
    {
        if self.lost.is_some() {
            return Ok(None);
        }
        match self.queue.pick(p) {
            None => Ok(None),
            Some((n, worker)) => match self.tables.start(self.main.idl(), n)? {
                None => Ok(None),
                Some((op, args)) => Ok(Some(Start {
                    n,
                    worker,
                    op,
                    args,
                })),
            },
        }
    }

    /// Task `n` starts on a worker, as `next_start` answers them. It takes no memory.
    pub fn started(&mut self, n: u32, worker: u32)
        requires settled { self.old.stage ≡ stage.Settled }
        requires may { MayStart n worker self.old.queue }
        ensures program { SameProgram self.old self.new }
        ensures tables { self.new.tables ≡ self.old.tables }
        ensures jobs { SetsJob n (Some worker) self.old self.new }
        ensures stage { self.new.stage ≡ stage.Settled }
        ensures stands { (s : Setup) (k : ℕ) (h : History) (j : job.Job) → Stands self.old s k h →
            IsStart s h n worker j → Stands self.new s k (started n worker j ∷ h) }
    {
        self.queue.started(n, worker);
    }

    /// Task `n`, which was in flight, has finished, and gave this at its places. It takes no
    /// memory.
    pub fn finished(&mut self, n: u32, outs: Sequence<OutNote>)
        requires { IsSome (job_of self.old.queue n) }
        ensures program { SameProgram self.old self.new }
        ensures mains { mains_in self.new.tables ≡ mains_in self.old.tables }
        ensures looks { looked_in self.new.tables ≡ looked_in self.old.tables }
        ensures jobs { SetsJob n None self.old self.new }
        ensures stage { self.new.stage ≡ reopened self.old.stage }
        ensures stands { (s : Setup) (k : ℕ) (h : History) (values : List value.Value) →
            self.old.stage ≡ stage.Settled → Stands self.old s k h →
            (fits : IsFinish s h n values) →
            outs ≡ outs_noted 1 fits.task.params values →
            Stands self.new s k (finished n values ∷ h) }
    {
        self.tables.finished(n, outs);
        self.queue.finished(n);
        list_freed(&mut self.queue, &self.tables, n);
        reopened(&mut self.stage);
    }

    /// Task `n`, which was in flight, has failed, or its start was refused. It takes no memory.
    pub fn failed(&mut self, n: u32)
        requires { IsSome (job_of self.old.queue n) }
        ensures program { SameProgram self.old self.new }
        ensures tables { self.new.tables ≡ self.old.tables }
        ensures jobs { SetsJob n None self.old self.new }
        ensures stage { self.new.stage ≡ self.old.stage }
        ensures stands { (s : Setup) (k : ℕ) (h : History) → self.old.stage ≡ stage.Settled →
            Stands self.old s k h → IsFailure s h n → Stands self.new s k (failed n ∷ h) }
        ensures refused { (s : Setup) (k : ℕ) (h : History) (w : ℕ) (j : job.Job) →
            self.old.stage ≡ stage.Settled → Stands self.old s k (started n w j ∷ h) →
            IsRefused s h n w → Stands self.new s k (refused n w ∷ h) }
    {
        let loss = self.queue.failed(self.tables.listed(n));
        let stranded = self.queue.no_worker();
        self.lost = next_loss(self.lost, loss, stranded);
    }
}
