// The queue.
#![tactic(auto, unfolding(crate::specs::Queue::tasks_of, crate::specs::Queue::listed_of, crate::specs::Queue::workers_of, crate::specs::Queue::slots_of, crate::specs::Queue::takes_of, crate::specs::Queue::tries_of, crate::specs::Queue::job_of, crate::specs::Queue::busy_of, crate::specs::Queue::failures_of, crate::specs::Queue::lapses_of))]

ghost use Rattle.std.specs.Prelude.{◌≡◌, ◌≤◌, ◌<◌, ℕ, Some, is_some, true, false};
ghost use Rattle.gs_broker.specs.declared.choice.Ready.{Ready};
ghost use Rattle.gs_broker.specs.Broker.{job_in, is_known, spare_in};
ghost use Rattle.gs_broker.specs.Choice.{IsTaskInRange};
ghost use Rattle.gs_queue.specs.Numbered.{unknown};
ghost use Rattle.gs_queue.specs.Views.{size_in, task_in};

use crate::listed::Listed;
use gs_broker::{Broker, Loss, Ready, Workers};
use gs_policy::{CostLaw, Policy, Prices};
use gs_types::NoMemory;
use std::alloc::Global;

/// Tasks with the numbers from 1 on, those that may be started, and the broker.
#[derive(Drop)]
pub struct Queue {
    broker: Broker,
    listed: Listed,
    ghost idle: { (n : ℕ) (r : Ready) → task_in listed n ≡ Some r →
        is_some (job_in broker n) ≡ false },
    ghost known: { (n : ℕ) → is_some (job_in broker n) ≡ true → (0 < n) × (n ≤ size_in listed) },
    ghost spare: { unknown (is_known broker) (size_in listed) ≤ spare_in broker },
    ghost range: { (n : ℕ) (r : Ready) → task_in listed n ≡ Some r → IsTaskInRange r },
}

impl Queue {
    ghost use Rattle.std.specs.Prelude.{◌≡◌, ◌≤◌, ◌<◌, ◌+◌, ◌==◌, ◌^◌, ℕ, OnOk, OnErr, IfSome, IsSome, is_some, Some, None, min, if◌then◌else◌, true};
    ghost use Rattle.gs_broker.specs.Broker.{job_in};
    ghost use Rattle.gs_broker.specs.Choice.{IsTaskInRange};
    ghost use Rattle.gs_broker.specs.Counts.{is_on, most};
    ghost use Rattle.gs_broker.specs.Outcome.{IsLoss};
    ghost use Rattle.gs_broker.specs.Tasks.{IsAnyJob};
    ghost use Rattle.gs_queue.specs.Queue.{tasks_of, listed_of, workers_of, takes_of, tries_of, job_of, failures_of, lapses_of, BeginsWith, SameRun, IsTask, AreListed, MayStart, StartsTask, EndsTask, IsLeastStart, IsNoWorker};

    /// A queue over a broker with no job in flight: there is no task yet. It takes no memory.
    pub fn new(alloc: Global, broker: Broker) -> Queue
        requires { (n : ℕ) → job_in broker n ≡ None }
        ensures { BeginsWith broker result }
    {
        Queue {
            broker,
            listed: Listed::new(alloc),
        }
    }

    /// One task more, with the next number: it is not listed and not in flight. It takes all the
    /// room that this task will ever need: no other call takes memory. On want of memory nothing
    /// changes.
    pub fn grow(&mut self) -> Result<(), NoMemory>
        requires { tasks_of self.old + 1 < 2 ^ 32 }
        ensures ok { OnOk result (tasks_of self.new ≡ tasks_of self.old + 1) }
        ensures err { OnErr result (tasks_of self.new ≡ tasks_of self.old) }
        ensures listed { (m : ℕ) → listed_of self.new m ≡ listed_of self.old m }
        ensures unlisted { listed_of self.new (tasks_of self.old + 1) ≡ None }
        ensures idle { job_of self.new (tasks_of self.old + 1) ≡ None }
        ensures run { SameRun self.old self.new }
    {
        self.broker.reserve(self.listed.count() + 1)?;
        self.listed.grow()?;
        Ok(())
    }

    /// How many tasks there are; they have the numbers from 1 to this one.
    pub fn count(&self) -> u32
        ensures { result ≡ tasks_of self.now }
    {
        self.listed.count()
    }

    /// The list of workers.
    pub fn workers(&self) -> &Workers
        ensures { result.now ≡ workers_of self.now }
    {
        self.broker.workers()
    }

    /// Whether task `n` is listed.
    pub fn is_listed(&self, n: u32) -> bool
        ensures listed { result ≡ is_some (listed_of self.now n) }
        ensures all { AreListed self.now }
    {
        self.listed.task(n).is_some()
    }

    /// Lists a task that is not in flight and not listed. It takes no memory.
    pub fn list(&mut self, r: Ready)
        requires numbered { IsTask r.n self.old }
        requires idle { job_of self.old r.n ≡ None }
        requires absent { listed_of self.old r.n ≡ None }
        requires range { IsTaskInRange r }
        ensures tasks { tasks_of self.new ≡ tasks_of self.old }
        ensures listed { (m : ℕ) →
            listed_of self.new m ≡ (if r.n == m then Some r else listed_of self.old m) }
        ensures run { SameRun self.old self.new }
    {
        self.listed.put(r);
    }

    /// The worker on which task `n` is in flight; `None` exactly where it is not in flight. A task
    /// in flight is not listed.
    pub fn job(&self, n: u32) -> Option<u32>
        ensures job { result ≡ job_of self.now n }
        ensures numbered { IsSome result → IsTask n self.now }
        ensures unlisted { IsSome result → listed_of self.now n ≡ None }
    {
        self.broker.job(n)
    }

    /// A task in flight; `None` exactly where none is. It looks at each place of a job once.
    pub fn any_job(&self) -> Option<u32>
        ensures job { IsAnyJob (job_of self.now) result }
        ensures numbered { IfSome result (λ n. IsTask n self.now) }
    {
        self.broker.any_job()
    }

    /// The listed task and the worker that cost least under the policy's law, among workers that
    /// take the task, have a free slot and fewer than 5 failures; ties go by the task's number,
    /// then by the worker's. `None` exactly where there is no such pair. It looks at one task of
    /// each operation and length that is listed.
    pub fn pick<F: Prices, C: CostLaw>(&self, p: &Policy<F, C>) -> Option<(u32, u32)>
        ensures least { IsLeastStart (C.cost p.now.law.value) self.now result }
        ensures may { IfSome result (λ s. MayStart s.0 s.1 self.now) }
        ensures all { AreListed self.now }
    {
        self.broker.pick(p, self.listed.fronts())
    }

    /// The least listed task all of whose workers have 5 or more failures; `None` exactly where
    /// there is none. It looks at one task of each operation and length that is listed.
    pub fn no_worker(&self) -> Option<u32>
        ensures stranded { IsNoWorker self.now result }
        ensures all { AreListed self.now }
    {
        self.broker.no_worker(self.listed.fronts())
    }

    /// Task `n`, which is listed, starts on worker `w`, which has a free slot, as `pick` answers
    /// them. It is taken off the list. It takes no memory.
    pub fn started(&mut self, n: u32, w: u32)
        requires { MayStart n w self.old }
        ensures { StartsTask n w self.old self.new }
    {
        self.broker.started(n, w);
        self.listed.take(n);
    }

    /// Task `n`, which was in flight, has finished. It takes no memory.
    pub fn finished(&mut self, n: u32)
        requires { IsSome (job_of self.old n) }
        ensures ended { EndsTask n self.old self.new }
        ensures listed { (m : ℕ) → listed_of self.new m ≡ listed_of self.old m }
        ensures failures { (m : ℕ) → failures_of self.new m ≡ failures_of self.old m }
        ensures lapses { (u : ℕ) → lapses_of self.new u ≡ lapses_of self.old u }
    {
        self.broker.finished(n);
    }

    /// The task, which was in flight, has failed, and its worker with it. It is listed again.
    /// `Task` exactly where this is the `tries`-th failure of the task. It takes no memory.
    pub fn failed(&mut self, r: Ready) -> Loss
        requires flies { IsSome (job_of self.old r.n) }
        requires range { IsTaskInRange r }
        ensures ended { EndsTask r.n self.old self.new }
        ensures listed { (m : ℕ) →
            listed_of self.new m ≡ (if r.n == m then Some r else listed_of self.old m) }
        ensures failures { (m : ℕ) → failures_of self.new m ≡
            (if r.n == m then min (failures_of self.old m + 1) most else failures_of self.old m) }
        ensures lapses { (u op : ℕ) → takes_of self.old u op ≡ true → lapses_of self.new u
            ≡ min (lapses_of self.old u + is_on (job_of self.old r.n) u) most }
        ensures loss { IsLoss (failures_of self.old r.n) (tries_of self.old) r.n result }
    {
        let loss = self.broker.failed(r.n);
        self.listed.put(r);
        loss
    }
}
