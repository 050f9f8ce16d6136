// The broker.
#![tactic(auto, using(crate::proofs::Totals::total_below, crate::proofs::Totals::slots_within), unfolding(crate::specs::Broker::workers_in, crate::specs::Broker::slots_in, crate::specs::Broker::takes_in, crate::specs::Broker::tries_in, crate::specs::Broker::job_in, crate::specs::Broker::busy_in, crate::specs::Broker::failures_in, crate::specs::Broker::lapses_in, crate::specs::Broker::is_known, crate::specs::Broker::spare_in, crate::specs::Listed::slots_of_list, crate::specs::Listed::takes_of_list))]

ghost use Rattle.std.specs.Prelude.{◌≡◌, ◌≤◌, ℕ, length, slice_index};
ghost use Rattle.slab.specs.Slab.{slab_len};
ghost use Rattle.gs_broker.specs.Counts.{total};
ghost use Rattle.gs_broker.specs.Workers.{slots_at, all_slots};

use crate::choice::{Ready, scan_tasks};
use crate::counts::{add_lapse, least_stranded, leave_slot, no_failures, take_slot, zeros};
use crate::jobs::{put_in, take_out, worker_at};
use crate::outcome::{Loss, chosen, count_slots, loss_at};
use crate::tasks::{Flight, Line, failures_at, key_at, put};
use crate::workers::Workers;
use gs_policy::{CostLaw, Policy, Prices};
use gs_types::{NoMemory, WORKER_FAILURES};
use slab::Slab;
use std::alloc::Global;
use std::collections::HashMap;

/// Workers with their jobs in flight.
#[derive(Drop)]
pub struct Broker {
    workers: Workers,
    busy: Vec<usize>,
    lapses: Vec<u32>,
    tasks: HashMap<u32, Line>,
    jobs: Slab<Flight>,
    tries: u32,
    ghost same: { (length busy.items ≡ length workers.list.items) × (length lapses.items
        ≡ length workers.list.items) },
    ghost within: { (w : ℕ) → slice_index busy.items w ≤ slots_at workers.list.items w },
    ghost counted: { slab_len jobs ≤ total busy.items },
    ghost room: { all_slots workers.list.items ≤ jobs.capacity },
}

impl Broker {
    ghost use Rattle.std.specs.Prelude.{◌≡◌, ◌≤◌, ◌<◌, ◌+◌, ◌-◌, ◌==◌, ◌⊎◌, ℕ, length, slice_get, slice_index, IfOk, OnOk, IsSome, Some, None, min, if◌then◌else◌, true, false};
    ghost use Rattle.gs_broker.specs.Choice.{AreInRange};
    ghost use Rattle.gs_broker.specs.Counts.{is_on, most};
    ghost use Rattle.gs_broker.specs.Workers.{slots_at};
    ghost use Rattle.gs_broker.specs.Broker.{slots_in, takes_in, tries_in, job_in, busy_in, failures_in, lapses_in, is_known, spare_in, usable_in, IsFresh, SameWorkers, SameJobs, workers_in, IsStarted, IsEnded, IsStrandedIn, IsPicked};
    ghost use Rattle.gs_broker.specs.Stranded.{IsLeastStranded};
    ghost use Rattle.gs_broker.specs.Outcome.{IsLoss};
    ghost use Rattle.gs_broker.specs.Tasks.{IsAnyJob, IsJobUnder};
    ghost use Rattle.slab.specs.Slab.{get as flight_at};
    ghost use Rattle.gs_types.specs.declared.limits.TheConstants.{TRIES_LIMIT};

    /// A broker of these workers: no job is in flight, nothing has failed, and a task is lost at
    /// its `tries`-th failure.
    pub fn new(alloc: Global, workers: Workers, tries: u32) -> Result<Broker, NoMemory>
        requires { (1 ≤ tries) × (tries ≤ TRIES_LIMIT) }
        ensures { IfOk result (IsFresh workers tries) }
    {
        let busy = zeros(alloc, workers.list.len())?;
        let lapses = no_failures(alloc, workers.list.len())?;
        let jobs = Slab::with_capacity(alloc, count_slots(workers.list.as_slice()))?;
        Ok(Broker {
            workers,
            busy,
            lapses,
            tasks: HashMap::new(alloc),
            jobs,
            tries,
        })
    }

    /// Takes room for so many tasks more. On want of memory nothing changes.
    pub fn reserve(&mut self, more: u32) -> Result<(), NoMemory>
        ensures room { OnOk result (more ≤ spare_in self.new) }
        ensures kept { spare_in self.old ≤ spare_in self.new }
        ensures workers { SameWorkers self.old self.new }
        ensures jobs { SameJobs self.old self.new }
    {
        self.tasks.reserve(more as usize)?;
        Ok(())
    }

    /// The list of workers.
    pub fn workers(&self) -> &Workers
        ensures { result.now ≡ workers_in self.now }
    {
        &self.workers
    }

    /// The worker on which task `n` is in flight; `None` exactly where it is not in flight.
    pub fn job(&self, n: u32) -> Option<u32>
        ensures { result ≡ job_in self.now n }
    {
        worker_at(&self.jobs, n, key_at(&self.tasks, n))
    }

    // The task in flight whose job stands under the key.
    fn job_under(&self, key: usize) -> Option<u32>
        ensures { IsJobUnder (job_in self.now) (flight_at self.now.jobs key) result }
    {
        match self.jobs.get(key) {
            None => None,
            Some(flight) => {
                if self.job(flight.n).is_some() {
                    Some(flight.n)
                } else {
                    None
                }
            }
        }
    }

    /// A task in flight; `None` exactly where none is. It looks at each place of a job once.
    pub fn any_job(&self) -> Option<u32>
        ensures { IsAnyJob (job_in self.now) result }
    {
        for key in 0..self.jobs.capacity() {
            if let Some(n) = self.job_under(key) {
                return Some(n);
            }
        }
        None
    }

    /// Task `n`, which is not in flight, starts on worker `w`, which has a free slot. It uses up at
    /// most one of the room that `reserve` took, and none where the task was started before.
    pub fn started(&mut self, n: u32, w: u32)
        requires idle { job_in self.old n ≡ None }
        requires free { busy_in self.old w < slots_in self.old w }
        requires room { (0 < spare_in self.old) ⊎ (is_known self.old n ≡ true) }
        ensures { IsStarted n w self.old self.new }
    {
        let failures = failures_at(&self.tasks, n);
        let key = put_in(&mut self.jobs, n, w);
        put(
            &mut self.tasks,
            n,
            Line {
                key: Some(key),
                failures,
            },
        );
        let w = w as usize;
        take_slot(&mut self.busy, w, self.workers.slots(w));
    }

    /// Task `n`, which was in flight, has finished.
    pub fn finished(&mut self, n: u32)
        requires { IsSome (job_in self.old n) }
        ensures ended { IsEnded n self.old self.new }
        ensures failures { (m : ℕ) → failures_in self.new m ≡ failures_in self.old m }
        ensures lapses { (u : ℕ) → lapses_in self.new u ≡ lapses_in self.old u }
    {
        let failures = failures_at(&self.tasks, n);
        let worker = take_out(&mut self.jobs, n, key_at(&self.tasks, n));
        put(
            &mut self.tasks,
            n,
            Line {
                key: None,
                failures,
            },
        );
        leave_slot(&mut self.busy, worker);
    }

    /// Task `n`, which was in flight, has failed, and its worker with it. `Task` exactly where this
    /// is the `tries`-th failure of the task.
    pub fn failed(&mut self, n: u32) -> Loss
        requires { IsSome (job_in self.old n) }
        ensures ended { IsEnded n self.old self.new }
        ensures failures { (m : ℕ) → failures_in self.new m ≡
            (if n == m then min (failures_in self.old m + 1) most else failures_in self.old m) }
        ensures lapses { (u op : ℕ) → takes_in self.old u op ≡ true →
            lapses_in self.new u ≡ min (lapses_in self.old u + is_on (job_in self.old n) u) most }
        ensures loss { IsLoss (failures_in self.old n) (tries_in self.old) n result }
    {
        let failures = failures_at(&self.tasks, n);
        let worker = take_out(&mut self.jobs, n, key_at(&self.tasks, n));
        put(
            &mut self.tasks,
            n,
            Line {
                key: None,
                failures: failures.saturating_add(1),
            },
        );
        leave_slot(&mut self.busy, worker);
        add_lapse(&mut self.lapses, worker);
        loss_at(failures, self.tries, n)
    }

    /// The least listed task all of whose workers have 5 or more failures; `None` exactly where
    /// there is none.
    pub fn no_worker(&self, ready: &[Ready]) -> Option<u32>
        ensures { IsLeastStranded (IsStrandedIn self.now) ready.now result }
    {
        least_stranded(self.workers.list.as_slice(), &self.lapses, ready)
    }

    // Whether the worker has a free slot and has not failed too often.
    fn is_usable(&self, w: usize) -> bool
        requires { w < length self.now.workers.list.items }
        ensures { result ≡ usable_in self.now w }
    {
        self.busy[w] < self.workers.slots(w) && self.lapses[w] < WORKER_FAILURES
    }

    /// The listed task and the worker that cost least under the policy's law, among workers that
    /// take the task, have a free slot and fewer than 5 failures; ties go by the task's number,
    /// then by the worker's. `None` exactly where there is no such pair. Costs are asked for at
    /// those pairs alone.
    pub fn pick<F: Prices, C: CostLaw>(
        &self,
        p: &Policy<F, C>,
        ready: &[Ready],
    ) -> Option<(u32, u32)>
        requires { AreInRange ready.now }
        ensures { IsPicked (C.cost p.now.law.value) self.now ready.now result }
    {
        let mut best = None;
        for w in 0..self.workers.list.len() {
            if self.is_usable(w) {
                best = scan_tasks(self.workers.list.as_slice(), w, p, ready, best);
            }
        }
        chosen(best)
    }
}
