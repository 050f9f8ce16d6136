// The listed tasks.
#![tactic(auto, unfolding(crate::specs::Views::size_in, crate::specs::Views::task_in))]

ghost use Rattle.std.specs.Prelude.{◌≡◌, ◌≤◌, ◌<◌, ◌^◌, length, vec_capacity};
ghost use Rattle.gs_queue.specs.Fronts.{task_at, last_at, AreNumbered, AreFronts};

use crate::arrays::{push_last, set_task, task_at};
use crate::kinds::{enter, leave};
use gs_broker::Ready;
use gs_types::NoMemory;
use std::alloc::Global;

/// Tasks by number, from 1, and the first of each operation and length: what a start costs depends
/// on nothing else.
#[derive(Drop)]
pub(crate) struct Listed {
    // The task, where it is listed.
    tasks: Vec<Option<Ready>>,
    // At the number of a front: no listed task like it has a greater number than this.
    last: Vec<u32>,
    // By rising number.
    fronts: Vec<Ready>,
    ghost same: { length last.items ≡ length tasks.items },
    ghost few: { length tasks.items < 2 ^ 32 },
    ghost room: { length tasks.items ≤ vec_capacity fronts },
    ghost numbers: { AreNumbered (task_at tasks.items) },
    ghost first: { AreFronts (length tasks.items) (task_at tasks.items) (last_at last.items)
        fronts.items },
}

impl Listed {
    ghost use Rattle.std.specs.Prelude.{◌≡◌, ◌≤◌, ◌<◌, ◌+◌, ◌==◌, ◌^◌, ℕ, OnOk, OnErr, Some, None, if◌then◌else◌};
    ghost use Rattle.gs_queue.specs.Fronts.{StandForAll};
    ghost use Rattle.gs_queue.specs.Views.{size_in, task_in};

    // No number. It takes no memory.
    pub(crate) fn new(alloc: Global) -> Listed
        ensures size { size_in result ≡ 0 }
        ensures tasks { (n : ℕ) → task_in result n ≡ None }
    {
        Listed {
            tasks: Vec::new(alloc),
            last: Vec::new(alloc),
            fronts: Vec::new(alloc),
        }
    }

    // One number more, with the room that its task will ever need.
    pub(crate) fn grow(&mut self) -> Result<(), NoMemory>
        requires { size_in self.old + 1 < 2 ^ 32 }
        ensures ok { OnOk result (size_in self.new ≡ size_in self.old + 1) }
        ensures err { OnErr result (size_in self.new ≡ size_in self.old) }
        ensures tasks { (n : ℕ) → task_in self.new n ≡ task_in self.old n }
    {
        self.tasks.reserve(1)?;
        self.last.reserve(1)?;
        self.fronts.reserve(self.tasks.len() + 1)?;
        push_last(&mut self.tasks, None);
        push_last(&mut self.last, 0);
        Ok(())
    }

    // How many numbers there are.
    pub(crate) fn count(&self) -> u32
        ensures { result ≡ size_in self.now }
    {
        self.tasks.len() as u32
    }

    // The listed task of this number.
    pub(crate) fn task(&self, n: u32) -> Option<Ready>
        ensures { result ≡ task_in self.now n }
    {
        task_at(&self.tasks, n)
    }

    // The first of each operation and length, by rising number.
    pub(crate) fn fronts(&self) -> &[Ready]
        ensures { StandForAll (task_in self.now) result.now }
    {
        &self.fronts
    }

    // Lists the task at its number.
    pub(crate) fn put(&mut self, r: Ready)
        requires numbered { (0 < r.n) × (r.n ≤ size_in self.old) }
        requires absent { task_in self.old r.n ≡ None }
        ensures size { size_in self.new ≡ size_in self.old }
        ensures tasks { (m : ℕ) →
            task_in self.new m ≡ (if r.n == m then Some r else task_in self.old m) }
    {
        enter(&self.tasks, &mut self.last, &mut self.fronts, r);
        set_task(&mut self.tasks, r.n, Some(r));
    }

    // Takes the task of this number out, where it is listed.
    pub(crate) fn take(&mut self, n: u32)
        ensures size { size_in self.new ≡ size_in self.old }
        ensures tasks { (m : ℕ) →
            task_in self.new m ≡ (if n == m then None else task_in self.old m) }
    {
        let Some(r) = self.task(n) else {
            return;
        };
        leave(&self.tasks, &mut self.last, &mut self.fronts, r);
        set_task(&mut self.tasks, n, None);
    }
}
