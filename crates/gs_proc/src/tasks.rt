// The jobs in flight and their children.
ghost use Rattle.std.specs.Prelude.{◌≡◌, ◌<◌, [], ◌∷◌, ◌++◌, length, Some, None, IfOk, IfSome, OnOk, slice_get};
ghost use Rattle.gs_site.specs.Jobs.{job_at, without};
ghost use Rattle.gs_proc.specs.Tasks.{calls};
ghost use Rattle.gs_proc.specs.Ends.{IsEnd};

use crate::task::{End, Task};
use crate::wait::wait;
use gs_types::NoMemory;
use std::alloc::Global;
use std::marker::Model;
use std::process::{Child, OpenProcess};
use std::time::Clock;

/// The tasks in flight, in the order of their starts, each number once.
#[derive(Drop)]
pub(crate) struct Tasks<C> {
    items: Vec<Task<C>>,
}

impl<C> Model for Tasks<C> {
    ghost use Rattle.std.specs.Prelude.{◌-◌, vec_len, vec_capacity};
    ghost use Rattle.gs_proc.specs.Tasks.{calls, AreApart, Crew};

    ghost Value = { Crew C };

    ghost view = { λ t. record {
      list = t.items.items;
      room = vec_capacity t.items - vec_len
          t.items;
    } };

    ghost invariant = { λ t. AreApart (calls t.items.items) };
}

impl<C> Tasks<C> {
    pub(crate) fn new(alloc: Global) -> Tasks<C>
        ensures { result.list ≡ [] }
    {
        Tasks {
            items: Vec::new(alloc),
        }
    }

    /// Makes room for one more. On want of memory the tasks stay.
    pub(crate) fn reserve(&mut self) -> Result<(), NoMemory>
        ensures list { self.new.list ≡ self.old.list }
        ensures room { OnOk result (0 < self.new.room) }
    {
        self.items.reserve(1)?;
        Ok(())
    }

    /// Puts a task behind the others, for which there is room.
    pub(crate) fn push(&mut self, task: Task<C>)
    where
        C: Drop,
        requires room { 0 < self.old.room }
        requires free { job_at (calls self.old.list) task.call.n ≡ None }
        ensures { self.new.list ≡ self.old.list ++ task ∷ [] }
    {
        match self.items.push(task) {
            Ok(()) => {}
            Err(_) => unreachable!(),
        }
    }

    /// The task at a place, which is the only one of its number.
    pub(crate) fn at(&self, place: usize) -> &Task<C>
        requires { place < length self.now.list }
        ensures here { slice_get self.now.list place ≡ Some result.now }
        ensures only { job_at (calls self.now.list) result.now.call.n ≡ Some result.now.call }
    {
        &self.items[place]
    }

    /// Takes the task at a place out.
    pub(crate) fn take(&mut self, place: usize) -> Task<C>
        requires { place < length self.old.list }
        ensures here { slice_get self.old.list place ≡ Some result }
        ensures calls { calls self.new.list ≡ without result.call.n (calls self.old.list) }
    {
        self.items.remove(place)
    }

    /// Lets all tasks go.
    pub(crate) fn clear(&mut self)
    where
        C: Drop,
        ensures { self.new.list ≡ [] }
    {
        self.items.clear();
    }
}

impl<P: OpenProcess> Tasks<Child<P>> {
    /// Sleeps until the child of a task has ended.
    pub(crate) fn wait<K: Clock>(&mut self, clock: &K) -> Result<Option<End>, NoMemory>
        ensures calls { calls self.new.list ≡ calls self.old.list }
        ensures end { IfOk result (λ end. IfSome end (IsEnd self.new.list)) }
    {
        wait(clock, &mut self.items)
    }
}
