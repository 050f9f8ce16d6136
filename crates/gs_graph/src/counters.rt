// Tasks from 0 on, with the number of their unfinished producers and the list of their successors.
#![tactic(auto, unfolding(crate::specs::Counted::size_in, crate::specs::Counted::ended_in, crate::specs::Counted::waits_in, crate::specs::Counted::due_in, crate::specs::Counted::after_in))]

ghost use Rattle.std.specs.Prelude.{◌≡◌, ◌≤◌, ◌<◌, ℕ, length, slice_index, true, vec_capacity};
ghost use Rattle.gs_graph.specs.Numbers.{has, rises};
ghost use Rattle.gs_graph.specs.Edges.{after, done_at, open_of, is_due, all_below};

use crate::edges::{after_at, open_count, push_edges, push_last};
use crate::lower::{is_done, is_free, lower_all, put_if, set_done};
use crate::numbers::{item_at, take_out};
use std::alloc::{AllocError, Global};

/// Tasks with what they wait for, and those that may run.
#[derive(Drop)]
pub(crate) struct Counters {
    // How many producers of each task have not finished.
    missing: Vec<usize>,
    done: Vec<bool>,
    // The tasks that have this one as a producer.
    next: Vec<Vec<usize>>,
    // The tasks that have not finished and whose producers are all finished, by rising number: a
    // look-up by place is then one step, and one by number a binary search. A change moves what
    // stands behind it, 80,000 bytes at most for the 10,000 tasks of a run; a tree would want
    // memory in `finish`.
    ready: Vec<usize>,
    alloc: Global,
    ghost done_same: { length done.items ≡ length missing.items },
    ghost next_same: { length next.items ≡ length missing.items },
    ghost later: { (p : ℕ) → all_below (length missing.items) (after next.items p) ≡ true },
    ghost opened: { (m : ℕ) → m < length missing.items → slice_index missing.items m
        ≡ open_of (after next.items) (done_at done.items) m (length missing.items) },
    ghost rising: { rises 0 (length missing.items) ready.items ≡ true },
    ghost listed: { (m : ℕ) → has m ready.items
        ≡ is_due (length missing.items) (done_at done.items) (slice_index missing.items) m },
    ghost room: { length missing.items ≤ vec_capacity ready },
}

impl Counters {
    ghost use Rattle.std.specs.Prelude.{◌≡◌, ◌≤◌, ◌<◌, ◌+◌, ℕ, length, slice_get, OnOk, OnErr, IfSome, Some, true, false};
    ghost use Rattle.gs_graph.specs.Numbers.{has};
    ghost use Rattle.gs_graph.specs.Edges.{all_below, done_too, waiting_too};
    ghost use Rattle.gs_graph.specs.Counted.{size_in, ended_in, waits_in, due_in, after_in, ListsDue};

    pub(crate) fn new(alloc: Global) -> Counters
        ensures count { size_in result ≡ 0 }
        ensures done { (m : ℕ) → ended_in result m ≡ false }
        ensures needs { (m p : ℕ) → waits_in result m p ≡ false }
    {
        Counters {
            missing: Vec::new(alloc),
            done: Vec::new(alloc),
            next: Vec::new(alloc),
            ready: Vec::new(alloc),
            alloc,
        }
    }

    /// The next task, with its producers. On want of memory nothing changes.
    pub(crate) fn add(&mut self, producers: &[usize]) -> Result<(), AllocError>
        requires { all_below (size_in self.old) producers.now ≡ true }
        ensures count { OnOk result (size_in self.new ≡ size_in self.old + 1) }
        ensures done { (m : ℕ) → ended_in self.new m ≡ ended_in self.old m }
        ensures fresh { OnOk result (ended_in self.new (size_in self.old) ≡ false) }
        ensures needs { OnOk result ((m p : ℕ) → waits_in self.new m p
            ≡ waiting_too (size_in self.old) producers.now (waits_in self.old) m p) }
        ensures same { OnErr result ((size_in self.new ≡ size_in self.old) × ((m p : ℕ) →
            waits_in self.new m p ≡ waits_in self.old m p)) }
        ensures list { OnErr result (due_in self.new ≡ due_in self.old) }
    {
        let n = self.missing.len();
        self.missing.reserve(1)?;
        self.done.reserve(1)?;
        self.next.reserve(1)?;
        self.ready.reserve(n + 1)?;
        push_edges(&mut self.next, producers, n)?;
        let open = open_count(&self.done, producers);
        push_last(&mut self.next, Vec::new(self.alloc));
        push_last(&mut self.missing, open);
        push_last(&mut self.done, false);
        put_if(&mut self.ready, n, open == 0);
        Ok(())
    }

    /// The task has finished.
    pub(crate) fn finish(&mut self, n: usize)
        requires { n < size_in self.old }
        ensures count { size_in self.new ≡ size_in self.old }
        ensures done { (m : ℕ) → ended_in self.new m ≡ done_too n (ended_in self.old) m }
        ensures needs { (m p : ℕ) → waits_in self.new m p ≡ waits_in self.old m p }
    {
        if self.done[n] {
            return;
        }
        set_done(&mut self.done, n);
        take_out(&mut self.ready, n);
        lower_all(
            &mut self.missing,
            &self.done,
            &self.next[n],
            &mut self.ready,
        );
    }

    /// The `i`-th of the tasks that may run, by rising number.
    pub(crate) fn ready_at(&self, i: usize) -> Option<usize>
        ensures item { result ≡ slice_get (due_in self.now) i }
        ensures list { ListsDue self.now }
        ensures within { IfSome result (λ m. m < size_in self.now) }
    {
        item_at(&self.ready, i)
    }

    /// Whether the task may run.
    pub(crate) fn is_due(&self, m: usize) -> bool
        ensures due { result ≡ has m (due_in self.now) }
        ensures list { ListsDue self.now }
    {
        m < self.missing.len() && is_free(&self.missing, &self.done, m)
    }

    /// The `i`-th of the tasks that have this one as a producer.
    pub(crate) fn after_at(&self, p: usize, i: usize) -> Option<usize>
        ensures item { result ≡ slice_get (after_in self.now p) i }
        ensures list { (m : ℕ) → has m (after_in self.now p) ≡ waits_in self.now m p }
        ensures within { IfSome result (λ m. m < size_in self.now) }
    {
        after_at(&self.next, p, i)
    }

    /// Whether the task has finished.
    pub(crate) fn has_ended(&self, m: usize) -> bool
        ensures { result ≡ ended_in self.now m }
    {
        is_done(&self.done, m)
    }

    /// How many tasks there are.
    pub(crate) fn count(&self) -> usize
        ensures { result ≡ size_in self.now }
    {
        self.missing.len()
    }
}
