// The graph of tasks.
#![tactic(auto, unfolding(crate::specs::Graph::count_in, crate::specs::Graph::done_in, crate::specs::Graph::needs_in, crate::specs::Graph::ready_in, crate::specs::Graph::followers_in, crate::specs::Graph::actions_in))]

ghost use Rattle.std.specs.Prelude.{◌≡◌, ◌<◌, ◌≤◌, ◌-◌, ◌^◌, ℕ, map, All, IfOk};
ghost use Rattle.gs_graph.specs.Counted.{size_in};

use crate::counters::Counters;
use gs_types::{Action, NoMemory, Sequence};
use std::alloc::{AllocError, Global};

/// Tasks, numbered from 1, with their producers, and the actions of the main program.
#[derive(Drop)]
pub struct Graph {
    counters: Counters,
    actions: Sequence<Action>,
    alloc: Global,
    ghost few: { size_in counters < 2 ^ 32 },
}

// The tasks' places, from 0.
fn places(alloc: Global, tasks: &[u32]) -> Result<Vec<usize>, AllocError>
    requires { All (λ n. 0 < n) tasks.now }
    ensures { IfOk result (λ v. v.items ≡ map (λ n. n - 1) tasks.now) }
{
    let mut places = Vec::new(alloc);
    for n in tasks {
        places.push(*n as usize - 1)?;
    }
    Ok(places)
}

impl Graph {
    ghost use Rattle.std.specs.Prelude.{◌≡◌, ◌<◌, ◌≤◌, ◌+◌, ◌++◌, ◌∷◌, [], ℕ, All, IfSome, slice_get, OnOk, OnErr, true, false};
    ghost use Rattle.gs_graph.specs.Numbers.{has};
    ghost use Rattle.gs_graph.specs.Edges.{done_too, waiting_too};
    ghost use Rattle.gs_graph.specs.Graph.{count_in, done_in, needs_in, ready_in, followers_in, actions_in, ListsReady, ListsFollowers, SameTasks};

    /// A graph without tasks and actions. It takes no memory.
    pub fn new(alloc: Global) -> Graph
        ensures count { count_in result ≡ 0 }
        ensures done { (n : ℕ) → done_in result n ≡ false }
        ensures needs { (n p : ℕ) → needs_in result n p ≡ false }
        ensures actions { actions_in result ≡ [] }
    {
        Graph {
            counters: Counters::new(alloc),
            actions: Sequence::new(alloc),
            alloc,
        }
    }

    /// Adds task `n`, one more than the last, with its producers, which are earlier tasks. On want
    /// of memory nothing changes.
    pub fn add(&mut self, n: u32, producers: &[u32]) -> Result<(), NoMemory>
        requires next { n ≡ count_in self.old + 1 }
        requires earlier { All (λ p. (0 < p) × (p < n)) producers.now }
        ensures count { OnOk result (count_in self.new ≡ n) }
        ensures done { OnOk result ((m : ℕ) → done_in self.new m ≡ done_in self.old m) }
        ensures fresh { OnOk result (done_in self.new n ≡ false) }
        ensures needs { OnOk result ((m p : ℕ) →
            needs_in self.new m p ≡ waiting_too n producers.now (needs_in self.old) m p) }
        ensures actions { actions_in self.new ≡ actions_in self.old }
        ensures err { OnErr result (SameTasks self.old self.new) }
    {
        let places = places(self.alloc, producers)?;
        self.counters.add(places.as_slice())?;
        Ok(())
    }

    /// Task `n`, which was added, has finished.
    pub fn finish(&mut self, n: u32)
        requires { (0 < n) × (n ≤ count_in self.old) }
        ensures count { count_in self.new ≡ count_in self.old }
        ensures done { (m : ℕ) → done_in self.new m ≡ done_too n (done_in self.old) m }
        ensures needs { (m p : ℕ) → needs_in self.new m p ≡ needs_in self.old m p }
        ensures actions { actions_in self.new ≡ actions_in self.old }
    {
        self.counters.finish(n as usize - 1);
    }

    /// The `i`-th, from 0, by rising number, of the tasks that have not finished and whose
    /// producers are all finished. `None` exactly past the last of them.
    pub fn ready_at(&self, i: u32) -> Option<u32>
        ensures item { result ≡ slice_get (ready_in self.now) i }
        ensures list { ListsReady self.now }
    {
        match self.counters.ready_at(i as usize) {
            Some(place) => Some(place as u32 + 1),
            None => None,
        }
    }

    /// Whether task `n` has not finished and its producers are all finished: one that was not added
    /// is not ready. It takes the time of two look-ups.
    pub fn is_ready(&self, n: u32) -> bool
        ensures ready { result ≡ has n (ready_in self.now) }
        ensures list { ListsReady self.now }
    {
        n > 0 && self.counters.is_due(n as usize - 1)
    }

    /// The `i`-th, from 0, of the tasks that have task `n` as a producer, each as often as it has
    /// it. `None` exactly past the last of them.
    pub fn follower(&self, n: u32, i: u32) -> Option<u32>
        ensures item { result ≡ slice_get (followers_in self.now n) i }
        ensures list { ListsFollowers self.now n }
        ensures added { IfSome result (λ m. (0 < m) × (m ≤ count_in self.now)) }
    {
        if n == 0 {
            return None;
        }
        match self.counters.after_at(n as usize - 1, i as usize) {
            Some(m) => Some(m as u32 + 1),
            None => None,
        }
    }

    /// Whether task `n` has finished: one that was not added has not.
    pub fn is_done(&self, n: u32) -> bool
        ensures { result ≡ done_in self.now n }
    {
        n > 0 && self.counters.has_ended(n as usize - 1)
    }

    /// How many tasks were added; they have the numbers from 1 to this one.
    pub fn count(&self) -> u32
        ensures { result ≡ count_in self.now }
    {
        self.counters.count() as u32
    }

    /// Notes an action behind the others. On want of memory nothing changes.
    pub fn note(&mut self, a: Action) -> Result<(), NoMemory>
        ensures ok { OnOk result (actions_in self.new ≡ actions_in self.old ++ a ∷ []) }
        ensures err { OnErr result (actions_in self.new ≡ actions_in self.old) }
        ensures tasks { SameTasks self.old self.new }
    {
        self.actions.push(a)
    }

    /// The actions that were noted, in order.
    pub fn actions(&self) -> &[Action]
        ensures { result.now ≡ actions_in self.now }
    {
        self.actions.items()
    }
}
