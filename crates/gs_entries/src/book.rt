// Entries in order.
ghost use Rattle.std.specs.Prelude.{◌≡◌, ◌==◌, ◌++◌, [], ◌∷◌, true, false, OnOk, OnErr, IfSome};
ghost use Rattle.std.specs.List.{list_any};
ghost use Rattle.std.specs.Option.{option_to_list};
ghost use Rattle.gs_entries.specs.Order as order;
ghost use Rattle.gs_entries.specs.Order.{stage_of, done_by, has_done, follows, Takes};

use crate::entry::{Entry, Stage};
use crate::failure::Failure;
use crate::payload::decode;
use gs_types::NoMemory;
use indexmap::IndexSet;
use std::alloc::Global;
use std::marker::Model;

/// Entries in the order in which they stand, with their stage and the tasks that are done at hand.
/// It sees to it that no task is done twice.
#[derive(Drop)]
pub struct Book {
    alloc: Global,
    entries: Vec<Entry>,
    stage: Stage,
    dones: IndexSet<u32>,
}

impl Model for Book {
    ghost use Rattle.std.specs.Prelude.{◌≡◌, List};
    ghost use Rattle.gs_entries.specs.declared.entry.Entry.{Entry};
    ghost use Rattle.gs_entries.specs.Order.{stage_of, dones as tasks_done};

    ghost Value = { List Entry };

    ghost view = { λ b. b.entries.items };

    ghost invariant = { λ b. (b.stage ≡ stage_of b.entries.items)
        × (b.dones.keys ≡ tasks_done b.entries.items) };
}

fn stage_by(e: &Entry) -> Stage
    ensures { result ≡ order.stage_by e.now }
{
    match e {
        Entry::Header { .. } | Entry::Done { .. } => Stage::Running,
        Entry::Gate { .. } => Stage::Gated,
        Entry::Closed => Stage::Closed,
    }
}

fn later(one: Stage, other: Stage) -> Stage
    ensures { result ≡ order.later one other }
{
    match (one, other) {
        (Stage::Closed, _) | (_, Stage::Closed) => Stage::Closed,
        (Stage::Gated, _) | (_, Stage::Gated) => Stage::Gated,
        (Stage::Running, _) | (_, Stage::Running) => Stage::Running,
        (Stage::Fresh, Stage::Fresh) => Stage::Fresh,
    }
}

/// The task that an entry says is done.
fn task_of(e: &Entry) -> Option<u32>
    ensures { option_to_list result ≡ done_by e.now }
{
    match e {
        Entry::Done { n, .. } => Some(*n),
        Entry::Header { .. } | Entry::Gate { .. } | Entry::Closed => None,
    }
}

/// Puts a task that isn't there to those that are done. On want of memory nothing changes.
fn note_done(dones: &mut IndexSet<u32>, done: Option<u32>) -> Result<(), NoMemory>
    requires { IfSome done (λ n. list_any (λ m. n == m) dones.old.keys ≡ false) }
    ensures ok { OnOk result (dones.new.keys ≡ dones.old.keys ++ option_to_list done) }
    ensures err { OnErr result (dones.new.keys ≡ dones.old.keys) }
{
    let Some(n) = done else {
        return Ok(());
    };
    match dones.insert_full(n) {
        Ok(_) => Ok(()),
        Err(_) => Err(NoMemory),
    }
}

impl Book {
    /// No entries. It takes no memory.
    pub fn new(alloc: Global) -> Book
        ensures { result ≡ [] }
    {
        Book {
            alloc,
            entries: Vec::new(alloc),
            stage: Stage::Fresh,
            dones: IndexSet::new(alloc),
        }
    }

    /// The latest stage that an entry leads to.
    pub fn stage(&self) -> Stage
        ensures { result ≡ stage_of self.now }
    {
        self.stage
    }

    /// An entry says that this task is done.
    pub fn has_done(&self, n: u32) -> bool
        ensures { result ≡ has_done self.now n }
    {
        self.dones.contains(&n)
    }

    /// All entries.
    pub fn entries(&self) -> &[Entry]
        ensures { result.now ≡ self.now }
    {
        self.entries.as_slice()
    }

    /// The entry may stand behind these.
    pub fn follows(&self, e: &Entry) -> bool
        ensures { result ≡ follows self.now e.now }
    {
        match (self.stage, e) {
            (Stage::Fresh, Entry::Header { .. }) => true,
            (Stage::Running, Entry::Done { n, .. }) => !self.has_done(*n),
            (Stage::Running, Entry::Gate { .. }) => true,
            (Stage::Gated, Entry::Closed) => true,
            _ => false,
        }
    }

    /// Puts an entry that may stand behind these there. On want of memory nothing changes.
    pub fn push(&mut self, e: Entry) -> Result<(), NoMemory>
        requires { follows self.old e ≡ true }
        ensures ok { OnOk result (self.new ≡ self.old ++ e ∷ []) }
        ensures err { OnErr result (self.new ≡ self.old) }
    {
        let stage = later(self.stage, stage_by(&e));
        let done = task_of(&e);
        self.entries.push(e)?;
        match note_done(&mut self.dones, done) {
            Ok(()) => {
                self.stage = stage;
                Ok(())
            }
            Err(_) => {
                let _ = self.entries.pop();
                Err(NoMemory)
            }
        }
    }

    /// Takes the entry that a payload is. `NotEntry` exactly where it is none, or may not stand
    /// behind these. At an error nothing changes.
    #[tactic(auto, unfolding(crate::specs::Order::accepted))]
    pub fn take(&mut self, payload: &[u8]) -> Result<(), Failure>
        ensures { Takes self.old self.new payload.now result }
    {
        let e = match decode(self.alloc, payload) {
            Ok(e) => e,
            Err(failure) => return Err(failure),
        };
        if !self.follows(&e) {
            return Err(Failure::NotEntry);
        }
        match self.push(e) {
            Ok(()) => Ok(()),
            Err(_) => Err(Failure::NoMemory),
        }
    }
}
