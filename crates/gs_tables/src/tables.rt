// The tables.
#![tactic(auto, unfolding(crate::specs::Table::called_in, crate::specs::Table::mains_in, crate::specs::Table::looked_in))]

use crate::noted::{DoneNote, Notes};
use crate::row::Row;
use gs_graph::Graph;
use gs_looks::{Looks, Seen};
use gs_names::NameTable;
use gs_types::{Name, NoMemory};
use std::alloc::Global;

/// What is kept of a run: what earlier calls recorded, the files that were looked at for a call,
/// how long the contents are that the program closed, the names of files with their versions, the
/// tasks, who waits for whom, how many tasks have not finished, and how many may be.
#[derive(Drop)]
pub struct Tables {
    pub(crate) notes: Notes,
    pub(crate) looks: Looks,
    pub(crate) mains: Vec<u64>,
    pub(crate) names: NameTable,
    pub(crate) rows: Vec<Row>,
    pub(crate) graph: Graph,
    pub(crate) unfinished: u32,
    pub(crate) window: u32,
    pub(crate) alloc: Global,
}

impl Tables {
    ghost use Rattle.std.specs.Prelude.{◌≡◌, ◌++◌, ◌∷◌, [], ℕ, List, map, IfOk, OnOk};
    ghost use Rattle.gs_types.specs.History.{History};
    ghost use Rattle.gs_idl.specs.Interface.{KeepRules};
    ghost use Rattle.gs_talk_laws.specs.Stuck.{AreKnown};
    ghost use Rattle.gs_history.specs.Setup.{Setup};
    ghost use Rattle.gs_history.specs.Notes.{AreNoted};
    ghost use Rattle.gs_history.specs.Setup.{count_at};
    ghost use Rattle.gs_history.specs.Frontier.{unfinished};
    ghost use Rattle.gs_looks.specs.Looked.{IsSeen, looked};
    ghost use Rattle.gs_tables.specs.Table.{called_in, mains_in, looked_in};
    ghost use Rattle.gs_tables.specs.Noted.{noting_of};
    ghost use Rattle.gs_tables.specs.Holds.{Holds};

    /// Tables of a run that has asked nothing yet: what earlier calls recorded, and how many calls
    /// may be unfinished at once. The only error is want of memory.
    pub fn new(alloc: Global, notes: Vec<DoneNote>, window: u32) -> Result<Tables, NoMemory>
        ensures { (s : Setup) (h : History) → KeepRules s.run.texts.ops → AreKnown s.run.files →
            s.notes ≡ map noting_of notes.items → s.window ≡ window → AreNoted s s.notes h →
            IfOk result (λ t. Holds t s 0 h) }
    {
        Ok(Tables {
            notes: Notes::new(alloc, notes)?,
            looks: Looks::new(alloc),
            mains: Vec::new(alloc),
            names: NameTable::new(alloc),
            rows: Vec::new(alloc),
            graph: Graph::new(alloc),
            unfinished: 0,
            window,
            alloc,
        })
    }

    /// How many tasks were called.
    pub fn count(&self) -> usize
        ensures count { result ≡ called_in self.now }
        ensures says { (s : Setup) (k : ℕ) (h : History) → Holds self.now s k h →
            result ≡ count_at s k }
    {
        self.rows.len()
    }

    /// How many of them have not finished.
    pub fn unfinished(&self) -> u32
        ensures { (s : Setup) (k : ℕ) (h : History) → Holds self.now s k h →
            result ≡ unfinished h (count_at s k) }
    {
        self.unfinished
    }

    /// A file of the user's was looked at for the call that is asked. On want of memory nothing
    /// changes.
    pub fn look(&mut self, name: Name, seen: Seen) -> Result<(), NoMemory>
        ensures looks { OnOk result (looked_in self.new
            ≡ looked_in self.old ++ looked name seen ∷ []) }
        ensures mains { mains_in self.new ≡ mains_in self.old }
        ensures holds { (s : Setup) (k : ℕ) (h : History) → IsSeen (s.run.files name) seen →
            Holds self.old s k h → OnOk result (Holds self.new s k h) }
    {
        self.looks.add(name, seen)?;
        Ok(())
    }

    /// What was looked at counts no more.
    pub fn forget(&mut self)
        ensures looks { looked_in self.new ≡ [] }
        ensures mains { mains_in self.new ≡ mains_in self.old }
        ensures holds { (s : Setup) (k : ℕ) (h : History) → Holds self.old s k h →
            Holds self.new s k h }
    {
        self.looks.clear();
    }
}
