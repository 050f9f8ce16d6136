// What comes of the other questions.
#![tactic(auto, unfolding(crate::specs::Table::mains_in, crate::specs::Table::looked_in))]

ghost use Rattle.std.specs.Prelude.{◌≡◌, ◌++◌, ◌∷◌, [], ◌<◌, ◌+◌, ◌≤◌, ℕ, List, length, IfOk, IfSome, IsSome, OnOk, ◌^◌, Some, None, Option, true, false};
ghost use Rattle.gs_types.specs.History.{History};
ghost use Rattle.gs_tree.specs.declared.tree.Mode.{Mode};
ghost use Rattle.gs_talk.specs.declared.question.Answer as answer;
ghost use Rattle.gs_talk.specs.declared.question.Answer.TheVariants as said;
ghost use Rattle.gs_talk.specs.declared.question.Question.TheVariants as q;
ghost use Rattle.gs_talk.specs.Talk.{Dialogue};
ghost use Rattle.gs_history.specs.Setup.{Setup};
ghost use Rattle.gs_history.specs.Frontier.{MayAnswer};
ghost use Rattle.gs_tables.specs.Asked.{scalar_of};
ghost use Rattle.gs_tables.specs.Table.{mains_in, looked_in};
ghost use Rattle.gs_tables.specs.Holds.{Holds};
ghost use Rattle.gs_tables.specs.Asked.{IsNext, IsDueAnswer, HasGone, IsUsed, IsOpening};

use crate::lengths::{main_length, noted_length, out_at};
use crate::marking::{mark_barrier, mark_read, mark_use, mark_write};
use crate::tables::Tables;
use gs_types::{Name, NoMemory, Note, Text, Version};
use std::alloc::Global;

/// A number or a string that a task gave.
#[derive(Drop)]
pub enum Scalar {
    Int { v: i64 },
    Str { s: Text },
}

fn scalar_of(alloc: Global, v: &Note) -> Result<Option<Scalar>, NoMemory>
    ensures { IfOk result (λ o. o ≡ scalar_of v.now) }
{
    match v {
        Note::File { len: _ } => Ok(None),
        Note::Int { v } => Ok(Some(Scalar::Int { v: *v })),
        Note::Str { s } => Ok(Some(Scalar::Str { s: s.copy(alloc)? })),
    }
}

impl Tables {
    /// The program uses what task `n` gave at a place, from 1: the number or the string there;
    /// `None` exactly where the task has not finished. The only error is want of memory, after
    /// which the tables aren't used again.
    pub fn value(&mut self, n: u32, place: u8) -> Result<Option<Scalar>, NoMemory>
        ensures looks { OnOk result (looked_in self.new ≡ looked_in self.old) }
        ensures mains { OnOk result (mains_in self.new ≡ mains_in self.old) }
        ensures came { (s : Setup) (k : ℕ) (h : History) (next : answer.Answer → Dialogue) →
            Holds self.old s k h → IsNext s k (q.Use n place) next →
            IfOk result (IsUsed s k h n place next self.new) }
    {
        match out_at(&self.rows, n, place) {
            None => Ok(None),
            Some(v) => match scalar_of(self.alloc, v)? {
                None => Ok(None),
                Some(found) => {
                    mark_use(&mut self.graph, n, place)?;
                    Ok(Some(found))
                }
            },
        }
    }

    /// The program waits for all tasks: whether each has finished. The only error is want of
    /// memory, after which the tables aren't used again.
    pub fn barrier(&mut self) -> Result<bool, NoMemory>
        ensures looks { OnOk result (looked_in self.new ≡ looked_in self.old) }
        ensures mains { OnOk result (mains_in self.new ≡ mains_in self.old) }
        ensures went { (s : Setup) (k : ℕ) (h : History) (next : answer.Answer → Dialogue) →
            Holds self.old s k h → IsNext s k q.Barrier next →
            IfOk result (λ done. done ≡ true → HasGone self.new s k h next said.Went) }
        ensures waits { (s : Setup) (k : ℕ) (h : History) (next : answer.Answer → Dialogue) →
            Holds self.old s k h → IsNext s k q.Barrier next →
            IfOk result (λ done. done ≡ false → Holds self.new s k h × (MayAnswer s h k q.Barrier
            → ⊥)) }
    {
        if self.unfinished > 0 {
            return Ok(false);
        }
        mark_barrier(&mut self.graph)?;
        Ok(true)
    }

    /// The program opens a file: its version, with its length in bytes where a task or the program
    /// made it; `None` exactly where the task that makes it has not finished.
    pub fn opening(&self, name: &Name) -> Option<(Version, Option<u64>)>
        ensures { (s : Setup) (k : ℕ) (h : History) (mode : Mode) (line : ℕ)
            (next : answer.Answer → Dialogue) → Holds self.now s k h →
            IsNext s k (q.OpenFile name.now mode line) next →
            IsOpening s k h (q.OpenFile name.now mode line) name.now result }
    {
        match self.names.current(name) {
            Version::Original { name } => Some((Version::Original { name }, None)),
            Version::Main { k } => {
                let len = main_length(&self.mains, k);
                Some((Version::Main { k }, Some(len)))
            }
            Version::Out { n, place } => match out_at(&self.rows, n, place) {
                None => None,
                Some(v) => Some((Version::Out { n, place }, Some(noted_length(v)))),
            },
        }
    }

    /// The file was opened. The only error is want of memory, after which the tables aren't used
    /// again.
    pub fn opened(&mut self, name: &Name) -> Result<(), NoMemory>
        ensures looks { OnOk result (looked_in self.new ≡ looked_in self.old) }
        ensures mains { OnOk result (mains_in self.new ≡ mains_in self.old) }
        ensures went { (s : Setup) (k : ℕ) (h : History) (mode : Mode) (line : ℕ)
            (a : answer.Answer) (next : answer.Answer → Dialogue) → Holds self.old s k h →
            IsNext s k (q.OpenFile name.now mode line) next →
            IsDueAnswer s k h (q.OpenFile name.now mode line) a →
            OnOk result (HasGone self.new s k h next a) }
    {
        mark_read(&mut self.names, &mut self.graph, name)?;
        Ok(())
    }

    /// The number, from 1, of the next content that the program closes; `None` where the numbers
    /// end.
    pub fn next_main(&self) -> Option<u32>
        ensures number { IfSome result (λ k. k ≡ length (mains_in self.now) + 1) }
        ensures some { length (mains_in self.now) + 1 < 2 ^ 32 → IsSome result }
    {
        u32::try_from(self.mains.len() + 1).ok()
    }

    /// The program has closed a file of so many bytes. The only error is want of memory, after
    /// which the tables aren't used again.
    pub fn closed(&mut self, name: &Name, len: u64) -> Result<(), NoMemory>
        ensures looks { OnOk result (looked_in self.new ≡ looked_in self.old) }
        ensures mains { OnOk result (mains_in self.new ≡ mains_in self.old ++ len ∷ []) }
        ensures went { (s : Setup) (k : ℕ) (h : History) (bytes : List ℕ)
            (next : answer.Answer → Dialogue) → Holds self.old s k h →
            IsNext s k (q.CloseFile name.now bytes) next → len ≡ length bytes →
            OnOk result (HasGone self.new s k h next said.Went) }
    {
        let Some(k) = self.next_main() else {
            return Err(NoMemory);
        };
        self.mains.push(len)?;
        self.names.reserve(1)?;
        mark_write(&mut self.names, &mut self.graph, name)?;
        self.names.write(name, Version::Main { k });
        Ok(())
    }
}
