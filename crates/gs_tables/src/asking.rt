// What comes of a call.
#![tactic(auto, unfolding(crate::specs::Table::mains_in, crate::specs::Table::looked_in))]

ghost use Rattle.std.specs.Prelude.{◌≡◌, ◌==◌, if◌then◌else◌, ◌<◌, ◌+◌, ◌≤◌, ◌^◌, ℕ, Bool, List, length, is_some, IfOk, OnOk, Some, None, Option, option_map, true, false};
ghost use Rattle.gs_types.specs.History.{History, outs_in};
ghost use Rattle.gs_types.specs.declared.note.OutNote as out_note;
ghost use Rattle.gs_idl.specs.Interface.{params_at};
ghost use Rattle.gs_talk.specs.declared.question.Answer as answer;
ghost use Rattle.gs_talk.specs.declared.question.Answer.TheVariants as said;
ghost use Rattle.gs_talk.specs.declared.question.Question.TheVariants as q;
ghost use Rattle.gs_talk.specs.Talk.{Dialogue};
ghost use Rattle.gs_talk.specs.Seq.{first_refused};
ghost use Rattle.gs_names.specs.Table.{writes_in};
ghost use Rattle.gs_names.specs.Writes.{latest};
ghost use Rattle.gs_looks.specs.Looked.{looks_in};
ghost use Rattle.gs_looks.specs.Judgement.{judged_call, read_with};
ghost use Rattle.gs_looks.specs.declared.judging.Judged.TheVariants as judged;
ghost use Rattle.gs_history.specs.Setup.{Setup, world_at, count_at};
ghost use Rattle.gs_tables.specs.Outs.{outs_noted};
ghost use Rattle.gs_history.specs.Notes.{NoMisfit};
ghost use Rattle.gs_history.specs.Frontier.{MayAnswer};
ghost use Rattle.gs_graph.specs.Graph.{count_in, done_in, needs_in, actions_in};
ghost use Rattle.gs_graph.specs.Edges.{done_too, waiting_too};
ghost use Rattle.gs_tables.specs.Sources.{sources};
ghost use Rattle.gs_tables.specs.Noted.{noting_in, misfit_of, noted_outs, one_unless};
ghost use Rattle.gs_tables.specs.Table.{mains_in, looked_in};
ghost use Rattle.gs_tables.specs.Holds.{Holds, AreOps};
ghost use Rattle.gs_tables.specs.Asked.{IsNext, HasGone, IsCalled};

use crate::lengths::kept_of;
use crate::marking::mark_call;
use crate::noted::{copy_outs, is_form};
use crate::places::{reads_of, write_all};
use crate::row::Row;
use crate::sources::sources_of;
use crate::tables::Tables;
use gs_graph::Graph;
use gs_idl::Idl;
use gs_looks::{Judged, judge};
use gs_talk::CallArg;
use gs_types::{Name, NoMemory, OutNote, Sequence, Version};
use std::alloc::Global;

/// What came of a call: its task was made, or a file stands against it; it may not be answered yet;
/// a file of the user's is to be looked at first; or its task has a note of another form, the entry
/// with this index. A call that wasn't answered is given back.
#[derive(Drop)]
pub enum Called {
    Went,
    Absent,
    TooLong,
    Waits { args: Sequence<CallArg> },
    Looks { name: Name, args: Sequence<CallArg> },
    Misfits { index: u32, args: Sequence<CallArg> },
}

/// One more, unless the numbers end.
fn more(n: u32) -> Result<u32, NoMemory>
    ensures { IfOk result (λ m. m ≡ n + 1) }
{
    match n.checked_add(1) {
        Some(m) => Ok(m),
        None => Err(NoMemory),
    }
}

// One task more is unfinished, unless it is done.
fn unless_done(n: u32, is_done: bool) -> Result<u32, NoMemory>
    ensures { IfOk result (λ m. m ≡ n + (if is_done then 0 else 1)) }
{
    if is_done {
        return Ok(n);
    }
    more(n)
}

// A task that is done is one that has finished.
fn finish_if(graph: &mut Graph, n: u32, is_done: bool)
    requires { (0 < n) × (n ≤ count_in graph.old) }
    ensures count { count_in graph.new ≡ count_in graph.old }
    ensures done { (m : ℕ) → done_in graph.new m
        ≡ (if is_done then done_too n (done_in graph.old) m else done_in graph.old m) }
    ensures needs { (m p : ℕ) → needs_in graph.new m p ≡ needs_in graph.old m p }
    ensures actions { actions_in graph.new ≡ actions_in graph.old }
{
    if is_done {
        graph.finish(n);
    }
}

// Adds the next task, which reads these versions, to the graph.
fn add_task(
    alloc: Global,
    graph: &mut Graph,
    n: u32,
    reads: &[Option<Version>],
    is_done: bool,
) -> Result<(), NoMemory>
    requires { n ≡ count_in graph.old + 1 }
    ensures count { OnOk result (count_in graph.new ≡ n) }
    ensures done { OnOk result ((m : ℕ) → done_in graph.new m
        ≡ (if n == m then is_done else done_in graph.old m)) }
    ensures needs { OnOk result ((m p : ℕ) → needs_in graph.new m p
        ≡ waiting_too n (sources n reads.now) (needs_in graph.old) m p) }
    ensures actions { actions_in graph.new ≡ actions_in graph.old }
{
    let producers = sources_of(alloc, n, reads)?;
    graph.add(n, &producers)?;
    finish_if(graph, n, is_done);
    Ok(())
}

impl Tables {
    // What an earlier call recorded that task `n` gave.
    fn noted(&self, n: u32) -> Result<Option<Sequence<OutNote>>, NoMemory>
        ensures { IfOk result (λ o. o ≡ noted_outs (noting_in self.now.notes n)) }
    {
        match self.notes.find(n) {
            None => Ok(None),
            Some(note) => Ok(Some(copy_outs(self.alloc, note.outs.items())?)),
        }
    }

    // The index of the note of task `n`, where it is of another form.
    fn misfit(&self, idl: &Idl, op: u8, n: u32) -> Option<u32>
        ensures { result ≡ misfit_of (noting_in self.now.notes n) op (params_at idl.now.ops op) }
    {
        match self.notes.find(n) {
            None => None,
            Some(note) => {
                if is_form(idl, note, op) {
                    return None;
                }
                Some(note.index)
            }
        }
    }

    // Room in the window for one task more.
    fn has_room(&self, is_noted: bool) -> bool
        ensures { (result ≡ true → self.now.unfinished + one_unless is_noted ≤ self.now.window)
            × (result ≡ false → self.now.unfinished + one_unless is_noted ≤ self.now.window → ⊥) }
    {
        if is_noted {
            return self.unfinished <= self.window;
        }
        self.unfinished < self.window
    }

    // Makes a task of a call.
    fn enter(
        &mut self,
        idl: &Idl,
        op: u8,
        called: Sequence<CallArg>,
        outs: Option<Sequence<OutNote>>,
    ) -> Result<(), NoMemory>
        ensures looks { OnOk result (looked_in self.new ≡ looked_in self.old) }
        ensures mains { OnOk result (mains_in self.new ≡ mains_in self.old) }
        ensures entered { (s : Setup) (k : ℕ) (h : History) (line : ℕ)
            (next : answer.Answer → Dialogue) → AreOps idl.now.ops s → Holds self.old s k h →
            IsNext s k (q.Call op line called) next →
            MayAnswer s h k (q.Call op line called) → NoMisfit s k →
            first_refused (world_at s k).files (params_at idl.now.ops op) called ≡ None →
            outs ≡ option_map (outs_noted 1 (params_at idl.now.ops op))
            (outs_in h (count_at s k + 1)) →
            judged_call (looks_in self.old.looks) self.old.mains.items
            (read_with (λ x. latest x (writes_in self.old.names)) (params_at idl.now.ops op) called)
            ≡ judged.Fine → OnOk result (HasGone self.new s k h next said.Went) }
    {
        let n = more(self.graph.count())?;
        let reads = reads_of(self.alloc, &self.names, idl, op, called.items())?;
        let kept = kept_of(self.alloc, &self.looks, &self.mains, reads.items())?;
        mark_call(
            self.alloc,
            &mut self.names,
            &mut self.graph,
            idl,
            op,
            n,
            called.items(),
        )?;
        write_all(&mut self.names, idl, op, called.items(), n)?;
        add_task(
            self.alloc,
            &mut self.graph,
            n,
            reads.items(),
            outs.is_some(),
        )?;
        self.unfinished = unless_done(self.unfinished, outs.is_some())?;
        self.rows.push(Row {
            op,
            called,
            reads,
            kept,
            outs,
        })?;
        Ok(())
    }

    /// The program calls an operation. Where the window has room, it is answered, unless a file is
    /// to be looked at first or the task's note is of another form. The only error is want of
    /// memory, after which the tables aren't used again.
    pub fn call(&mut self, idl: &Idl, op: u8, args: Sequence<CallArg>) -> Result<Called, NoMemory>
        ensures looks { OnOk result (looked_in self.new ≡ looked_in self.old) }
        ensures mains { OnOk result (mains_in self.new ≡ mains_in self.old) }
        ensures came { (s : Setup) (k : ℕ) (h : History) (line : ℕ)
            (next : answer.Answer → Dialogue) → AreOps idl.now.ops s → Holds self.old s k h →
            IsNext s k (q.Call op line args) next →
            IfOk result (IsCalled s k h op line args next self.new) }
    {
        let n = more(self.graph.count())?;
        if !self.has_room(self.notes.is_noted(n)) {
            return Ok(Called::Waits { args });
        }
        match judge(&self.names, &self.looks, &self.mains, idl, op, args.items()) {
            Judged::Unseen { name } => Ok(Called::Looks { name, args }),
            Judged::Absent => Ok(Called::Absent),
            Judged::TooLong => Ok(Called::TooLong),
            Judged::Fine => match self.misfit(idl, op, n) {
                Some(index) => Ok(Called::Misfits { index, args }),
                None => {
                    let outs = self.noted(n)?;
                    self.enter(idl, op, args, outs)?;
                    Ok(Called::Went)
                }
            },
        }
    }
}
