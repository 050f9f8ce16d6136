// Tasks that start and finish.
#![tactic(auto, unfolding(crate::specs::Table::followers_of, crate::specs::Table::is_open, crate::specs::Table::entry_of, crate::specs::Table::mains_in, crate::specs::Table::looked_in))]

ghost use Rattle.std.specs.Prelude.{◌≡◌, ◌<◌, ◌+◌, ◌≤◌, ◌∷◌, ℕ, true, false, List, length, slice_get, IfOk, IfSome, OnOk, Some, None, Option, option_copied, option_map};
ghost use Rattle.gs_types.specs.History.{History, finished};
ghost use Rattle.gs_types.specs.declared.value.Value as value;
ghost use Rattle.gs_idl.specs.Interface.{params_at};
ghost use Rattle.gs_policy.specs.declared.limits.TheConstants.{BYTES_LIMIT};
ghost use Rattle.gs_broker.specs.Choice.{IsTaskInRange};
ghost use Rattle.gs_graph.specs.Graph.{count_in, done_in, needs_in, actions_in};
ghost use Rattle.gs_graph.specs.Edges.{done_too};
ghost use Rattle.gs_history.specs.Setup.{Setup, world_at, count_at};
ghost use Rattle.gs_history.specs.Good.{IsFinish};
ghost use Rattle.gs_tables.specs.Outs.{outs_noted};
ghost use Rattle.gs_tables.specs.Rows.{IsFinishedRow};
ghost use Rattle.gs_tables.specs.Table.{followers_of, is_open, entry_of, mains_in, looked_in};
ghost use Rattle.gs_tables.specs.Holds.{Holds, AreOps};
ghost use Rattle.gs_tables.specs.Starts.{both_at, plain_arg, start_args, start_arg, Starts, AreSmall, IsEntry, IsOpenSaid, Follow};
ghost use Rattle.gs_talk.specs.Actions.{DependsOn};
ghost use Rattle.gs_history.specs.Frontier.{IsDone};
ghost use Rattle.gs_talk.specs.Seq.{Task, task_at};
ghost use Rattle.gs_history.specs.Ready.{IsOpen};

use crate::lengths::{given_length, read_length, row_at};
use crate::row::{Row, StartArg};
use crate::tables::Tables;
use gs_broker::Ready;
use gs_graph::Graph;
use gs_idl::{Dir, Idl};
use gs_talk::CallArg;
use gs_types::{NoMemory, OutNote, Sequence, Version};
use std::alloc::Global;

// Whether there is a row of this number, from 1.
fn is_within(n: u32, count: usize) -> bool
    ensures { (result ≡ true → (0 < n) × (n ≤ count)) × (result ≡ false → 0 < n → n ≤ count → ⊥) }
{
    n > 0 && n as usize <= count
}

// Row `i`, from 0, has these outputs.
fn finish_row(rows: &mut Vec<Row>, i: usize, outs: Sequence<OutNote>)
    requires { i < length rows.old.items }
    ensures { IsFinishedRow i outs rows.old.items rows.new.items }
{
    let row = &mut rows[i];
    row.outs = Some(outs);
}

// The task has finished, if it was added.
fn finish_in(graph: &mut Graph, n: u32)
    requires { 0 < n }
    ensures count { count_in graph.new ≡ count_in graph.old }
    ensures done { n ≤ count_in graph.old → (m : ℕ) → done_in graph.new m
        ≡ done_too n (done_in graph.old) m }
    ensures needs { (m p : ℕ) → needs_in graph.new m p ≡ needs_in graph.old m p }
    ensures actions { actions_in graph.new ≡ actions_in graph.old }
{
    if n <= graph.count() {
        graph.finish(n);
    }
}

/// The version again.
fn copy_version(v: &Version) -> Version
    ensures { result ≡ v.now }
{
    match v {
        Version::Original { name } => Version::Original { name: name.copy() },
        Version::Out { n, place } => Version::Out {
            n: *n,
            place: *place,
        },
        Version::Main { k } => Version::Main { k: *k },
    }
}

// Whether a parameter's file is given back.
fn is_both(idl: &Idl, op: u8, i: usize) -> bool
    ensures { result ≡ both_at (params_at idl.now.ops op) i }
{
    if op >= idl.op_count() || i >= idl.param_count(op) as usize {
        return false;
    }
    let (dir, _) = idl.param(op, i as u8);
    dir == Dir::Both
}

// What a task gets at a place where it reads no file.
fn plain_arg(alloc: Global, a: &CallArg) -> Result<StartArg, NoMemory>
    ensures { IfOk result (λ x. x ≡ plain_arg a.now) }
{
    Ok(match a {
        CallArg::File { name: _ } => StartArg::OutFile,
        CallArg::Int { v } => StartArg::Int { v: *v },
        CallArg::Str { s } => StartArg::Str { s: s.copy(alloc)? },
        CallArg::OutInt => StartArg::OutInt,
        CallArg::OutStr => StartArg::OutStr,
    })
}

// What a task gets at a place.
fn start_arg(
    alloc: Global,
    rows: &[Row],
    read: &Option<Version>,
    kept: u64,
    both: bool,
    a: &CallArg,
) -> Result<StartArg, NoMemory>
    ensures { IfOk result (λ x. x ≡ start_arg rows.now read.now kept both a.now) }
{
    match read {
        None => plain_arg(alloc, a),
        Some(version) => Ok(StartArg::From {
            version: copy_version(version),
            kept: kept.max(given_length(rows, read)),
            both,
        }),
    }
}

fn args_of(
    alloc: Global,
    rows: &[Row],
    row: &Row,
    idl: &Idl,
) -> Result<Sequence<StartArg>, NoMemory>
    ensures { IfOk result (λ xs. xs
        ≡ start_args rows.now (params_at idl.now.ops row.now.op) row.now) }
{
    let mut args = Sequence::new(alloc);
    let reads = row.reads.items();
    let kept = row.kept.items();
    let called = row.called.items();
    for i in 0..reads.len().min(kept.len()).min(called.len()) {
        let both = is_both(idl, row.op, i);
        args.push(start_arg(alloc, rows, &reads[i], kept[i], both, &called[i])?)?;
    }
    Ok(args)
}

impl Tables {
    /// The operation of task `n` and what it gets at its places; `None` exactly where it wasn't
    /// called. The only error is want of memory.
    pub fn start(&self, idl: &Idl, n: u32) -> Result<Option<(u8, Sequence<StartArg>)>, NoMemory>
        ensures { (s : Setup) (k : ℕ) (h : History) (task : Task) → AreOps idl.now.ops s →
            Holds self.now s k h → IsOpen s h n task →
            task_at (world_at s k).tasks n ≡ Some task → IfOk result (Starts s k h task) }
    {
        match row_at(&self.rows, n) {
            None => Ok(None),
            Some(row) => {
                let args = args_of(self.alloc, &self.rows, row, idl)?;
                Ok(Some((row.op, args)))
            }
        }
    }

    /// The operation of task `n`; `None` exactly where no such task was called.
    pub fn operation(&self, n: u32) -> Option<u8>
        ensures { (s : Setup) (k : ℕ) (h : History) → Holds self.now s k h →
            result ≡ option_map (λ t. t.op) (task_at (world_at s k).tasks n) }
    {
        match row_at(&self.rows, n) {
            None => None,
            Some(row) => Some(row.op),
        }
    }

    fn entry(&self, n: u32) -> Ready
        ensures entry { result ≡ entry_of self.now n }
        ensures number { result.n ≡ n }
        ensures range { IsTaskInRange result }
    {
        match row_at(&self.rows, n) {
            None => Ready { n, op: 0, bytes: 0 },
            Some(row) => Ready {
                n,
                op: row.op.min(63),
                bytes: read_length(&self.rows, row.reads.items(), row.kept.items()),
            },
        }
    }

    /// Task `n` as it is listed to be started: its operation, and how many bytes it reads.
    pub fn listed(&self, n: u32) -> Ready
        ensures entry { result ≡ entry_of self.now n }
        ensures number { result.n ≡ n }
        ensures range { IsTaskInRange result }
        ensures says { (s : Setup) (k : ℕ) (h : History) (task : Task) → Holds self.now s k h →
            AreSmall s → task_at (world_at s k).tasks n ≡ Some task →
            ((m : ℕ) → DependsOn s.run n m → IsDone h m) → IsEntry result n task }
    {
        self.entry(n)
    }

    /// Task `n` has finished, and gave this at its places. It takes no memory.
    pub fn finished(&mut self, n: u32, outs: Sequence<OutNote>)
        ensures looks { looked_in self.new ≡ looked_in self.old }
        ensures mains { mains_in self.new ≡ mains_in self.old }
        ensures holds { (s : Setup) (k : ℕ) (h : History) (values : List value.Value) →
            Holds self.old s k h → (fits : IsFinish s h n values) → n ≤ count_at s k →
            outs ≡ outs_noted 1 fits.task.params values →
            Holds self.new s k (finished n values ∷ h) }
    {
        if !is_within(n, self.rows.len()) {
            return;
        }
        finish_row(&mut self.rows, n as usize - 1, outs);
        self.unfinished = self.unfinished.saturating_sub(1);
        finish_in(&mut self.graph, n);
    }

    /// The `i`-th, from 0, of the tasks that read what task `n` gives; `None` past the last.
    pub fn follower(&self, n: u32, i: u32) -> Option<u32>
        ensures item { result ≡ slice_get (followers_of self.now n) i }
        ensures reads { (s : Setup) (k : ℕ) (h : History) → Holds self.now s k h →
            Follow s k n (followers_of self.now n) }
    {
        self.graph.follower(n, i)
    }

    /// Whether task `n` was called, has not finished, and the tasks have finished whose outputs it
    /// reads.
    pub fn is_ready(&self, n: u32) -> bool
        ensures is { result ≡ is_open self.now n }
        ensures says { (s : Setup) (k : ℕ) (h : History) (task : Task) → Holds self.now s k h →
            task_at (world_at s k).tasks n ≡ Some task → IsOpenSaid s h n task result }
    {
        self.graph.is_ready(n)
    }
}
