// The gate's note as fields, and what must hold of it as a whole.
ghost use Rattle.std.specs.Prelude.{◌≡◌, ◌++◌, [], true, false, OnOk, IfOk};
ghost use Rattle.gs_entries.specs.Gives.{Gives};
ghost use Rattle.gs_entries.specs.Gate as gates;
ghost use Rattle.gs_entries.specs.Gate.{gate, gate_ok, gate_fields, printed, named_by, written_by, FirstWritings, FinalsRise};
ghost use Rattle.gs_entries.specs.Notes.{up_to};
ghost use Rattle.gs_fields.specs.Format.{four, counted};

use crate::entry::GateNote;
use crate::failure::Failure;
use crate::notes::read_count;
use crate::spelled::{Spelled, put_all, read_times};
use gs_fields::{Fields, put_blob, put_u32};
use gs_types::{
    ACTION_LIMIT, Action, Blob, FinalNote, NAME_LIMIT, Name, NoMemory, PRINTED_LIMIT, Sequence,
    TASK_LIMIT, VARIABLE_LIMIT,
};
use indexmap::IndexSet;
use std::alloc::Global;

/// The last action is the end, and no other is.
fn ends_once(actions: &[Action]) -> bool
    ensures { result ≡ gates.ends_once false actions.now }
{
    let mut ended = false;
    for action in actions {
        if ended {
            return false;
        }
        match action {
            Action::End => ended = true,
            Action::Call { .. }
            | Action::Use { .. }
            | Action::Result { .. }
            | Action::Read { .. }
            | Action::Write { .. }
            | Action::Barrier => {}
        }
    }
    ended
}

/// How many of the actions are calls.
fn calls_in(actions: &[Action]) -> usize
    ensures { result ≡ gates.calls_in actions.now }
{
    let mut count = 0;
    for action in actions {
        if let Action::Call { .. } = action {
            count += 1;
        }
    }
    count
}

/// Puts the names of an action there, by their numbers.
fn push_named(action: &Action, named: &mut Vec<u32>) -> Result<(), NoMemory>
    ensures { OnOk result (named.new.items ≡ named.old.items ++ named_by action.now) }
{
    match action {
        Action::Call { reads, writes, .. } => {
            named.extend_from_slice(reads.items())?;
            named.extend_from_slice(writes.items())?;
            Ok(())
        }
        Action::Read { name } | Action::Write { name } => {
            named.push(*name)?;
            Ok(())
        }
        Action::Use { .. } | Action::Result { .. } | Action::Barrier | Action::End => Ok(()),
    }
}

/// The names of the actions by their numbers.
fn named_in(alloc: Global, actions: &[Action]) -> Result<Vec<u32>, NoMemory>
    ensures { IfOk result (λ v. v.items ≡ gates.named_in actions.now) }
{
    let mut named = Vec::new(alloc);
    for action in actions {
        push_named(action, &mut named)?;
    }
    Ok(named)
}

/// Puts the names that an action writes there, by their numbers.
fn push_written(action: &Action, written: &mut Vec<u32>) -> Result<(), NoMemory>
    ensures { OnOk result (written.new.items ≡ written.old.items ++ written_by action.now) }
{
    match action {
        Action::Call { writes, .. } => {
            written.extend_from_slice(writes.items())?;
            Ok(())
        }
        Action::Write { name } => {
            written.push(*name)?;
            Ok(())
        }
        Action::Use { .. }
        | Action::Result { .. }
        | Action::Read { .. }
        | Action::Barrier
        | Action::End => Ok(()),
    }
}

/// The names that the actions write, by their numbers.
fn written_in(alloc: Global, actions: &[Action]) -> Result<Vec<u32>, NoMemory>
    ensures { IfOk result (λ v. v.items ≡ gates.written_in actions.now) }
{
    let mut written = Vec::new(alloc);
    for action in actions {
        push_written(action, &mut written)?;
    }
    Ok(written)
}

/// These are all of `count` names, numbered in the order in which they first stand here.
fn numbers(named: &[u32], count: usize) -> bool
    ensures { result ≡ gates.numbers named.now count }
{
    let mut next = 0;
    for name in named {
        let i = *name as usize;
        if i > next {
            return false;
        }
        if i == next {
            next += 1;
        }
    }
    next == count
}

/// No name stands there twice.
fn are_distinct(alloc: Global, names: &[Name]) -> Result<bool, NoMemory>
    ensures { IfOk result (λ b. b ≡ gates.distinct_after [] names.now) }
{
    let mut seen = IndexSet::new(alloc);
    for name in names {
        let (_, is_new) = seen.insert_full(name.copy())?;
        if !is_new {
            return Ok(false);
        }
    }
    Ok(true)
}

/// Where each of `count` names is written first: the number of writings before, which is that of
/// all writings where it isn't written.
fn first_writings(alloc: Global, written: &[u32], count: usize) -> Result<Vec<usize>, NoMemory>
    ensures { IfOk result (λ v. FirstWritings written.now count v.items) }
{
    let mut places = vec![in alloc; written.len(); count]?;
    let mut at = written.len();
    while at > 0 {
        at -= 1;
        let name = written[at] as usize;
        if name < places.len() {
            places[name] = at;
        }
    }
    Ok(places)
}

/// Each final is of a name that is written, in order of first writing.
fn finals_rise(places: &[usize], writings: usize, finals: &[FinalNote]) -> bool
    ensures { FinalsRise places.now writings finals.now result }
{
    let mut low = 0;
    for last in finals {
        let name = last.name as usize;
        if name >= places.len() {
            return false;
        }
        let place = places[name];
        if place < low || place >= writings {
            return false;
        }
        low = place + 1;
    }
    true
}

/// What must hold of the note as a whole.
pub fn is_gate(alloc: Global, g: &GateNote) -> Result<bool, NoMemory>
    ensures { IfOk result (λ b. b ≡ gate_ok g.now) }
{
    let actions = g.actions.items();
    if !ends_once(actions) || calls_in(actions) > TASK_LIMIT {
        return Ok(false);
    }
    let named = named_in(alloc, actions)?;
    if !numbers(&named, g.names.len()) {
        return Ok(false);
    }
    if !are_distinct(alloc, g.names.items())? {
        return Ok(false);
    }
    let written = written_in(alloc, actions)?;
    let places = first_writings(alloc, &written, g.names.len())?;
    Ok(finals_rise(&places, written.len(), g.finals.items()))
}

fn read_printed(alloc: Global, f: &mut Fields) -> Result<Blob, Failure>
    ensures { Gives f.new result (printed.read f.old.rest) }
{
    let bytes = f.next_blob()?;
    if bytes.len() > PRINTED_LIMIT {
        return Err(Failure::NotEntry);
    }
    Ok(Blob::copy(alloc, bytes)?)
}

fn read_list<T: Spelled>(
    alloc: Global,
    f: &mut Fields,
    limit: usize,
) -> Result<Sequence<T>, Failure>
    ensures { Gives f.new result ((counted (up_to limit four) T.format).read f.old.rest) }
{
    let count = read_count(f, limit)?;
    read_times(alloc, count, f)
}

fn put_list<T: Spelled>(items: &Sequence<T>, to: &mut Vec<u8>) -> Result<(), NoMemory>
    requires { (counted four T.format).fits items.now ≡ true }
    ensures { OnOk result (to.new.items ≡ to.old.items ++ (counted four T.format).spell items.now) }
{
    put_u32(to, items.len() as u32)?;
    put_all(items.items(), to)
}

fn read_parts(alloc: Global, f: &mut Fields) -> Result<GateNote, Failure>
    ensures { Gives f.new result (gate_fields.read f.old.rest) }
{
    let names = read_list(alloc, f, NAME_LIMIT)?;
    let finals = read_list(alloc, f, NAME_LIMIT)?;
    let text = read_printed(alloc, f)?;
    let vars = read_list(alloc, f, VARIABLE_LIMIT)?;
    let actions = read_list(alloc, f, ACTION_LIMIT + 1)?;
    Ok(GateNote {
        names,
        finals,
        text,
        vars,
        actions,
    })
}

impl Spelled for GateNote {
    ghost format = { gate };

    fn read(alloc: Global, f: &mut Fields) -> Result<GateNote, Failure> {
        let g = read_parts(alloc, f)?;
        if !is_gate(alloc, &g)? {
            return Err(Failure::NotEntry);
        }
        Ok(g)
    }

    fn put(&self, to: &mut Vec<u8>) -> Result<(), NoMemory> {
        put_list(&self.names, to)?;
        put_list(&self.finals, to)?;
        put_blob(to, self.text.bytes())?;
        put_list(&self.vars, to)?;
        put_list(&self.actions, to)
    }
}
