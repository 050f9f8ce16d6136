// What earlier calls recorded, by the tasks' numbers.
ghost use Rattle.std.specs.Prelude.{◌≡◌, ◌<◌, ◌≤◌, ◌==◌, ◌&&◌, ℕ, List, Bool, IfSome, length, map, drop, option_map, option_copied, nat_eq, is_some, IfOk, Option, Some, None};
ghost use Rattle.gs_history.specs.Notes.{is_form, are_given, note_at};
ghost use Rattle.gs_idl.specs.Interface.{Param, params_at, is_output};
ghost use Rattle.gs_types.specs.declared.note.OutNote as out_note;
ghost use Rattle.gs_tables.specs.Noted.{noting_of, noting_in, found_in, misfit_of, is_kind, given_at, goes_on};

use gs_idl::{Dir, Idl, ParamKind};
use gs_types::{NoMemory, Note, OutNote, Sequence};
use indexmap::IndexMap;
use std::alloc::Global;

/// What an earlier call recorded of a task: the entry's index, the operation, and what the task
/// gave at its places.
#[derive(Drop)]
pub struct DoneNote {
    pub index: u32,
    pub n: u32,
    pub op: u8,
    pub outs: Sequence<OutNote>,
}

/// Notes by the numbers of their tasks.
#[derive(Drop)]
pub(crate) struct Notes {
    pub map: IndexMap<u32, DoneNote>,
}

impl Notes {
    /// The first note of each task.
    pub(crate) fn new(alloc: Global, list: Vec<DoneNote>) -> Result<Notes, NoMemory>
        ensures { IfOk result (λ notes. (n : ℕ) →
            noting_in notes n ≡ note_at (map noting_of list.items) n) }
    {
        let mut map: IndexMap<u32, DoneNote> = IndexMap::new(alloc);
        for note in list {
            if !map.contains_key(&note.n) {
                map.insert(note.n, note)?;
            }
        }
        Ok(Notes { map })
    }

    /// Whether there is a note of task `n`.
    pub(crate) fn is_noted(&self, n: u32) -> bool
        ensures { result ≡ is_some (found_in self.now n) }
    {
        self.map.contains_key(&n)
    }

    /// The note of task `n`.
    pub(crate) fn find(&self, n: u32) -> Option<&DoneNote>
        ensures { option_copied result ≡ found_in self.now n }
    {
        self.map.get(&n)
    }
}

/// Whether the note is of this kind.
fn is_kind(kind: ParamKind, v: &Note) -> bool
    ensures { result ≡ is_kind kind v.now }
{
    match v {
        Note::File { len: _ } => kind == ParamKind::File,
        Note::Int { v: _ } => kind == ParamKind::Int,
        Note::Str { s: _ } => kind == ParamKind::Str,
    }
}

/// The note again.
fn copy_note(alloc: Global, v: &Note) -> Result<Note, NoMemory>
    ensures { IfOk result (λ n. n ≡ v.now) }
{
    Ok(match v {
        Note::File { len } => Note::File { len: *len },
        Note::Int { v } => Note::Int { v: *v },
        Note::Str { s } => Note::Str { s: s.copy(alloc)? },
    })
}

/// The notes again.
pub(crate) fn copy_outs(alloc: Global, outs: &[OutNote]) -> Result<Sequence<OutNote>, NoMemory>
    ensures { IfOk result (λ os. os ≡ outs.now) }
{
    let mut copies = Sequence::new(alloc);
    for out in outs {
        copies.push(OutNote {
            place: out.place,
            v: copy_note(alloc, &out.v)?,
        })?;
    }
    Ok(copies)
}

fn is_given(out: &OutNote, place: u8, kind: ParamKind) -> bool
    ensures { result ≡ (out.now.place == place && is_kind kind out.now.v) }
{
    out.place == place && is_kind(kind, &out.v)
}

// How many of the notes are used up behind a place; `None` where the next one isn't the place's.
fn after_place(outs: &[OutNote], next: usize, place: u8, dir: Dir, kind: ParamKind) -> Option<usize>
    requires { next ≤ length outs.now }
    ensures within { IfSome result (λ n. n ≤ length outs.now) }
    ensures goes { (more : List out_note.OutNote → Bool) →
        given_at (is_output dir) place kind (drop next outs.now) more
        ≡ goes_on result outs.now more }
{
    match dir {
        Dir::Input => Some(next),
        _ => {
            if next == outs.len() || !is_given(&outs[next], place, kind) {
                return None;
            }
            Some(next + 1)
        }
    }
}

/// Whether the notes are one for each place of the operation that gives something, in order and of
/// its kind.
fn are_given(idl: &Idl, op: u8, outs: &[OutNote]) -> bool
    requires { op < length idl.now.ops }
    ensures { result ≡ are_given 1 (params_at idl.now.ops op) outs.now }
{
    let mut next = 0;
    for i in 0..idl.param_count(op) {
        let (dir, kind) = idl.param(op, i);
        match after_place(outs, next, i + 1, dir, kind) {
            None => return false,
            Some(n) => next = n,
        }
    }
    next == outs.len()
}

/// Whether the note is of the operation, and of each of its places that gives something.
pub(crate) fn is_form(idl: &Idl, note: &DoneNote, op: u8) -> bool
    ensures { result ≡ is_form (noting_of note.now) op (params_at idl.now.ops op) }
{
    if op >= idl.op_count() {
        return note.op == op && note.outs.is_empty();
    }
    note.op == op && are_given(idl, op, note.outs.items())
}
