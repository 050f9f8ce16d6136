// What is noted of the variables.
ghost use Rattle.std.specs.Prelude.{◌≡◌, [], ◌++◌, map, OnOk, IfOk};
ghost use Rattle.gs_tree.specs.View.{var_of};
ghost use Rattle.gs_talk.specs.Values.{text_of};
ghost use Rattle.gs_pieces.specs.Notes.{note_in, noted_first, notes_of};

use gs_talk::{Slot, int_of};
use gs_tree::{Var, VarKind};
use gs_types::{Blob, NoMemory, Note, Text, Value, VarNote};
use std::alloc::Global;

/// The string of a value; no bytes for another value. The only error is want of memory.
pub fn text_copy(alloc: Global, v: &Value) -> Result<Text, NoMemory>
    ensures { IfOk result (λ t. t ≡ text_of v.now) }
{
    match v {
        Value::Str { s } => s.copy(alloc),
        _ => match Text::read(alloc, b"") {
            Ok(s) => Ok(s),
            Err(_) => Err(NoMemory),
        },
    }
}

fn note_in(alloc: Global, kind: VarKind, slot: &Slot) -> Result<Option<Note>, NoMemory>
    ensures { IfOk result (λ note. note ≡ note_in kind slot.now) }
{
    match (kind, slot) {
        (VarKind::Int, Slot::Held { v }) => Ok(Some(Note::Int { v: int_of(v) })),
        (VarKind::Str, Slot::Held { v }) => Ok(Some(Note::Str {
            s: text_copy(alloc, v)?,
        })),
        _ => Ok(None),
    }
}

fn push_note(
    alloc: Global,
    all: &mut Vec<VarNote>,
    name: &[u8],
    note: Option<Note>,
) -> Result<(), NoMemory>
    ensures { OnOk result (all.new.items ≡ all.old.items ++ noted_first name.now note []) }
{
    if let Some(v) = note {
        let name = Blob::copy(alloc, name)?;
        all.push(VarNote { name, v })?;
    }
    Ok(())
}

/// The notes of these variables that have one, in order. The only error is want of memory.
pub fn notes(alloc: Global, vars: &[Var], slots: &[Slot]) -> Result<Vec<VarNote>, NoMemory>
    ensures { IfOk result (λ notes. notes.items ≡ notes_of (map var_of vars.now) slots.now) }
{
    let mut all = Vec::new(alloc);
    for i in 0..vars.len().min(slots.len()) {
        let v = &vars[i];
        let slot = &slots[i];
        let note = note_in(alloc, v.kind, slot)?;
        push_note(alloc, &mut all, &v.name.name, note)?;
    }
    Ok(all)
}
