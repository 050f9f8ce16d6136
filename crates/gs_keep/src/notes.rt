// What is noted of outputs.
ghost use Rattle.std.specs.Prelude.{◌≡◌, true, IfOk};
ghost use Rattle.gs_entries.specs.Notes as formats;
ghost use Rattle.gs_history.specs.Notes.{note_of};
ghost use Rattle.gs_keep.specs.Given.{IsWithin};

use gs_types::{NoMemory, Note, OutNote, Sequence, Value};
use std::alloc::Global;

/// What is noted of an output: a file's length, a number or a string itself.
pub fn note_of(alloc: Global, v: &Value) -> Result<Note, NoMemory>
    requires { IsWithin v.now }
    ensures value { IfOk result (λ note. note ≡ note_of v.now) }
    ensures fits { IfOk result (λ note. formats.note.fits note ≡ true) }
{
    match v {
        Value::File { bytes } => Ok(Note::File {
            len: bytes.bytes().len() as u64,
        }),
        Value::Int { v } => Ok(Note::Int { v: *v }),
        Value::Str { s } => {
            let _bytes = s.bytes();
            Ok(Note::Str { s: s.copy(alloc)? })
        }
    }
}

fn copy_note(alloc: Global, v: &Note) -> Result<Note, NoMemory>
    ensures { IfOk result (λ note. note ≡ v.now) }
{
    Ok(match v {
        Note::File { len } => Note::File { len: *len },
        Note::Int { v } => Note::Int { v: *v },
        Note::Str { s } => Note::Str { s: s.copy(alloc)? },
    })
}

/// The same notes again.
pub fn copy_notes(alloc: Global, notes: &[OutNote]) -> Result<Sequence<OutNote>, NoMemory>
    ensures { IfOk result (λ copy. copy ≡ notes.now) }
{
    let mut copy = Sequence::new(alloc);
    for note in notes {
        copy.push(OutNote {
            place: note.place,
            v: copy_note(alloc, &note.v)?,
        })?;
    }
    Ok(copy)
}
