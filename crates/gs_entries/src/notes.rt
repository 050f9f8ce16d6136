// Names, values and versions as fields.
ghost use Rattle.std.specs.Prelude.{◌≡◌, ◌++◌, ◌≤◌, true, OnOk, Some, None, if◌then◌else◌, length};
ghost use Rattle.std.specs.List.{list_all};
ghost use Rattle.gs_types.specs.NameTest.{is_name};
ghost use Rattle.gs_fields.specs.Format.{four};
ghost use Rattle.gs_idl.specs.Word as letters;
ghost use Rattle.gs_entries.specs.Notes as notes;
ghost use Rattle.gs_entries.specs.Gives.{Gives, Decodes};
ghost use Rattle.gs_entries.specs.Notes.{name, source, task, place, operation, file_len, up_to, is_string, note, out, var, version, final, rising};

use crate::failure::Failure;
use crate::spelled::Spelled;
use gs_fields::{Fields, put_blob, put_i64, put_u8, put_u32, put_u64};
use gs_types::{
    ACTION_LIMIT, Blob, FILE_LIMIT, FinalNote, Name, NoMemory, Note, OPERATION_LIMIT, OutNote,
    PARAMETER_LIMIT, TASK_LIMIT, TEXT_LIMIT, Text, TextErr, VarNote, Version,
};
use std::alloc::Global;

impl Spelled for u32 {
    ghost format = { four };

    fn read(_alloc: Global, f: &mut Fields) -> Result<u32, Failure> {
        Ok(f.next_u32()?)
    }

    fn put(&self, to: &mut Vec<u8>) -> Result<(), NoMemory> {
        put_u32(to, *self)
    }
}

fn name_of(bytes: &[u8]) -> Result<Name, Failure>
    ensures { Decodes result (if is_name bytes.now then Some bytes.now else None) }
{
    match Name::read(bytes) {
        Ok(name) => Ok(name),
        Err(_) => Err(Failure::NotEntry),
    }
}

/// A file's name.
pub fn read_name(f: &mut Fields) -> Result<Name, Failure>
    ensures { Gives f.new result (name.read f.old.rest) }
{
    let bytes = f.next_blob()?;
    name_of(bytes)
}

impl Spelled for Name {
    ghost format = { name };

    fn read(_alloc: Global, f: &mut Fields) -> Result<Name, Failure> {
        read_name(f)
    }

    fn put(&self, to: &mut Vec<u8>) -> Result<(), NoMemory> {
        put_blob(to, self.bytes())
    }
}

/// A text of an interface or a program.
pub fn read_source(alloc: Global, f: &mut Fields) -> Result<Blob, Failure>
    ensures { Gives f.new result (source.read f.old.rest) }
{
    let bytes = f.next_blob()?;
    if bytes.len() > TEXT_LIMIT {
        return Err(Failure::NotEntry);
    }
    Ok(Blob::copy(alloc, bytes)?)
}

/// The number of a task.
pub fn read_task(f: &mut Fields) -> Result<u32, Failure>
    ensures { Gives f.new result (task.read f.old.rest) }
{
    let n = f.next_u32()?;
    if n < 1 || n as usize > TASK_LIMIT {
        return Err(Failure::NotEntry);
    }
    Ok(n)
}

/// A place of an operation.
pub fn read_place(f: &mut Fields) -> Result<u8, Failure>
    ensures { Gives f.new result (place.read f.old.rest) }
{
    let k = f.next_u8()?;
    if k < 1 || k as usize > PARAMETER_LIMIT {
        return Err(Failure::NotEntry);
    }
    Ok(k)
}

/// The number of an operation.
pub fn read_operation(f: &mut Fields) -> Result<u8, Failure>
    ensures { Gives f.new result (operation.read f.old.rest) }
{
    let op = f.next_u8()?;
    if op as usize >= OPERATION_LIMIT {
        return Err(Failure::NotEntry);
    }
    Ok(op)
}

/// The length of a file.
fn read_len(f: &mut Fields) -> Result<u64, Failure>
    ensures { Gives f.new result (file_len.read f.old.rest) }
{
    let len = f.next_u64()?;
    if len > FILE_LIMIT as u64 {
        return Err(Failure::NotEntry);
    }
    Ok(len)
}

/// A count of at most `limit`.
pub fn read_count(f: &mut Fields, limit: usize) -> Result<u32, Failure>
    ensures { Gives f.new result ((up_to limit four).read f.old.rest) }
{
    let n = f.next_u32()?;
    if n as usize > limit {
        return Err(Failure::NotEntry);
    }
    Ok(n)
}

fn string_of(alloc: Global, bytes: &[u8]) -> Result<Text, Failure>
    ensures { Decodes result (if is_string bytes.now then Some bytes.now else None) }
{
    match Text::read(alloc, bytes) {
        Ok(s) => Ok(s),
        Err(TextErr::NoMemory) => Err(Failure::NoMemory),
        Err(_) => Err(Failure::NotEntry),
    }
}

impl Spelled for Note {
    ghost format = { note };

    fn read(alloc: Global, f: &mut Fields) -> Result<Note, Failure> {
        match f.next_u8()? {
            1 => {
                let len = read_len(f)?;
                Ok(Note::File { len })
            }
            2 => {
                let v = f.next_i64()?;
                Ok(Note::Int { v })
            }
            3 => {
                let bytes = f.next_blob()?;
                let s = string_of(alloc, bytes)?;
                Ok(Note::Str { s })
            }
            _ => Err(Failure::NotEntry),
        }
    }

    fn put(&self, to: &mut Vec<u8>) -> Result<(), NoMemory> {
        match self {
            Note::File { len } => {
                put_u8(to, 1)?;
                put_u64(to, *len)
            }
            Note::Int { v } => {
                put_u8(to, 2)?;
                put_i64(to, *v)
            }
            Note::Str { s } => {
                put_u8(to, 3)?;
                put_blob(to, s.bytes())
            }
        }
    }
}

impl Spelled for OutNote {
    ghost format = { out };

    fn read(alloc: Global, f: &mut Fields) -> Result<OutNote, Failure> {
        let place = read_place(f)?;
        let v = Note::read(alloc, f)?;
        Ok(OutNote { place, v })
    }

    fn put(&self, to: &mut Vec<u8>) -> Result<(), NoMemory> {
        put_u8(to, self.place)?;
        self.v.put(to)
    }
}

/// Each place is above the one before.
pub fn are_rising(outs: &[OutNote]) -> bool
    ensures { result ≡ rising 0 outs.now }
{
    let mut low = 0;
    for out in outs {
        if out.place <= low {
            return false;
        }
        low = out.place;
    }
    true
}

fn is_letter(b: u8) -> bool
    ensures { result ≡ letters.is_letter b }
{
    matches!(b, b'A'..=b'Z' | b'a'..=b'z' | b'_')
}

fn is_word_byte(b: u8) -> bool
    ensures { result ≡ letters.is_word_byte b }
{
    is_letter(b) || matches!(b, b'0'..=b'9')
}

fn are_word_bytes(bytes: &[u8]) -> bool
    ensures { result ≡ list_all letters.is_word_byte bytes.now }
{
    bytes.iter().all(|b| is_word_byte(*b))
}

fn begins_with_letter(bytes: &[u8]) -> bool
    ensures { result ≡ notes.begins_with_letter bytes.now }
{
    match bytes {
        [] => false,
        [first, ..] => is_letter(*first),
    }
}

/// A letter or `_`, then letters, digits and `_`, 1 to 64 bytes.
pub fn is_identifier(bytes: &[u8]) -> bool
    ensures { result ≡ notes.is_identifier bytes.now }
{
    bytes.len() <= 64 && begins_with_letter(bytes) && are_word_bytes(bytes)
}

impl Spelled for VarNote {
    ghost format = { var };

    fn read(alloc: Global, f: &mut Fields) -> Result<VarNote, Failure> {
        let bytes = f.next_blob()?;
        if !is_identifier(bytes) {
            return Err(Failure::NotEntry);
        }
        let v = Note::read(alloc, f)?;
        if matches!(v, Note::File { .. }) {
            return Err(Failure::NotEntry);
        }
        let name = Blob::copy(alloc, bytes)?;
        Ok(VarNote { name, v })
    }

    fn put(&self, to: &mut Vec<u8>) -> Result<(), NoMemory> {
        put_blob(to, self.name.bytes())?;
        self.v.put(to)
    }
}

impl Spelled for Version {
    ghost format = { version };

    fn read(_alloc: Global, f: &mut Fields) -> Result<Version, Failure> {
        match f.next_u8()? {
            1 => {
                let n = read_task(f)?;
                let place = read_place(f)?;
                Ok(Version::Out { n, place })
            }
            2 => {
                let k = f.next_u32()?;
                if k < 1 || k as usize > ACTION_LIMIT {
                    return Err(Failure::NotEntry);
                }
                Ok(Version::Main { k })
            }
            _ => Err(Failure::NotEntry),
        }
    }

    fn put(&self, to: &mut Vec<u8>) -> Result<(), NoMemory> {
        match self {
            Version::Original { name: _ } => unreachable!(),
            Version::Out { n, place } => {
                put_u8(to, 1)?;
                put_u32(to, *n)?;
                put_u8(to, *place)
            }
            Version::Main { k } => {
                put_u8(to, 2)?;
                put_u32(to, *k)
            }
        }
    }
}

impl Spelled for FinalNote {
    ghost format = { final };

    fn read(alloc: Global, f: &mut Fields) -> Result<FinalNote, Failure> {
        let name = f.next_u32()?;
        let version = Version::read(alloc, f)?;
        let len = read_len(f)?;
        Ok(FinalNote { name, version, len })
    }

    fn put(&self, to: &mut Vec<u8>) -> Result<(), NoMemory> {
        put_u32(to, self.name)?;
        self.version.put(to)?;
        put_u64(to, self.len)
    }
}
