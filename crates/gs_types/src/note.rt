// What is noted of values and files: versions, lengths, small values.
use crate::{Blob, Name, Text};

/// Which contents of a file: the user's own, an output of a task, or what the main program closed.
#[derive(Debug, Drop)]
pub enum Version {
    Original { name: Name },
    Out { n: u32, place: u8 },
    Main { k: u32 },
}

/// A value, or a file's length in bytes.
#[derive(Debug, Drop)]
pub enum Note {
    File { len: u64 },
    Int { v: i64 },
    Str { s: Text },
}

/// What a task gave at a place, from 1.
#[derive(Debug, Drop)]
pub struct OutNote {
    pub place: u8,
    pub v: Note,
}

/// What a variable holds at the end.
#[derive(Debug, Drop)]
pub struct VarNote {
    pub name: Blob,
    pub v: Note,
}

/// The last version of a written name, which is told by its number, with its length in bytes.
#[derive(Debug, Drop)]
pub struct FinalNote {
    pub name: u32,
    pub version: Version,
    pub len: u64,
}
