// A task of the table.
use gs_talk::CallArg;
use gs_types::{OutNote, Sequence, Text, Version};

/// A task that was called: what stands at its places, the version that it reads at each of them,
/// how many bytes those have that no task gives, and what it gave.
#[derive(Drop)]
pub(crate) struct Row {
    pub op: u8,
    pub called: Sequence<CallArg>,
    pub reads: Sequence<Option<Version>>,
    pub kept: Sequence<u64>,
    pub outs: Option<Sequence<OutNote>>,
}

/// What a task gets at a place: a version of a file with its length in bytes, which it may change
/// where `both` is set; a number or a string; or it gives something there.
#[derive(Debug, Drop)]
pub enum StartArg {
    From {
        version: Version,
        kept: u64,
        both: bool,
    },
    Int {
        v: i64,
    },
    Str {
        s: Text,
    },
    OutFile,
    OutInt,
    OutStr,
}
