// What a main program asks, and what it is answered.
use gs_tree::Mode;
use gs_types::{Blob, FaultKind, Name, Sequence, Text, Value};

/// What stands at a place of a call.
#[derive(Debug, Drop)]
pub enum CallArg {
    File { name: Name },
    Int { v: i64 },
    Str { s: Text },
    OutInt,
    OutStr,
}

/// What a main program needs to go on, or how it ends.
#[derive(Debug, Drop)]
pub enum Question {
    /// A task is called: the operation's place in the interface, the line of the call, and what
    /// stands at its places.
    Call {
        op: u8,
        line: u32,
        args: Sequence<CallArg>,
    },
    /// The value that task `n` left at a place, from 1.
    Use {
        n: u32,
        place: u8,
    },
    /// The content of a file that is opened to be read or appended to.
    OpenFile {
        name: Name,
        mode: Mode,
        line: u32,
    },
    /// A file that was written is closed, with its content.
    CloseFile {
        name: Name,
        bytes: Blob,
    },
    /// All tasks so far are to be done.
    Barrier,
    End,
    Fault {
        line: u32,
        kind: FaultKind,
    },
    FuelOut,
}

/// What a question is answered.
#[derive(Debug, Drop)]
pub enum Answer {
    Went,
    Val { v: Value },
    Bytes { bytes: Blob },
    Absent,
    TooLong,
}
