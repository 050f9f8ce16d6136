// What may be wrong with a worker list.
use std::alloc::AllocError;

/// Bytes of a worker's program.
pub const PROGRAM_LENGTH: usize = 200;

/// What is wrong with a worker list, on the line where it first goes wrong.
#[derive(Clone, Copy, Debug, PartialEq, Eq)]
pub enum WorkersKind {
    /// The text is longer than 65,536 bytes. It stands on line 0.
    TooLong,
    /// A byte outside comments is neither a blank nor one from 33 to 126.
    BadByte,
    /// There are fewer than four words, a `*` beside other operations, or a program of more than
    /// 200 bytes.
    BadLine,
    /// The first word is no name.
    BadName,
    /// The second word is no decimal from 1 to 16.
    BadSlots,
    /// An operation isn't one of the interface.
    UnknownOp,
    /// A worker has the name of an earlier one, or an operation stands again on its line.
    Twice,
    /// There are more than 64 workers.
    TooMany,
    /// There is no worker. It stands on line 0.
    Empty,
}

/// Why no worker list was read: the first fault with its line, from 1, or want of memory.
#[derive(Clone, Copy, Debug, PartialEq, Eq)]
pub enum WorkersErr {
    At { line: u32, kind: WorkersKind },
    NoMemory,
}

impl From<AllocError> for WorkersErr {
    ghost use Rattle.std.specs.Prelude.{◌≡◌};
    ghost use Rattle.gs_broker.specs.declared.kind.WorkersErr.TheVariants.{NoMemory};

    ghost from_gives = { λ _ e. e ≡ NoMemory };

    fn from(_e: AllocError) -> WorkersErr {
        WorkersErr::NoMemory
    }
}
