// What may be wrong with a durations file.
use std::alloc::AllocError;

/// The longest duration of a task.
pub const DURATION_LIMIT: u32 = 1_000_000;

/// What is wrong with a durations file, on the line where it first goes wrong.
#[derive(Clone, Copy, Debug, PartialEq, Eq)]
pub enum DurKind {
    /// The text is longer than 65,536 bytes. It stands on line 0.
    TooLong,
    /// A byte outside comments is neither a blank nor one from 33 to 126.
    BadByte,
    /// There is one word alone, or there are more than two.
    BadLine,
    /// The first word is no operation of the interface.
    UnknownOp,
    /// The second word is no decimal from 1 to 1,000,000.
    BadNumber,
    /// The operation has a duration already.
    Twice,
}

/// Why no durations were read: the first fault with its line, from 1, or want of memory.
#[derive(Clone, Copy, Debug, PartialEq, Eq)]
pub enum DurErr {
    At { line: u32, kind: DurKind },
    NoMemory,
}

impl From<AllocError> for DurErr {
    ghost use Rattle.std.specs.Prelude.{◌≡◌};
    ghost use Rattle.gs_plan.specs.declared.kind.DurErr.TheVariants.{NoMemory};

    ghost from_gives = { λ _ e. e ≡ NoMemory };

    fn from(_e: AllocError) -> DurErr {
        DurErr::NoMemory
    }
}
