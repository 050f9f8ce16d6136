// Why something is not taken.
use gs_types::FaultKind;

/// A fault of the program, or want of memory.
#[derive(Clone, Copy, Debug, PartialEq, Eq)]
pub enum ReadErr {
    Kind { kind: FaultKind },
    NoMemory,
}
