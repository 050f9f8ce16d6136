// Faults of the main program, and what a run may be told.

/// How a main program ends that goes wrong.
#[derive(Clone, Copy, Debug, PartialEq, Eq)]
pub enum FaultKind {
    Overflow,
    ZeroDivisor,
    StringTooLong,
    TextTooLong,
    FileTooLong,
    BadName,
    NoFile,
    OwnText,
    SameOut,
    FileOpen,
    HandleOpen,
    HandleClosed,
    WrongMode,
    TooManyOpen,
    TooManyTasks,
    TooManyActions,
    TooManyNames,
    BadByte,
    StillOpen,
}

/// Steps of the main program, calls that may be unfinished at once, and failures after which a task
/// is lost.
#[derive(Clone, Copy, Debug, PartialEq, Eq)]
pub struct Settings {
    pub fuel: u64,
    pub window: u32,
    pub tries: u32,
}
