//! The kinds of the checks' faults.

/// What a check finds: in the order in which the kinds count at one place.
#[derive(Clone, Copy, PartialEq, Eq, Debug)]
pub enum CheckKind {
    Twice,
    TooMany,
    Unknown,
    WrongKind,
    WrongCount,
    NotVariable,
    BadFormat,
}

/// A fault and its line.
#[derive(Clone, Copy, PartialEq, Eq, Debug)]
pub(crate) struct Fault {
    pub line: u32,
    pub kind: CheckKind,
}
