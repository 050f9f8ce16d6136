// What is recorded of a run.
use gs_types::{Action, Blob, FinalNote, Name, OutNote, Sequence, VarNote};

/// The names and texts of the interface and of the program that a run is of.
#[derive(Debug, Drop)]
pub struct Texts {
    pub idl_name: Name,
    pub idl: Blob,
    pub program_name: Name,
    pub program: Blob,
}

/// What a main program did and left. The names are those of its actions in the order in which they
/// first stand there; actions and finals tell a name by its number in this list, from 0.
#[derive(Debug, Drop)]
pub struct GateNote {
    pub names: Sequence<Name>,
    pub finals: Sequence<FinalNote>,
    pub text: Blob,
    pub vars: Sequence<VarNote>,
    pub actions: Sequence<Action>,
}

/// An entry of the record: which texts a run is of, what task `n` gave, what the main program did
/// and left, and that its results are in the user's files.
#[derive(Debug, Drop)]
pub enum Entry {
    Header {
        t: Texts,
    },
    Done {
        n: u32,
        op: u8,
        outs: Sequence<OutNote>,
    },
    Gate {
        g: GateNote,
    },
    Closed,
}

/// How far a record is: nothing is recorded, a run goes on, the main program has ended, its results
/// are in the user's files.
#[derive(Clone, Copy, Debug, PartialEq, Eq)]
pub enum Stage {
    Fresh,
    Running,
    Gated,
    Closed,
}
