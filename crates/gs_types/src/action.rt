// What the main program did, as the store keeps it.
use crate::Sequence;

/// An action of the main program. Names are told by their numbers, tasks count from 1.
#[derive(Debug, Drop)]
pub enum Action {
    Call {
        n: u32,
        op: u8,
        reads: Sequence<u32>,
        writes: Sequence<u32>,
    },
    /// The first use of the value that task `n` leaves at a place, from 1.
    Use {
        n: u32,
        place: u8,
    },
    /// A wait for all that task `n` leaves. It is read, and never made.
    Result {
        n: u32,
    },
    Read {
        name: u32,
    },
    Write {
        name: u32,
    },
    Barrier,
    End,
}
