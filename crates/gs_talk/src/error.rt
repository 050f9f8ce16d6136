// Why there is no value, or no line.
ghost use Rattle.std.specs.Prelude.{◌≡◌};

use gs_types::{FaultKind, NoMemory};
use std::alloc::AllocFailed;

/// Why an expression by places has no value: a fault, the variable `i` that waits for task `n`'s
/// value at a place, from 1, or want of memory.
#[derive(Clone, Copy, Debug, PartialEq, Eq)]
pub enum Trouble {
    Kind { kind: FaultKind },
    Need { i: usize, n: u32, place: u8 },
    NoMemory,
}

impl From<NoMemory> for Trouble {
    ghost use Rattle.gs_talk.specs.declared.error.Trouble.TheVariants as trouble;

    ghost from_gives = { λ _ e. e ≡ trouble.NoMemory };

    fn from(_e: NoMemory) -> Trouble {
        Trouble::NoMemory
    }
}

impl<T: Drop> From<AllocFailed<T>> for Trouble {
    ghost use Rattle.gs_talk.specs.declared.error.Trouble.TheVariants as trouble;

    ghost from_gives = { λ _ e. e ≡ trouble.NoMemory };

    fn from(_e: AllocFailed<T>) -> Trouble {
        Trouble::NoMemory
    }
}

/// Why an expression has no value, or a line isn't taken: a fault, a value of task `n` at a place,
/// from 1, that is waited for, or want of memory.
#[derive(Clone, Copy, Debug, PartialEq, Eq)]
pub enum TalkErr {
    Kind { kind: FaultKind },
    Need { n: u32, place: u8 },
    NoMemory,
}

impl From<NoMemory> for TalkErr {
    ghost use Rattle.gs_talk.specs.declared.error.TalkErr.TheVariants as err;

    ghost from_gives = { λ _ e. e ≡ err.NoMemory };

    fn from(_e: NoMemory) -> TalkErr {
        TalkErr::NoMemory
    }
}
