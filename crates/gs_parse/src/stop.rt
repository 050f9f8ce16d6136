//! Why a reading ends early, and the limit of depth.

ghost use Rattle.std.specs.Prelude.{◌≡◌};

use std::alloc::{AllocError, AllocFailed};

/// How deep expressions and statements may be, and how many parentheses of grouping may be open.
pub(crate) const LIMIT: u32 = 64;

/// Why a reading ends early.
#[derive(Clone, Copy, PartialEq, Eq, Debug)]
pub(crate) enum Stop {
    NoMemory,
    /// The next token fits nowhere.
    Unfit,
    /// The next token fits only beyond a limit of depth.
    TooDeep,
}

impl From<AllocError> for Stop {
    ghost use Rattle.gs_parse.specs.declared.stop.Stop.{Stop};
    ghost use Rattle.gs_parse.specs.declared.stop.Stop.TheVariants.{NoMemory};

    ghost from_gives = { λ _ stop. stop ≡ NoMemory };

    fn from(_error: AllocError) -> Self {
        Stop::NoMemory
    }
}

impl<T: Drop> From<AllocFailed<T>> for Stop {
    ghost use Rattle.gs_parse.specs.declared.stop.Stop.{Stop};
    ghost use Rattle.gs_parse.specs.declared.stop.Stop.TheVariants.{NoMemory};

    ghost from_gives = { λ _ stop. stop ≡ NoMemory };

    fn from(_error: AllocFailed<T>) -> Self {
        Stop::NoMemory
    }
}
