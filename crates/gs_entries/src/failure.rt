// Why bytes gave no entry.
ghost use Rattle.std.specs.Prelude.{◌≡◌};
ghost use Rattle.gs_entries.specs.declared.failure.Failure.TheVariants as failures;

use gs_fields::Short;
use gs_types::{NoMemory, TextErr};
use std::alloc::{AllocError, AllocFailed};

/// Why bytes gave no entry: memory ran out, or they are none.
#[derive(Clone, Copy, Debug, PartialEq, Eq)]
pub enum Failure {
    NoMemory,
    NotEntry,
}

impl From<NoMemory> for Failure {
    ghost from_gives = { λ _ e. e ≡ failures.NoMemory };

    fn from(_e: NoMemory) -> Failure {
        Failure::NoMemory
    }
}

impl From<AllocError> for Failure {
    ghost from_gives = { λ _ e. e ≡ failures.NoMemory };

    fn from(_e: AllocError) -> Failure {
        Failure::NoMemory
    }
}

impl<T: Drop> From<AllocFailed<T>> for Failure {
    ghost from_gives = { λ _ e. e ≡ failures.NoMemory };

    fn from(_e: AllocFailed<T>) -> Failure {
        Failure::NoMemory
    }
}

impl From<Short> for Failure {
    ghost from_gives = { λ _ e. e ≡ failures.NotEntry };

    fn from(_e: Short) -> Failure {
        Failure::NotEntry
    }
}
