// Why a step of a task didn't succeed.
use gs_types::NoMemory;
use std::alloc::{AllocError, AllocFailed};
use std::io::{Error, ErrorKind};

/// A failure of the task, or want of memory, after which the step may be tried again.
#[derive(Clone, Copy, Debug, PartialEq, Eq)]
pub(crate) enum Trouble {
    Failed,
    NoMemory,
}

impl From<Error> for Trouble {
    fn from(error: Error) -> Trouble {
        if error.kind() == ErrorKind::OutOfMemory {
            Trouble::NoMemory
        } else {
            Trouble::Failed
        }
    }
}

impl From<AllocError> for Trouble {
    fn from(_error: AllocError) -> Trouble {
        Trouble::NoMemory
    }
}

impl<T: Drop> From<AllocFailed<T>> for Trouble {
    fn from(_error: AllocFailed<T>) -> Trouble {
        Trouble::NoMemory
    }
}

impl From<NoMemory> for Trouble {
    fn from(_error: NoMemory) -> Trouble {
        Trouble::NoMemory
    }
}
