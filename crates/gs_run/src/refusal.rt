// Why a text wasn't read, or is refused; and why a run isn't begun.
ghost use Rattle.std.specs.Prelude.{◌≡◌};
ghost use Rattle.gs_run.specs.Showing.{stop_of};
ghost use Rattle.gs_run.specs.Ready.{unready_of, stop_unready};

use crate::Stop;
use crate::kinds::TextKind;
use gs_store::{StoreErr, What};
use gs_types::Name;
use gs_verbs::BadStore;

/// Why a text isn't used: it is absent; it goes wrong; the disk failed; memory was wanting.
#[derive(Drop)]
pub(crate) enum Refusal {
    NoText {
        name: Name,
    },
    BadText {
        name: Name,
        line: u32,
        kind: TextKind,
    },
    Disk,
    Memory,
}

/// The call stops for this.
pub(crate) fn stopped(refusal: Refusal) -> Stop
    ensures { result ≡ stop_of refusal }
{
    match refusal {
        Refusal::NoText { name } => Stop::NoText { name },
        Refusal::BadText { name, line, kind } => Stop::BadText { name, line, kind },
        Refusal::Disk => Stop::Disk,
        Refusal::Memory => Stop::Memory,
    }
}

/// Why a run isn't begun: a text isn't used; the store isn't used; it is of a run of other texts;
/// the disk failed; memory was wanting.
#[derive(Drop)]
pub(crate) enum Unready {
    Text { refusal: Refusal },
    Store { bad: BadStore },
    Other { what: What },
    Disk,
    Memory,
}

/// The same of an error of the store.
pub(crate) fn unready_of(e: StoreErr) -> Unready
    ensures { result ≡ unready_of e }
{
    match e {
        StoreErr::BadLog { at } => Unready::Store {
            bad: BadStore::Log { at },
        },
        StoreErr::BadRecord { index } => Unready::Store {
            bad: BadStore::Record { index },
        },
        StoreErr::LostVersion {
            version,
            kept,
            found,
        } => Unready::Store {
            bad: BadStore::Lost {
                version,
                kept,
                found,
            },
        },
        StoreErr::DiskFault => Unready::Disk,
        StoreErr::NoMemory => Unready::Memory,
    }
}

/// The call stops for this.
pub(crate) fn stop_unready(unready: Unready) -> Stop
    ensures { result ≡ stop_unready unready }
{
    match unready {
        Unready::Text { refusal } => stopped(refusal),
        Unready::Store { bad } => Stop::BadStore { bad },
        Unready::Other { what } => Stop::OtherRun { what },
        Unready::Disk => Stop::Disk,
        Unready::Memory => Stop::Memory,
    }
}
