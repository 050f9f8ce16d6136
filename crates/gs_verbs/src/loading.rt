// Loading the store of a folder.
ghost use Rattle.std.specs.Prelude.{◌≡◌, IfOk, IfErr};
ghost use Rattle.gs_store.specs.Loading.{IsStoreOf};
ghost use Rattle.gs_disk.specs.Folder.{Same};
ghost use Rattle.gs_disk.specs.Moments.{Passes};
ghost use Rattle.gs_verbs.specs.Finding.{unloaded_as, RefusesStore, LoadEnds};

use crate::BadStore;
use gs_disk::Disk;
use gs_store::{Store, StoreErr};
use std::alloc::Global;

/// Why a store wasn't loaded, or not read on.
#[derive(Debug, Drop)]
pub(crate) enum Unloaded {
    Bad { bad: BadStore },
    Disk,
    Memory,
}

/// The same of an error of the store.
pub(crate) fn why_unloaded(e: StoreErr) -> Unloaded
    ensures { result ≡ unloaded_as e }
{
    match e {
        StoreErr::BadLog { at } => Unloaded::Bad {
            bad: BadStore::Log { at },
        },
        StoreErr::BadRecord { index } => Unloaded::Bad {
            bad: BadStore::Record { index },
        },
        StoreErr::LostVersion {
            version,
            kept,
            found,
        } => Unloaded::Bad {
            bad: BadStore::Lost {
                version,
                kept,
                found,
            },
        },
        StoreErr::DiskFault => Unloaded::Disk,
        StoreErr::NoMemory => Unloaded::Memory,
    }
}

/// Reads the store of a folder. Nothing is written.
pub(crate) fn load<D: Disk>(alloc: Global, disk: &mut D) -> Result<Store, Unloaded>
    ensures found { D.tells
        → IfOk result (λ store. IsStoreOf store (D.state disk.old).folder) }
    ensures refused { D.tells → IfErr result (RefusesStore (D.state disk.old).folder) }
    ensures same { D.tells → (D.state disk.new).folder ≡ (D.state disk.old).folder }
    ensures images { D.tells → Passes Same (D.state disk.old) (D.state disk.new) }
    ensures cause { LoadEnds (D.state disk.old).faults (D.state disk.new).faults result }
{
    match Store::load(alloc, disk) {
        Ok(store) => Ok(store),
        Err(e) => Err(why_unloaded(e)),
    }
}
