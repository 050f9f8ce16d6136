// Loading a store.
ghost use Rattle.std.specs.Prelude.{◌≡◌, OnOk, IfOk, IfErr};
ghost use Rattle.gs_disk.specs.Folder.{Same};
ghost use Rattle.gs_disk.specs.Moments.{Passes, LeavesOnly};
ghost use Rattle.gs_store.specs.Loading.{RefusesList, RefusesLog, Refuses, IsReadFrom, IsLogIn, IsLoaded};
ghost use Rattle.gs_store.specs.Told.{HasCause};

use crate::err::StoreErr;
use crate::kept::{check_files, kept_in};
use crate::store::Store;
use gs_disk::Disk;
use gs_entries::{Book, Failure};
use gs_log::{Log, LogErr};
use std::alloc::Global;

/// The log of a disk; `None` exactly where there is no mark.
fn open_log<D: Disk>(alloc: Global, disk: &mut D) -> Result<Option<Log>, StoreErr>
    ensures found { D.tells → IfOk result (IsLogIn (D.state disk.new).folder) }
    ensures refused { D.tells → IfErr result (RefusesLog (D.state disk.new).folder) }
    ensures same { D.tells → (D.state disk.new).folder ≡ (D.state disk.old).folder }
    ensures images { D.tells → Passes Same (D.state disk.old) (D.state disk.new) }
    ensures only { D.tells → OnOk result
        (LeavesOnly (D.state disk.new).folder (D.state disk.new)) }
    ensures cause { HasCause (D.state disk.old) (D.state disk.new) result }
{
    match Log::load(alloc, disk) {
        Ok(log) => Ok(Some(log)),
        Err(LogErr::NoMark) => Ok(None),
        Err(LogErr::BadLog { at }) => Err(StoreErr::BadLog { at }),
        Err(LogErr::DiskFault) => Err(StoreErr::DiskFault),
        Err(LogErr::NoMemory) => Err(StoreErr::NoMemory),
    }
}

/// The entries of a log. `BadRecord` exactly where a payload is no entry or stands out of order,
/// with the index of the first.
fn read_book(alloc: Global, log: &Log) -> Result<Book, StoreErr>
    ensures read { IfOk result (λ book. IsReadFrom log.now book) }
    ensures refused { IfErr result (RefusesList log.now) }
{
    let mut book = Book::new(alloc);
    for i in 0..log.count() {
        match book.take(log.payload(i)) {
            Ok(()) => (),
            Err(Failure::NoMemory) => return Err(StoreErr::NoMemory),
            Err(Failure::NotEntry) => return Err(StoreErr::BadRecord { index: i }),
        }
    }
    Ok(book)
}

impl Store {
    /// Reads the store of a disk. It begins with a sync, and writes nothing. In this order:
    /// `BadLog` exactly where the log's file is none, `BadRecord` exactly where a record is no
    /// entry or stands out of order, with the first, and `LostVersion` exactly where the file of a
    /// version that the entries name is absent or of another length, with the first.
    pub fn load<D: Disk>(alloc: Global, disk: &mut D) -> Result<Store, StoreErr>
        ensures loaded { D.tells → IfOk result (IsLoaded (D.state disk.new)) }
        ensures refused { D.tells → IfErr result (Refuses (D.state disk.new).folder) }
        ensures same { D.tells → (D.state disk.new).folder ≡ (D.state disk.old).folder }
        ensures images { D.tells → Passes Same (D.state disk.old) (D.state disk.new) }
        ensures cause { HasCause (D.state disk.old) (D.state disk.new) result }
    {
        let log = match open_log(alloc, disk) {
            Ok(Some(log)) => log,
            Ok(None) => {
                return Ok(Store {
                    log: None,
                    book: Book::new(alloc),
                });
            }
            Err(failure) => return Err(failure),
        };
        let book = match read_book(alloc, &log) {
            Ok(book) => book,
            Err(failure) => return Err(failure),
        };
        let kept = kept_in(alloc, book.entries())?;
        match check_files(disk, &kept) {
            Ok(()) => Ok(Store {
                log: Some(log),
                book,
            }),
            Err(failure) => Err(failure),
        }
    }
}
