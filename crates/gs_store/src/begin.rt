// The beginning of a record.
ghost use Rattle.std.specs.Prelude.{◌≡◌, [], ◌∷◌, true, false, OnOk, IfOk, IfErr};
ghost use Rattle.gs_entries.specs.Entries.{entry};
ghost use Rattle.gs_entries.specs.Order.{stage_of};
ghost use Rattle.gs_entries.specs.declared.entry.Stage.TheVariants as stages;
ghost use Rattle.gs_entries.specs.declared.entry.Entry.TheVariants as made;
ghost use Rattle.gs_store.specs.State.{IsDiskOf, no_entries, with_entry};
ghost use Rattle.gs_store.specs.Told.{FailsOutside, MakesLog, BeginsEntry};

use crate::err::{StoreErr, outside_err};
use crate::store::Store;
use gs_disk::Disk;
use gs_entries::{Entry, Texts};
use gs_log::Log;
use gs_types::{Blob, NoMemory};
use std::alloc::Global;

fn copy_of(alloc: Global, t: &Texts) -> Result<Texts, NoMemory>
    ensures { IfOk result (λ copy. copy ≡ t.now) }
{
    Ok(Texts {
        idl_name: t.idl_name.copy(),
        idl: Blob::copy(alloc, t.idl.bytes())?,
        program_name: t.program_name.copy(),
        program: Blob::copy(alloc, t.program.bytes())?,
    })
}

impl Store {
    /// Makes an empty log where there is none.
    fn make_log<D: Disk>(&mut self, alloc: Global, disk: &mut D) -> Result<(), StoreErr>
        requires none { self.old.entries ≡ [] }
        requires disk_of_store { D.tells → IsDiskOf self.old (D.state disk.old) }
        ensures store { OnOk result (self.new ≡ no_entries) }
        ensures makes { D.tells → MakesLog (D.state disk.old) (D.state disk.new) result }
        ensures fails { FailsOutside (D.state disk.old) (D.state disk.new) result }
    {
        if self.log.is_some() {
            return Ok(());
        }
        match Log::create(alloc, disk) {
            Ok(log) => {
                self.log = Some(log);
                Ok(())
            }
            Err(e) => Err(outside_err(e)),
        }
    }

    /// Begins the record of a run of these texts, over a store in which nothing is recorded. It
    /// answers only `DiskFault` and `NoMemory`.
    pub fn begin<D: Disk>(&mut self, alloc: Global, disk: &mut D, t: &Texts) -> Result<(), StoreErr>
        requires fresh { stage_of self.old.entries ≡ stages.Fresh }
        requires fits { entry.fits (made.Header t.now) ≡ true }
        requires disk_of_store { D.tells → IsDiskOf self.old (D.state disk.old) }
        ensures store { OnOk result (self.new ≡ with_entry no_entries (made.Header t.now)) }
        ensures begins { D.tells
            → BeginsEntry (made.Header t.now) (D.state disk.old) (D.state disk.new) result }
        ensures fails { FailsOutside (D.state disk.old) (D.state disk.new) result }
    {
        let _ = &self.book;
        let t = copy_of(alloc, t)?;
        if let Err(failure) = self.make_log(alloc, disk) {
            return Err(failure);
        }
        self.add(alloc, disk, Entry::Header { t })
    }
}
