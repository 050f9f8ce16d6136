// The current directory as a disk, of which only the counts are told.
ghost use Rattle.std.specs.Prelude.{◌≡◌, ◌≤◌, IfOk, length};
ghost use Rattle.gs_disk.specs.Folder.{HasCause};
ghost use Rattle.gs_disk.specs.Counts.{Counts};
ghost use Rattle.gs_folder.specs.Told.{as_disk, IsNoted};

use crate::calls;
use crate::calls::Open;
use gs_disk::{Disk, DiskErr, DiskName};
use std::alloc::Global;
use std::collections::BTreeSet;
use std::io;
use std::io::ErrorKind;
use std::marker::Model;
use std::rt::Files;

/// The current directory. Each error of the system is counted: want of memory as a refusal, and any
/// other as a fault. The file that was read last and the one that was written last stay open, so
/// that to read or write on where the last call ended is one call of the system. They are closed
/// where the file is created or removed, and where a call on them fails.
#[derive(Drop)]
pub struct Folder<R: Files + AllocGlobal + Clone + Drop> {
    rt: R,
    alloc: Global,
    faults: u64,
    refusals: u64,
    // the file that was read last, and the one that was written last
    reading: Option<Open<R::File>>,
    writing: Option<Open<R::File>>,
    // the files that were touched since the last sync that succeeded
    touched: BTreeSet<DiskName>,
    // a name may have come or gone since then
    is_renamed: bool,
    // a sync has succeeded, so that nothing is left of an earlier process that was killed
    is_synced: bool,
}

impl<R: Files + AllocGlobal + Clone + Drop> Model for Folder<R> {
    ghost use Rattle.gs_folder.specs.Told.{Told};

    ghost Value = { Told };

    ghost view = { λ f. record { faults = f.faults; refusals = f.refusals } };
}

impl<R: Files + AllocGlobal + Clone + Drop> Folder<R> {
    /// The current directory, with both counts at 0.
    pub fn here(rt: R, alloc: Global) -> Folder<R>
        ensures { result ≡ record { faults = 0; refusals = 0 } }
    {
        Folder {
            rt,
            alloc,
            faults: 0,
            refusals: 0,
            reading: None,
            writing: None,
            touched: BTreeSet::new(alloc),
            is_renamed: true,
            is_synced: false,
        }
    }

    fn touch(&mut self, name: &DiskName) -> io::Result<()>
        ensures { self.new ≡ self.old }
    {
        self.touched.insert(name.copy())?;
        Ok(())
    }

    /// Closes the file where it is kept open.
    fn close(&mut self, name: &DiskName)
        ensures { self.new ≡ self.old }
    {
        calls::close(&mut self.reading, name);
        calls::close(&mut self.writing, name);
    }

    fn try_create(&mut self, name: &DiskName) -> io::Result<()>
        ensures { self.new ≡ self.old }
    {
        self.close(name);
        self.touch(name)?;
        self.is_renamed = true;
        calls::create(&self.rt, name)
    }

    fn try_write(&mut self, name: &DiskName, at: u64, bytes: &[u8]) -> io::Result<()>
        ensures { self.new ≡ self.old }
    {
        self.touch(name)?;
        calls::write_at(&self.rt, &mut self.writing, name, at, bytes)
    }

    fn try_remove(&mut self, name: &DiskName) -> io::Result<()>
        ensures { self.new ≡ self.old }
    {
        self.close(name);
        if calls::len(&self.rt, name)?.is_none() {
            return Ok(());
        }
        self.is_renamed = true;
        calls::remove(&self.rt, name)
    }

    /// Counts each file of the store that stands as touched.
    fn touch_store(&mut self) -> io::Result<()>
        ensures { self.new ≡ self.old }
    {
        for name in calls::names(&self.rt, self.alloc, b".gs.")? {
            self.touch(&name)?;
        }
        Ok(())
    }

    fn try_sync(&mut self) -> io::Result<()>
        ensures { self.new ≡ self.old }
    {
        if !self.is_synced {
            self.touch_store()?;
        }
        for name in &self.touched {
            calls::sync(&self.rt, name)?;
        }
        if self.is_renamed {
            calls::sync_names(&self.rt)?;
        }
        self.touched.clear();
        self.is_renamed = false;
        self.is_synced = true;
        Ok(())
    }

    /// Counts an error, and says which of the two it is.
    fn note(&mut self, e: io::Error) -> DiskErr
        ensures { IsNoted self.old self.new result }
    {
        if e.kind() == ErrorKind::OutOfMemory {
            self.refusals = self.refusals.saturating_add(1);
            DiskErr::Memory
        } else {
            self.faults = self.faults.saturating_add(1);
            DiskErr::Fault
        }
    }
}

impl<R: Files + AllocGlobal + Clone + Drop> Disk for Folder<R> {
    ghost tells = { ⊥ };

    ghost state = { as_disk };

    ghost reads_an_image = { λ told. absurd told };

    fn len(&mut self, name: &DiskName) -> Result<Option<u64>, DiskErr>
        ensures cause { HasCause (as_disk self.old) (as_disk self.new) result }
        ensures counts { Counts (as_disk self.old) (as_disk self.new) result }
    {
        match calls::len(&self.rt, name) {
            Ok(len) => Ok(len),
            Err(e) => Err(self.note(e)),
        }
    }

    fn read_into(&mut self, name: &DiskName, at: u64, buf: &mut [u8]) -> Result<usize, DiskErr>
        ensures within { IfOk result (λ n. n ≤ length buf.old) }
        ensures cause { HasCause (as_disk self.old) (as_disk self.new) result }
        ensures counts { Counts (as_disk self.old) (as_disk self.new) result }
    {
        match calls::read_at(&self.rt, &mut self.reading, name, at, buf) {
            Ok(n) => Ok(n),
            Err(e) => Err(self.note(e)),
        }
    }

    fn create(&mut self, name: &DiskName) -> Result<(), DiskErr>
        ensures cause { HasCause (as_disk self.old) (as_disk self.new) result }
        ensures counts { Counts (as_disk self.old) (as_disk self.new) result }
    {
        match self.try_create(name) {
            Ok(()) => Ok(()),
            Err(e) => Err(self.note(e)),
        }
    }

    fn write(&mut self, name: &DiskName, at: u64, bytes: &[u8]) -> Result<(), DiskErr>
        ensures cause { HasCause (as_disk self.old) (as_disk self.new) result }
        ensures counts { Counts (as_disk self.old) (as_disk self.new) result }
    {
        match self.try_write(name, at, bytes) {
            Ok(()) => Ok(()),
            Err(e) => Err(self.note(e)),
        }
    }

    fn remove(&mut self, name: &DiskName) -> Result<(), DiskErr>
        ensures cause { HasCause (as_disk self.old) (as_disk self.new) result }
        ensures counts { Counts (as_disk self.old) (as_disk self.new) result }
    {
        match self.try_remove(name) {
            Ok(()) => Ok(()),
            Err(e) => Err(self.note(e)),
        }
    }

    fn names(&mut self, alloc: Global) -> Result<Vec<DiskName>, DiskErr>
        ensures cause { HasCause (as_disk self.old) (as_disk self.new) result }
        ensures counts { Counts (as_disk self.old) (as_disk self.new) result }
    {
        match calls::names(&self.rt, alloc, b"") {
            Ok(names) => Ok(names),
            Err(e) => Err(self.note(e)),
        }
    }

    fn sync(&mut self) -> Result<(), DiskErr>
        ensures cause { HasCause (as_disk self.old) (as_disk self.new) result }
        ensures counts { Counts (as_disk self.old) (as_disk self.new) result }
    {
        match self.try_sync() {
            Ok(()) => Ok(()),
            Err(e) => Err(self.note(e)),
        }
    }
}
