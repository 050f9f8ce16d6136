// A disk in memory.
ghost use Rattle.std.specs.Prelude.{◌≡◌, ◌≤◌, ◌↔◌, ◌⊎◌, ℕ, List, [], ◌∷◌, length, None, Some, IfOk, IfSome, IsSome, OnOk, OnErr, IsErrOf, option_map, option_copied};
ghost use Rattle.gs_disk.specs.Folder.{KeepsOthers, Tears, Same, overwritten, MayWrite, HasCause, IsRead, Rise, Has};
ghost use Rattle.gs_disk.specs.Moments.{LeavesOnly, EachNow, Passes, Remembers};
ghost use Rattle.gs_disk.specs.Mem.{files_of, folder_of, as_disk, fresh, IsCall, unsynced, Puts, Notes, NotesNothing, settled, with_name, with_removal, with_range, with_file};
ghost use Rattle.gs_disk.specs.Images.{IsImage};
ghost use Rattle.gs_disk.specs.Crash.{IsKept};
ghost use Rattle.gs_disk.specs.declared.disk.DiskErr.TheVariants.{Fault, Memory};
ghost use Rattle.gs_disk.specs.declared.now.Past.TheVariants.{Then};

use crate::calls::Calls;
use crate::now::{Now, Past, Since};
use crate::{Disk, DiskErr, DiskName, Keep, crash, files, steps};
use std::alloc::Global;
use std::collections::BTreeMap;
use std::marker::Model;
use std::mem;
use std::snapshot::Snapshot;

/// A folder in memory, with calls that are to fail, and with what a crash may leave of it.
#[derive(Drop)]
pub struct MemDisk {
    alloc: Global,
    held: Now,
    // what it held before each call that might change it, for proofs alone
    past: Snapshot<Past>,
    calls: Calls,
}

impl Model for MemDisk {
    ghost use Rattle.gs_disk.specs.Mem.{MemState, files_of, done_of, behind};
    ghost use Rattle.gs_disk.specs.Steps.{IsSound};

    ghost Value = { MemState };

    ghost view = { λ m. record {
      files = files_of m.held.files;
      done = done_of m.held;
      past = behind m.past.value;
      failing = m.calls.failing;
      asked = m.calls.asked;
      working = m.calls.working;
      calls = m.calls.calls;
      faults = m.calls.faults;
      refusals = m.calls.refusals;
    } };

    ghost invariant = { λ m. IsSound m.held };
}

/// Puts what a disk held in front of what it held before.
fn note(past: &mut Snapshot<Past>, was: Snapshot<Now>)
    ensures { past.new.value ≡ Then was past.old }
{
    let before = mem::replace(past, Snapshot::of(&Past::Start));
    *past = Snapshot::of(&Past::Then(was, before));
}

impl MemDisk {
    /// An empty disk, synced, of which no call is to fail.
    pub fn new(alloc: Global) -> MemDisk
        ensures { result ≡ fresh [] }
    {
        MemDisk::of(alloc, BTreeMap::new(alloc))
    }

    /// A disk with these files, synced.
    fn of(alloc: Global, files: BTreeMap<DiskName, Vec<u8>>) -> MemDisk
        ensures { result ≡ fresh (files_of files) }
    {
        MemDisk {
            alloc,
            held: Now {
                since: Snapshot::of(&Since::Synced(Snapshot::of(&files))),
                files,
                touched: Vec::new(alloc),
                is_whole: true,
            },
            past: Snapshot::of(&Past::Start),
            calls: Calls::new(alloc),
        }
    }

    /// Puts a synced file there, in place of one of that name: it reads so in every image from now
    /// on. What was done to other names stays unsynced. It counts no call, and fails only with
    /// `Memory`; then nothing has changed.
    pub fn add(&mut self, name: DiskName, bytes: &[u8]) -> Result<(), DiskErr>
        ensures put { OnOk result (Puts name (Some bytes.now) (folder_of self.old.files)
            (folder_of self.new.files)) }
        ensures synced { OnOk result (EachNow (λ image. image name ≡ Some bytes.now)
            (as_disk self.new)) }
        ensures noted { OnOk result (Notes (with_file name bytes.now self.old.done) self.old
            self.new) }
        ensures images { OnOk result (Passes (KeepsOthers (name ∷ [])) (as_disk self.old)
            (as_disk self.new)) }
        ensures remembers { OnOk result (Remembers (as_disk self.old) (as_disk self.new)) }
        ensures rest { self.new ≡ record self.old {
          files = self.new.files;
          done = self.new.done;
          past = self.new.past;
        } }
        ensures refused { OnErr result (self.new ≡ self.old) }
        ensures memory { IsErrOf result Fault → ⊥ }
    {
        let Ok(copy) = Vec::from_slice(self.alloc, bytes) else {
            return Err(DiskErr::Memory);
        };
        let was = Snapshot::of(&self.held);
        if let Err(_) = steps::add(&mut self.held, name, copy) {
            return Err(DiskErr::Memory);
        }
        note(&mut self.past, was);
        Ok(())
    }

    /// An image that a crash may leave, as a synced disk on which no call was made and none is to
    /// fail. With `Keep::Nothing` it is the folder at the last sync, with `Keep::All` the folder as
    /// it reads. With `Keep::Byte` each name that was created or removed since has the one byte,
    /// and each other file its length as it reads, with that byte wherever it was written since. It
    /// fails only with `Memory`, also where a call since the last sync found no memory to keep what
    /// it changed.
    pub fn crash(self, keep: Keep) -> Result<MemDisk, DiskErr>
        ensures kept { IfOk result (λ left. IsKept keep (unsynced self) (folder_of self.files)
            (folder_of left.files)) }
        ensures image { IfOk result (λ left. IsImage (unsynced self) (folder_of self.files)
            (folder_of left.files)) }
        ensures synced { IfOk result (λ left. left ≡ fresh left.files) }
        ensures memory { IsErrOf result Fault → ⊥ }
    {
        let MemDisk { alloc, held, .. } = self;
        let Now {
            mut files,
            touched,
            is_whole,
            ..
        } = held;
        if !is_whole {
            return Err(DiskErr::Memory);
        }
        match crash::leave(alloc, &mut files, touched, keep) {
            Ok(()) => Ok(MemDisk::of(alloc, files)),
            Err(_) => Err(DiskErr::Memory),
        }
    }

    /// From now on, those calls of `Disk` fail with `Fault` and do nothing whose number is listed.
    /// The next call has the number 1.
    pub fn fail_at(&mut self, calls: Vec<u64>)
        ensures { self.new ≡ record self.old { failing = calls.items; asked = 0 } }
    {
        self.calls.fail_at(calls);
    }

    /// The next `k` calls of `Disk` work. The call after them is left in progress, and it and all
    /// later ones answer `Fault`: nothing reads otherwise, but a crash may leave what each of them
    /// may do.
    pub fn stop_after(&mut self, k: u64)
        ensures { self.new ≡ record self.old { working = Some k } }
    {
        self.calls.stop_after(k);
    }

    /// The bytes of a file; `None` exactly where it is absent. It counts no call.
    pub fn get(&self, name: &DiskName) -> Option<&[u8]>
        ensures { option_copied result ≡ folder_of self.now.files name.now }
    {
        files::get(&self.held.files, name)
    }

    /// The number of calls of `Disk` since the disk was made, at most 2^64 - 1.
    pub fn calls(&self) -> u64
        ensures { result ≡ self.now.calls }
    {
        self.calls.made()
    }
}

impl Disk for MemDisk {
    ghost use Rattle.std.specs.Prelude.{refl};
    ghost use Rattle.std.proofs.Common.{inl};

    ghost tells = { Unit {0} };

    ghost state = { as_disk };

    ghost reads_an_image = { λ told m. inl (inl refl) };

    fn len(&mut self, name: &DiskName) -> Result<Option<u64>, DiskErr>
        ensures value { IfOk result
            (λ n. n ≡ option_map length (folder_of self.old.files name.now)) }
        ensures same { self.new.files ≡ self.old.files }
        ensures images { Passes Same (as_disk self.old) (as_disk self.new) }
        ensures remembers { Remembers (as_disk self.old) (as_disk self.new) }
        ensures cause { HasCause (as_disk self.old) (as_disk self.new) result }
        ensures call { IsCall self.old self.new result }
        ensures noted { NotesNothing self.old self.new }
        ensures memory { IsErrOf result Memory → ⊥ }
    {
        if self.calls.is_failing() {
            return Err(DiskErr::Fault);
        }
        Ok(files::len(&self.held.files, name))
    }

    fn read_into(&mut self, name: &DiskName, at: u64, buf: &mut [u8]) -> Result<usize, DiskErr>
        ensures within { IfOk result (λ n. n ≤ length buf.old) }
        ensures value { IfOk result (λ n. IsRead at n (folder_of self.old.files name.now) buf.old
            buf.new) }
        ensures same { self.new.files ≡ self.old.files }
        ensures images { Passes Same (as_disk self.old) (as_disk self.new) }
        ensures remembers { Remembers (as_disk self.old) (as_disk self.new) }
        ensures cause { HasCause (as_disk self.old) (as_disk self.new) result }
        ensures call { IsCall self.old self.new result }
        ensures noted { NotesNothing self.old self.new }
        ensures idle { OnErr result (buf.new ≡ buf.old) }
        ensures memory { IsErrOf result Memory → ⊥ }
    {
        if self.calls.is_failing() {
            return Err(DiskErr::Fault);
        }
        Ok(files::read(&self.held.files, name, at, buf))
    }

    fn create(&mut self, name: &DiskName) -> Result<(), DiskErr>
        ensures made { OnOk result (folder_of self.new.files name.now ≡ Some []) }
        ensures others { KeepsOthers (name.now ∷ []) (folder_of self.old.files)
            (folder_of self.new.files) }
        ensures images { Passes (KeepsOthers (name.now ∷ [])) (as_disk self.old)
            (as_disk self.new) }
        ensures remembers { Remembers (as_disk self.old) (as_disk self.new) }
        ensures cause { HasCause (as_disk self.old) (as_disk self.new) result }
        ensures call { IsCall self.old self.new result }
        ensures noted { Notes (with_name name.now self.old.done) self.old self.new }
    {
        let was = Snapshot::of(&self.held);
        let fails = self.calls.is_failing();
        let done = steps::create(self.alloc, &mut self.held, name, !fails);
        note(&mut self.past, was);
        if fails {
            return Err(DiskErr::Fault);
        }
        match done {
            Ok(()) => Ok(()),
            Err(_) => Err(self.calls.refuse()),
        }
    }

    fn write(&mut self, name: &DiskName, at: u64, bytes: &[u8]) -> Result<(), DiskErr>
        requires { MayWrite at (length bytes.now) (folder_of self.old.files name.now) }
        ensures written { OnOk result (IfSome (folder_of self.old.files name.now)
            (λ old. folder_of self.new.files name.now ≡ Some (overwritten at bytes.now old))) }
        ensures torn { Tears name.now at (length bytes.now) (folder_of self.old.files)
            (folder_of self.new.files) }
        ensures images { Passes (Tears name.now at (length bytes.now)) (as_disk self.old)
            (as_disk self.new) }
        ensures remembers { Remembers (as_disk self.old) (as_disk self.new) }
        ensures cause { HasCause (as_disk self.old) (as_disk self.new) result }
        ensures call { IsCall self.old self.new result }
        ensures noted { Notes (with_range
            (record { name = name.now; at = at; len = length bytes.now }) self.old.done) self.old
            self.new }
    {
        let was = Snapshot::of(&self.held);
        let fails = self.calls.is_failing();
        let done = steps::write(self.alloc, &mut self.held, name, at as usize, bytes, !fails);
        note(&mut self.past, was);
        if fails {
            return Err(DiskErr::Fault);
        }
        match done {
            Ok(()) => Ok(()),
            Err(_) => Err(self.calls.refuse()),
        }
    }

    fn remove(&mut self, name: &DiskName) -> Result<(), DiskErr>
        ensures gone { OnOk result (folder_of self.new.files name.now ≡ None) }
        ensures others { KeepsOthers (name.now ∷ []) (folder_of self.old.files)
            (folder_of self.new.files) }
        ensures absent { folder_of self.old.files name.now ≡ None
            → folder_of self.new.files name.now ≡ None }
        ensures images { Passes (KeepsOthers (name.now ∷ [])) (as_disk self.old)
            (as_disk self.new) }
        ensures idle { folder_of self.old.files name.now ≡ None
            → Passes Same (as_disk self.old) (as_disk self.new) }
        ensures remembers { Remembers (as_disk self.old) (as_disk self.new) }
        ensures cause { HasCause (as_disk self.old) (as_disk self.new) result }
        ensures call { IsCall self.old self.new result }
        ensures noted { Notes (with_removal name.now (folder_of self.old.files name.now)
            self.old.done) self.old self.new }
        ensures memory { IsErrOf result Memory → ⊥ }
    {
        let was = Snapshot::of(&self.held);
        let fails = self.calls.is_failing();
        steps::remove(self.alloc, &mut self.held, name, !fails);
        note(&mut self.past, was);
        if fails {
            return Err(DiskErr::Fault);
        }
        Ok(())
    }

    fn names(&mut self, alloc: Global) -> Result<Vec<DiskName>, DiskErr>
        ensures all { IfOk result (λ names. (x : List ℕ)
            → Has x names.items ↔ IsSome (folder_of self.old.files x)) }
        ensures rising { IfOk result (λ names. Rise names.items) }
        ensures same { self.new.files ≡ self.old.files }
        ensures images { Passes Same (as_disk self.old) (as_disk self.new) }
        ensures remembers { Remembers (as_disk self.old) (as_disk self.new) }
        ensures cause { HasCause (as_disk self.old) (as_disk self.new) result }
        ensures call { IsCall self.old self.new result }
        ensures noted { NotesNothing self.old self.new }
    {
        if self.calls.is_failing() {
            return Err(DiskErr::Fault);
        }
        match files::names(alloc, &self.held.files) {
            Ok(names) => Ok(names),
            Err(_) => Err(self.calls.refuse()),
        }
    }

    fn sync(&mut self) -> Result<(), DiskErr>
        ensures same { self.new.files ≡ self.old.files }
        ensures images { Passes Same (as_disk self.old) (as_disk self.new) }
        ensures only { OnOk result (LeavesOnly (folder_of self.new.files) (as_disk self.new)) }
        ensures remembers { Remembers (as_disk self.old) (as_disk self.new) }
        ensures cause { HasCause (as_disk self.old) (as_disk self.new) result }
        ensures call { IsCall self.old self.new result }
        ensures noted { OnOk result (Notes (settled self.old.files) self.old self.new) }
        ensures failed { OnErr result (NotesNothing self.old self.new) }
        ensures memory { IsErrOf result Memory → ⊥ }
    {
        if !self.calls.is_failing() {
            let was = Snapshot::of(&self.held);
            steps::sync(&mut self.held);
            note(&mut self.past, was);
            return Ok(());
        }
        Err(DiskErr::Fault)
    }
}
