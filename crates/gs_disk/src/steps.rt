// The calls of a disk in memory, on what it holds. A call that isn't to work, or finds no memory,
// counts as done, though nothing reads otherwise: noting it takes no memory. Only what undoes it
// does, and where that isn't found, no crash is told until the next sync.
ghost use Rattle.std.specs.Prelude.{◌≡◌, ◌≤◌, ◌⊎◌, ℕ, List, [], ◌∷◌, length, true, false, IsTrue, None, Some, IsSome, OnOk, OnErr, IfSome};
ghost use Rattle.gs_disk.specs.Folder.{MayWrite, overwritten};
ghost use Rattle.gs_disk.specs.Mem.{files_of, reads, done_of, settled, with_name, with_range};
ghost use Rattle.gs_disk.specs.Steps.{Stays, KeepsName, KeepsRange, Renames, Writes, Adds};

use crate::now::{Now, Since, Touch};
use crate::{DiskName, files};
use std::alloc::{AllocError, Global};
use std::mem;
use std::snapshot::Snapshot;

/// Takes out what was done since the last sync.
fn take_since(now: &mut Now) -> Snapshot<Since>
    ensures taken { result ≡ now.old.since }
    ensures files { now.new.files ≡ now.old.files }
    ensures touched { now.new.touched ≡ now.old.touched }
    ensures is_whole { now.new.is_whole ≡ now.old.is_whole }
{
    let none = Snapshot::of(&Since::Synced(Snapshot::of(&now.files)));
    mem::replace(&mut now.since, none)
}

/// Keeps what stands at a name that is to be created or removed.
fn keep_name(alloc: Global, now: &mut Now, name: &DiskName) -> Result<(), AllocError>
    ensures kept { OnOk result (KeepsName name.now now.old now.new) }
    ensures rest { now.new ≡ record now.old { touched = now.new.touched } }
{
    let before = files::copy(alloc, &now.files, name)?;
    now.touched.push(Touch::Renamed {
        name: name.copy(),
        before,
    })?;
    Ok(())
}

/// Notes that a name is created or removed, with what stands there.
fn note_name(alloc: Global, now: &mut Now, name: &DiskName)
    ensures done { done_of now.new ≡ with_name name.now (done_of now.old) }
    ensures kept { IsTrue now.new.is_whole → IsTrue now.old.is_whole
        × KeepsName name.now now.old now.new }
    ensures files { now.new.files ≡ now.old.files }
{
    if let Err(_) = keep_name(alloc, now, name) {
        now.is_whole = false;
    }
    let before = take_since(now);
    now.since = Snapshot::of(&Since::Named(name.copy(), before));
}

pub fn create(alloc: Global, now: &mut Now, name: &DiskName, works: bool) -> Result<(), AllocError>
    ensures went { Renames name.now now.old now.new }
    ensures made { OnOk result (IsTrue works → reads now.new name.now ≡ Some []) }
    ensures idle { works ≡ false → files_of now.new.files ≡ files_of now.old.files }
    ensures refused { OnErr result (files_of now.new.files ≡ files_of now.old.files) }
{
    note_name(alloc, now, name);
    if works {
        files::put(&mut now.files, name.copy(), Vec::new(alloc))?;
    }
    Ok(())
}

/// An absent file isn't removed, and so isn't touched.
pub fn remove(alloc: Global, now: &mut Now, name: &DiskName, works: bool)
    ensures went { IsSome (reads now.old name.now) → Renames name.now now.old now.new }
    ensures absent { reads now.old name.now ≡ None → Stays now.old now.new }
    ensures gone { IsTrue works → reads now.new name.now ≡ None }
    ensures idle { works ≡ false → files_of now.new.files ≡ files_of now.old.files }
{
    if files::get(&now.files, name).is_none() {
        return;
    }
    note_name(alloc, now, name);
    if works {
        files::remove(&mut now.files, name);
    }
}

/// Keeps what stands in a range that is to be written.
fn keep_range(
    alloc: Global,
    now: &mut Now,
    name: &DiskName,
    at: usize,
    len: usize,
) -> Result<(), AllocError>
    requires { MayWrite at len (reads now.old name.now) }
    ensures kept { OnOk result (KeepsRange name.now at len now.old now.new) }
    ensures rest { now.new ≡ record now.old { touched = now.new.touched } }
{
    let Some(file) = files::get(&now.files, name) else {
        return Ok(());
    };
    let before = files::part(alloc, file, at, len)?;
    let end = file.len();
    now.touched.push(Touch::Written {
        name: name.copy(),
        at,
        len,
        before,
        end,
    })?;
    Ok(())
}

/// Notes that a range is written, with what stands there.
fn note_range(alloc: Global, now: &mut Now, name: &DiskName, at: usize, len: usize)
    requires { MayWrite at len (reads now.old name.now) }
    ensures done { done_of now.new ≡ with_range (record { name = name.now; at = at; len = len })
        (done_of now.old) }
    ensures kept { IsTrue now.new.is_whole → IsTrue now.old.is_whole
        × KeepsRange name.now at len now.old now.new }
    ensures files { now.new.files ≡ now.old.files }
{
    if let Err(_) = keep_range(alloc, now, name, at, len) {
        now.is_whole = false;
    }
    let before = take_since(now);
    now.since = Snapshot::of(&Since::Wrote(name.copy(), at, len, before));
}

pub fn write(
    alloc: Global,
    now: &mut Now,
    name: &DiskName,
    at: usize,
    bytes: &[u8],
    works: bool,
) -> Result<(), AllocError>
    requires { MayWrite at (length bytes.now) (reads now.old name.now) }
    ensures went { Writes name.now at bytes.now now.old now.new }
    ensures written { OnOk result (IsTrue works
        → IfSome (reads now.old name.now) (λ file. reads now.new name.now
        ≡ Some (overwritten at bytes.now file))) }
    ensures idle { works ≡ false → files_of now.new.files ≡ files_of now.old.files }
    ensures refused { OnErr result (files_of now.new.files ≡ files_of now.old.files) }
{
    note_range(alloc, now, name, at, bytes.len());
    if works {
        files::write(&mut now.files, name, at, bytes)?;
    }
    Ok(())
}

/// Brings all that reads to the disk.
pub fn sync(now: &mut Now)
    ensures files { now.new.files ≡ now.old.files }
    ensures done { done_of now.new ≡ settled (files_of now.new.files) }
    ensures touched { now.new.touched.items ≡ [] }
{
    now.since = Snapshot::of(&Since::Synced(Snapshot::of(&now.files)));
    now.touched.clear();
    now.is_whole = true;
}

/// Puts a synced file there, and forgets what was done to its name.
pub fn add(now: &mut Now, name: DiskName, bytes: Vec<u8>) -> Result<(), AllocError>
    ensures added { OnOk result (Adds name bytes.items now.old now.new) }
    ensures refused { OnErr result (Stays now.old now.new) }
{
    let key = name.copy();
    let copy = Snapshot::of(&bytes);
    files::put(&mut now.files, name, bytes)?;
    now.touched.retain(|touch| touch.is_beside(&key));
    let before = take_since(now);
    now.since = Snapshot::of(&Since::Added(key, copy, before));
    Ok(())
}
