// The versions that entries name, and whether their files stand.
ghost use Rattle.std.specs.Prelude.{◌≡◌, ◌++◌, OnOk, IfOk, IfErr};
ghost use Rattle.gs_disk.specs.Folder.{Same};
ghost use Rattle.gs_disk.specs.Moments.{Passes};
ghost use Rattle.gs_store.specs.Versions as versions;
ghost use Rattle.gs_store.specs.Versions.{IsStanding, AllStand, outs_kept, finals_kept, kept_by};
ghost use Rattle.gs_store.specs.Told.{HasCause};
ghost use Rattle.gs_store.specs.Loading.{RefusesFile, RefusesFiles};

use crate::err::StoreErr;
use crate::names::{copy_version, version_file};
use gs_disk::Disk;
use gs_entries::Entry;
use gs_types::{FinalNote, NoMemory, Note, OutNote, Version};
use std::alloc::Global;

fn push_outs(n: u32, outs: &[OutNote], kept: &mut Vec<(Version, u64)>) -> Result<(), NoMemory>
    ensures { OnOk result (kept.new.items ≡ kept.old.items ++ outs_kept n outs.now) }
{
    for out in outs {
        if let Note::File { len } = &out.v {
            let version = Version::Out {
                n,
                place: out.place,
            };
            kept.push((version, *len))?;
        }
    }
    Ok(())
}

fn push_finals(finals: &[FinalNote], kept: &mut Vec<(Version, u64)>) -> Result<(), NoMemory>
    ensures { OnOk result (kept.new.items ≡ kept.old.items ++ finals_kept finals.now) }
{
    for last in finals {
        kept.push((copy_version(&last.version), last.len))?;
    }
    Ok(())
}

/// Puts the versions that an entry names behind others, with the lengths of their files.
pub fn push_kept(e: &Entry, kept: &mut Vec<(Version, u64)>) -> Result<(), NoMemory>
    ensures { OnOk result (kept.new.items ≡ kept.old.items ++ kept_by e.now) }
{
    match e {
        Entry::Done { n, outs, .. } => push_outs(*n, outs.items(), kept),
        Entry::Gate { g } => push_finals(g.finals.items(), kept),
        Entry::Header { .. } | Entry::Closed => Ok(()),
    }
}

/// The versions that entries name, with the lengths of their files, in the order of the entries.
pub fn kept_in(alloc: Global, entries: &[Entry]) -> Result<Vec<(Version, u64)>, NoMemory>
    ensures { IfOk result (λ kept. kept.items ≡ versions.kept_in entries.now) }
{
    let mut kept = Vec::new(alloc);
    for e in entries {
        push_kept(e, &mut kept)?;
    }
    Ok(kept)
}

/// Whether the file of a version stands with the length that was kept.
fn check_file<D: Disk>(disk: &mut D, version: &Version, kept: u64) -> Result<(), StoreErr>
    ensures stands { D.tells
        → OnOk result (IsStanding (D.state disk.old).folder version.now kept) }
    ensures refused { D.tells
        → IfErr result (RefusesFile (D.state disk.old).folder version.now kept) }
    ensures same { D.tells → (D.state disk.new).folder ≡ (D.state disk.old).folder }
    ensures images { D.tells → Passes Same (D.state disk.old) (D.state disk.new) }
    ensures cause { HasCause (D.state disk.old) (D.state disk.new) result }
{
    let found = disk.len(&version_file(version))?;
    if found == Some(kept) {
        return Ok(());
    }
    Err(StoreErr::LostVersion {
        version: copy_version(version),
        kept,
        found,
    })
}

/// Whether the files of all these versions stand with their lengths: the first that doesn't is
/// named.
pub fn check_files<D: Disk>(disk: &mut D, kept: &[(Version, u64)]) -> Result<(), StoreErr>
    ensures stand { D.tells → OnOk result (AllStand (D.state disk.old).folder kept.now) }
    ensures refused { D.tells → IfErr result (RefusesFiles (D.state disk.old).folder kept.now) }
    ensures same { D.tells → (D.state disk.new).folder ≡ (D.state disk.old).folder }
    ensures images { D.tells → Passes Same (D.state disk.old) (D.state disk.new) }
    ensures cause { HasCause (D.state disk.old) (D.state disk.new) result }
{
    for file in kept {
        if let Err(failure) = check_file(disk, &file.0, file.1) {
            return Err(failure);
        }
    }
    Ok(())
}
