// The report of a record.
ghost use Rattle.std.specs.Prelude.{◌≡◌, ◌≤◌, ◌++◌, true, IfOk, IfErr, OnOk, slice_get};
ghost use Rattle.std.specs.List.{flat_map};
ghost use Rattle.gs_types.specs.declared.limits.TheConstants.{FILE_LIMIT};
ghost use Rattle.gs_disk.specs.Folder.{Same};
ghost use Rattle.gs_disk.specs.Moments.{Passes};
ghost use Rattle.gs_fields.specs.Format.{all_fit};
ghost use Rattle.gs_entries.specs.Entries.{entry};
ghost use Rattle.gs_entries.specs.Notes.{final};
ghost use Rattle.gs_entries.specs.declared.entry.Entry.TheVariants as made;
ghost use Rattle.gs_store.specs.Loading.{RefusesFile, RefusesFiles};
ghost use Rattle.gs_store.specs.Told.{HasCause};
ghost use Rattle.gs_store.specs.Versions.{IsStanding, AllStand, finals_kept};
ghost use Rattle.gs_report.specs.Report.{there, version_line, file_line, gate_text, stage_line, entry_text, IsReport, Refuses};

use crate::entries::put_entries;
use crate::put::{put, put_hex, put_line, put_number};
use crate::values::put_vars;
use gs_disk::Disk;
use gs_store::{GateNote, Stage, Store, StoreErr};
use gs_types::{Blob, FinalNote, Name};
use sha2::{Digest, Sha256};
use std::alloc::{AllocError, Global};

fn put_stage(text: &mut Vec<u8>, stage: Stage) -> Result<(), AllocError>
    ensures { OnOk result (text.new.items ≡ text.old.items ++ stage_line stage) }
{
    match stage {
        Stage::Fresh => put(text, b"stage fresh\n"),
        Stage::Running => put(text, b"stage running\n"),
        Stage::Gated => put(text, b"stage gated\n"),
        Stage::Closed => put(text, b"stage closed\n"),
    }
}

fn put_name(text: &mut Vec<u8>, names: &[Name], i: u32) -> Result<(), AllocError>
    ensures { OnOk result (text.new.items ≡ text.old.items ++ there (slice_get names.now i)) }
{
    match names.get(i as usize) {
        Some(name) => put(text, name.bytes()),
        None => Ok(()),
    }
}

// The line of a final whose version has these bytes.
fn put_file(
    alloc: Global,
    text: &mut Vec<u8>,
    names: &[Name],
    last: &FinalNote,
    bytes: &[u8],
) -> Result<(), AllocError>
    ensures { OnOk result (text.new.items
        ≡ text.old.items ++ version_line names.now last.now bytes.now) }
{
    put(text, b"file ")?;
    put_name(text, names, last.name)?;
    put(text, b" ")?;
    put_number(alloc, text, last.len)?;
    put(text, b" ")?;
    put_hex(text, &Sha256::digest(bytes))?;
    put(text, b"\n")
}

// Reads the version of a final, and puts its line.
fn put_final<D: Disk>(
    alloc: Global,
    text: &mut Vec<u8>,
    store: &Store,
    disk: &mut D,
    names: &[Name],
    last: &FinalNote,
) -> Result<(), StoreErr>
    requires small { last.now.len ≤ FILE_LIMIT }
    ensures text { D.tells → OnOk result (text.new.items
        ≡ text.old.items ++ file_line (D.state disk.old).folder names.now last.now) }
    ensures stands { D.tells
        → OnOk result (IsStanding (D.state disk.old).folder last.now.version last.now.len) }
    ensures refused { D.tells
        → IfErr result (RefusesFile (D.state disk.old).folder last.now.version last.now.len) }
    ensures same { D.tells → (D.state disk.new).folder ≡ (D.state disk.old).folder }
    ensures images { D.tells → Passes Same (D.state disk.old) (D.state disk.new) }
    ensures cause { HasCause (D.state disk.old) (D.state disk.new) result }
{
    match store.read_version(alloc, disk, &last.version, last.len) {
        Ok(bytes) => match put_file(alloc, text, names, last, bytes.bytes()) {
            Ok(()) => Ok(()),
            Err(_) => Err(StoreErr::NoMemory),
        },
        Err(failure) => Err(failure),
    }
}

fn put_finals<D: Disk>(
    alloc: Global,
    text: &mut Vec<u8>,
    store: &Store,
    disk: &mut D,
    names: &[Name],
    finals: &[FinalNote],
) -> Result<(), StoreErr>
    requires fits { all_fit final finals.now ≡ true }
    ensures text { D.tells → OnOk result (text.new.items
        ≡ text.old.items ++ flat_map (file_line (D.state disk.old).folder names.now) finals.now) }
    ensures stand { D.tells
        → OnOk result (AllStand (D.state disk.old).folder (finals_kept finals.now)) }
    ensures refused { D.tells
        → IfErr result (RefusesFiles (D.state disk.old).folder (finals_kept finals.now)) }
    ensures same { D.tells → (D.state disk.new).folder ≡ (D.state disk.old).folder }
    ensures images { D.tells → Passes Same (D.state disk.old) (D.state disk.new) }
    ensures cause { HasCause (D.state disk.old) (D.state disk.new) result }
{
    for last in finals {
        if let Err(failure) = put_final(alloc, text, store, disk, names, last) {
            return Err(failure);
        }
    }
    Ok(())
}

// What the main program left.
fn put_gate<D: Disk>(
    alloc: Global,
    text: &mut Vec<u8>,
    store: &Store,
    disk: &mut D,
    g: &GateNote,
) -> Result<(), StoreErr>
    requires fits { entry.fits (made.Gate g.now) ≡ true }
    ensures text { D.tells → OnOk result (text.new.items
        ≡ text.old.items ++ gate_text (D.state disk.old).folder g.now) }
    ensures stand { D.tells
        → OnOk result (AllStand (D.state disk.old).folder (finals_kept g.now.finals)) }
    ensures refused { D.tells
        → IfErr result (RefusesFiles (D.state disk.old).folder (finals_kept g.now.finals)) }
    ensures same { D.tells → (D.state disk.new).folder ≡ (D.state disk.old).folder }
    ensures images { D.tells → Passes Same (D.state disk.old) (D.state disk.new) }
    ensures cause { HasCause (D.state disk.old) (D.state disk.new) result }
{
    put_vars(alloc, text, g.vars.items())?;
    if let Err(failure) = put_finals(alloc, text, store, disk, g.names.items(), g.finals.items()) {
        return Err(failure);
    }
    put_line(alloc, text, b"actions", g.actions.len() as u64)?;
    put_line(alloc, text, b"text", g.text.bytes().len() as u64)?;
    Ok(())
}

/// The report of a record: its stage, then a line for its header and for each task that is done, in
/// the order of the log, then what the main program left, with the digest of each final's version.
/// `LostVersion` exactly where the file of a final's version is absent or of another length, with
/// the first.
pub fn report<D: Disk>(alloc: Global, store: &Store, disk: &mut D) -> Result<Blob, StoreErr>
    ensures text { D.tells
        → IfOk result (λ b. IsReport (D.state disk.old).folder store.now.entries b) }
    ensures refused { D.tells
        → IfErr result (λ e. Refuses (D.state disk.old).folder store.now.entries e) }
    ensures same { D.tells → (D.state disk.new).folder ≡ (D.state disk.old).folder }
    ensures images { D.tells → Passes Same (D.state disk.old) (D.state disk.new) }
    ensures cause { HasCause (D.state disk.old) (D.state disk.new) result }
{
    let mut text = Vec::new(alloc);
    put_stage(&mut text, store.stage())?;
    put_entries(alloc, &mut text, store)?;
    if let Some(g) = store.gate_note() {
        if let Err(failure) = put_gate(alloc, &mut text, store, disk, g) {
            return Err(failure);
        }
    }
    Ok(Blob::of(text))
}
