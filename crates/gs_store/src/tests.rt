// Loading, reading versions, and a record from its beginning to its end.
ghost use Rattle.std.specs.Prelude.{◌≡◌, ◌≤◌, true, OnOk, length};
ghost use Rattle.gs_types.specs.declared.limits.TheConstants.{FILE_LIMIT};
ghost use Rattle.gs_entries.specs.Entries.{entry};
ghost use Rattle.gs_store.specs.State.{IsDiskOf};
ghost use Rattle.gs_store.specs.Versions.{AllStand, kept_by};

use crate::kept::{check_files, push_kept};
use crate::names::out_file;
use crate::{Entry, OtherRun, Stage, Store, StoreErr, What};
use gs_disk::{Disk, DiskErr, DiskName, MemDisk};
use gs_entries::decode;
use gs_types::{NoMemory, Version};
use std::alloc::Global;
use std::test::Fail;

const HEADER: &[u8] = b"\x01\x01\x01\0\0\0i\x02\0\0\0ab\x01\0\0\0p\0\0\0\0";

const DONE: &[u8] = b"\x02\x01\0\0\0\0\x01\x03\x01\x03\0\0\0\0\0\0\0";

const OTHER: &[u8] = b"\x02\x02\0\0\0\0\0";

const GATE: &[u8] = b"\x03\0\0\0\0\0\0\0\0\0\0\0\0\0\0\0\0\x01\0\0\0\x06";

const CLOSED: &[u8] = b"\x04";

/// The bytes of a log with these payloads, each of fewer than 256 bytes.
fn log_of(alloc: Global, payloads: &[&[u8]]) -> Result<Vec<u8>, NoMemory> {
    let mut bytes = Vec::new(alloc);
    for payload in payloads {
        bytes.push(1)?;
        bytes.push((payload.len() % 256) as u8)?;
        bytes.extend_from_slice(b"\0\0\0")?;
        bytes.extend_from_slice(*payload)?;
    }
    bytes.push(0)?;
    Ok(bytes)
}

/// A synced disk with a marked log of these payloads and, where one is given, the file of task 1 at
/// place 3.
fn disk_with(alloc: Global, payloads: &[&[u8]], file: Option<&[u8]>) -> Result<MemDisk, DiskErr> {
    let Ok(log) = log_of(alloc, payloads) else {
        return Err(DiskErr::Memory);
    };
    let mut disk = MemDisk::new(alloc);
    disk.add(DiskName::of(b".gs.on"), b"")?;
    disk.add(DiskName::of(b".gs.log"), &log)?;
    if let Some(bytes) = file {
        disk.add(DiskName::of(b".gs.o.1.3"), bytes)?;
    }
    Ok(disk)
}

/// The stage of a record, or the index at which it is bad.
fn stage_or_bad(alloc: Global, payloads: &[&[u8]]) -> Result<Result<Stage, u32>, StoreErr> {
    let mut disk = disk_with(alloc, payloads, Some(b"abc"))?;
    match Store::load(alloc, &mut disk) {
        Ok(store) => Ok(Ok(store.stage())),
        Err(StoreErr::BadRecord { index }) => Ok(Err(index)),
        Err(failure) => Err(failure),
    }
}

/// The length that is found where the file of task 1 is lost; `None` where nothing is lost.
fn lost(alloc: Global, file: Option<&[u8]>) -> Result<Option<Option<u64>>, StoreErr> {
    let mut disk = disk_with(alloc, &[HEADER, DONE], file)?;
    match Store::load(alloc, &mut disk) {
        Ok(_) => Ok(None),
        Err(StoreErr::LostVersion { found, .. }) => Ok(Some(found)),
        Err(failure) => Err(failure),
    }
}

#[test]
fn a_record_loads_up_to_its_first_fault(rt: HostRuntime) -> Result<(), Fail> {
    let alloc = rt.alloc();
    let wholes: [(&[&[u8]], Stage); 5] = [
        (&[], Stage::Fresh),
        (&[HEADER], Stage::Running),
        (&[HEADER, DONE, OTHER], Stage::Running),
        (&[HEADER, DONE, GATE], Stage::Gated),
        (&[HEADER, GATE, CLOSED], Stage::Closed),
    ];
    for (payloads, stage) in wholes {
        assert_eq!(rt; stage_or_bad(alloc, payloads)?, Ok(stage));
    }
    let faulty: [(&[&[u8]], u32); 12] = [
        (&[DONE], 0),
        (&[GATE], 0),
        (&[CLOSED], 0),
        (&[HEADER, HEADER], 1),
        (&[HEADER, CLOSED], 1),
        (&[HEADER, DONE, OTHER, DONE, GATE], 3),
        (&[HEADER, GATE, HEADER], 2),
        (&[HEADER, GATE, DONE], 2),
        (&[HEADER, GATE, GATE], 2),
        (&[HEADER, DONE, GATE, CLOSED, CLOSED], 4),
        (&[HEADER, b"\x05", HEADER], 1),
        (&[b""], 0),
    ];
    for (payloads, index) in faulty {
        assert_eq!(rt; stage_or_bad(alloc, payloads)?, Err(index));
    }
    Ok(())
}

fn one_longer(alloc: Global, payload: &[u8]) -> Result<Vec<u8>, NoMemory> {
    let mut longer = Vec::from_slice(alloc, payload)?;
    longer.push(0)?;
    Ok(longer)
}

/// Whether behind a header a payload is an entry, but none of its fronts, and not with one byte
/// more.
fn is_whole_alone(alloc: Global, payload: &[u8]) -> Result<bool, StoreErr> {
    let longer = one_longer(alloc, payload)?;
    for len in 0..longer.len() + 1 {
        let is_entry = stage_or_bad(alloc, &[HEADER, &longer[..len]])?.is_ok();
        if is_entry != (len == payload.len()) {
            return Ok(false);
        }
    }
    Ok(true)
}

#[test]
fn an_entry_that_is_cut_short_or_longer_is_bad(rt: HostRuntime) -> Result<(), Fail> {
    let alloc = rt.alloc();
    for payload in [DONE, OTHER, GATE] {
        assert!(rt; is_whole_alone(alloc, payload)?);
    }
    Ok(())
}

#[test]
fn a_version_file_that_is_absent_or_of_another_length_is_lost(rt: HostRuntime) -> Result<(), Fail> {
    let alloc = rt.alloc();
    assert_eq!(rt; lost(alloc, Some(b"abc"))?, None);
    assert_eq!(rt; lost(alloc, None)?, Some(None));
    assert_eq!(rt; lost(alloc, Some(b"ab"))?, Some(Some(2)));
    assert_eq!(rt; lost(alloc, Some(b"abcd"))?, Some(Some(4)));
    Ok(())
}

#[test]
fn a_version_reads_as_it_stands(rt: HostRuntime) -> Result<(), Fail> {
    let alloc = rt.alloc();
    let mut disk = disk_with(alloc, &[HEADER, DONE], Some(b"abc"))?;
    let store = Store::load(alloc, &mut disk)?;
    assert!(rt; store.has_done(1) && !store.has_done(2));
    assert!(rt; store.entry(1).is_some() && store.entry(2).is_none());
    let version = Version::Out { n: 1, place: 3 };
    let blob = store.read_version(alloc, &mut disk, &version, 3)?;
    assert!(rt; blob.bytes() == b"abc".as_slice());
    let other = Version::Main { k: 7 };
    match store.read_version(alloc, &mut disk, &other, 3) {
        Err(StoreErr::LostVersion { kept, found, .. }) => assert!(rt; kept == 3 && found.is_none()),
        _ => assert!(rt; false),
    }
    Ok(())
}

/// Puts the file of a version where a run goes on: what a task that isn't done gave, or a content
/// that the main program wrote.
fn put<D: Disk>(store: &mut Store, disk: &mut D, v: &Version, bytes: &[u8]) -> Result<(), StoreErr>
    requires small { length bytes.now ≤ FILE_LIMIT }
    requires disk_of_store { D.tells → IsDiskOf store.old (D.state disk.old) }
{
    if store.stage() != Stage::Running {
        return Ok(());
    }
    match v {
        Version::Out { n, place } => {
            if store.has_done(*n) {
                return Ok(());
            }
            store.put_out(disk, *n, *place, bytes)
        }
        Version::Main { k } => store.put_main(disk, *k, bytes),
        Version::Original { .. } => Ok(()),
    }
}

/// Adds an entry whose files stand, where it may stand itself.
fn add_standing<D: Disk>(
    alloc: Global,
    store: &mut Store,
    disk: &mut D,
    e: Entry,
) -> Result<(), StoreErr>
    requires fits { entry.fits e ≡ true }
    requires files_stand { D.tells → AllStand (D.state disk.old).folder (kept_by e) }
    requires disk_of_store { D.tells → IsDiskOf store.old (D.state disk.old) }
{
    match e {
        Entry::Header { t } => {
            if store.stage() != Stage::Fresh {
                return Ok(());
            }
            store.begin(alloc, disk, &t)
        }
        Entry::Done { n, op, outs } => {
            if store.stage() != Stage::Running || store.has_done(n) {
                return Ok(());
            }
            store.done(alloc, disk, n, op, outs.into_vec())
        }
        Entry::Gate { g } => {
            if store.stage() != Stage::Running {
                return Ok(());
            }
            store.gate(alloc, disk, g)
        }
        Entry::Closed => {
            if store.stage() != Stage::Gated {
                return Ok(());
            }
            store.close(alloc, disk)
        }
    }
}

/// Adds an entry, where its files stand and it may stand itself.
fn add_checked<D: Disk>(
    alloc: Global,
    store: &mut Store,
    disk: &mut D,
    e: Entry,
    kept: &[(Version, u64)],
) -> Result<(), StoreErr>
    requires fits { entry.fits e ≡ true }
    requires its_own { kept.now ≡ kept_by e }
    requires disk_of_store { D.tells → IsDiskOf store.old (D.state disk.old) }
{
    check_files(disk, kept)?;
    add_standing(alloc, store, disk, e)
}

/// Loads the store of a disk, and adds the entry that a payload spells.
fn add(alloc: Global, disk: &mut MemDisk, payload: &[u8]) -> Result<(), StoreErr> {
    let Ok(e) = decode(alloc, payload) else {
        return Err(StoreErr::NoMemory);
    };
    let mut kept = Vec::new(alloc);
    push_kept(&e, &mut kept)?;
    let mut store = Store::load(alloc, disk)?;
    add_checked(alloc, &mut store, disk, e, &kept)
}

/// Loads the store of a disk, and puts the file of a version of at most 16,777,216 bytes.
fn put_loaded(alloc: Global, disk: &mut MemDisk, v: &Version, bytes: &[u8]) -> Result<(), StoreErr>
    requires { length bytes.now ≤ FILE_LIMIT }
{
    let mut store = Store::load(alloc, disk)?;
    put(&mut store, disk, v, bytes)
}

/// Whether a disk's record has these payloads, and none behind them, and its log these bytes.
fn has_record(alloc: Global, disk: &mut MemDisk, payloads: &[&[u8]]) -> Result<bool, StoreErr> {
    let bytes = log_of(alloc, payloads)?;
    let store = Store::load(alloc, disk)?;
    let count = (payloads.len() % 4_294_967_296) as u32;
    Ok(
        disk.get(&DiskName::of(b".gs.log")) == Some(bytes.as_slice())
            && store.entry(count).is_none()
            && (count == 0 || store.entry(count - 1).is_some()),
    )
}

#[test]
fn a_record_grows_entry_by_entry(rt: HostRuntime) -> Result<(), Fail> {
    let alloc = rt.alloc();
    let mut disk = MemDisk::new(alloc);
    add(alloc, &mut disk, HEADER)?;
    assert!(rt; has_record(alloc, &mut disk, &[HEADER])?);
    put_loaded(alloc, &mut disk, &Version::Out { n: 1, place: 3 }, b"abc")?;
    assert!(rt; has_record(alloc, &mut disk, &[HEADER])?);
    add(alloc, &mut disk, DONE)?;
    assert!(rt; has_record(alloc, &mut disk, &[HEADER, DONE])?);
    put_loaded(alloc, &mut disk, &Version::Main { k: 1 }, b"main")?;
    add(alloc, &mut disk, GATE)?;
    assert!(rt; has_record(alloc, &mut disk, &[HEADER, DONE, GATE])?);
    add(alloc, &mut disk, CLOSED)?;
    assert!(rt; has_record(alloc, &mut disk, &[HEADER, DONE, GATE, CLOSED])?);
    assert!(rt; disk.get(&DiskName::of(b".gs.o.1.3")) == Some(b"abc".as_slice()));
    assert!(rt; disk.get(&DiskName::of(b".gs.m.1")) == Some(b"main".as_slice()));
    Ok(())
}

/// The first part in which the texts of a header differ from those of the record with `HEADER`.
fn first_other(alloc: Global, other: &[u8]) -> Result<Option<What>, StoreErr> {
    let mut disk = disk_with(alloc, &[HEADER], None)?;
    let store = Store::load(alloc, &mut disk)?;
    if store.stage() == Stage::Fresh {
        return Err(StoreErr::NoMemory);
    }
    match decode(alloc, other) {
        Ok(Entry::Header { t }) => match store.same(&t) {
            Ok(()) => Ok(None),
            Err(OtherRun { what }) => Ok(Some(what)),
        },
        _ => Err(StoreErr::NoMemory),
    }
}

#[test]
fn a_record_is_of_its_own_texts_alone(rt: HostRuntime) -> Result<(), Fail> {
    let alloc = rt.alloc();
    for (other, what) in [
        (HEADER, None),
        (
            b"\x01\x01\x01\0\0\0j\x02\0\0\0ac\x01\0\0\0q\0\0\0\0".as_slice(),
            Some(What::IdlName),
        ),
        (
            b"\x01\x01\x01\0\0\0i\x02\0\0\0ac\x01\0\0\0q\0\0\0\0".as_slice(),
            Some(What::IdlText),
        ),
        (
            b"\x01\x01\x01\0\0\0i\x02\0\0\0ab\x01\0\0\0q\x01\0\0\0x".as_slice(),
            Some(What::ProgramName),
        ),
        (
            b"\x01\x01\x01\0\0\0i\x02\0\0\0ab\x01\0\0\0p\x01\0\0\0x".as_slice(),
            Some(What::ProgramText),
        ),
    ] {
        assert!(rt; first_other(alloc, other)? == what);
    }
    Ok(())
}

/// Puts a record of an open gate, a length and a payload.
fn put_record(to: &mut Vec<u8>, payload: &[u8]) -> Result<(), NoMemory> {
    to.push(1)?;
    to.extend_from_slice(&((payload.len() % 4_294_967_296) as u32).to_le_bytes())?;
    to.extend_from_slice(payload)?;
    Ok(())
}

/// Puts entries that the tasks from 1 to `count` are done, each with an empty file at place 1.
fn put_dones(to: &mut Vec<u8>, count: u32) -> Result<(), NoMemory> {
    for i in 0..count {
        let n = ((i % 10_000) + 1).to_le_bytes();
        let mut done = *b"\x02\0\0\0\0\0\x01\x01\x01\0\0\0\0\0\0\0\0";
        done[1] = n[0];
        done[2] = n[1];
        put_record(to, &done)?;
    }
    Ok(())
}

/// A gate's entry with 20,000 names of 200 bytes, a text of 16,777,216 bytes, and 50,000 actions,
/// of which the first 20,000 read the names.
fn large_gate(alloc: Global) -> Result<Vec<u8>, NoMemory> {
    let mut gate = Vec::from_slice(alloc, b"\x03\x20\x4e\0\0")?;
    for i in 0..20_000u32 {
        gate.extend_from_slice(&200u32.to_le_bytes())?;
        let mut name = [b'x'; 200];
        name[0] = b'0' + (i / 10_000 % 10) as u8;
        name[1] = b'0' + (i / 1_000 % 10) as u8;
        name[2] = b'0' + (i / 100 % 10) as u8;
        name[3] = b'0' + (i / 10 % 10) as u8;
        name[4] = b'0' + (i % 10) as u8;
        gate.extend_from_slice(&name)?;
    }
    gate.extend_from_slice(b"\0\0\0\0\0\0\0\x01")?;
    gate.extend_from_slice(&vec![in alloc; b'x'; 16_777_216]?)?;
    gate.extend_from_slice(b"\0\0\0\0\x51\xc3\0\0")?;
    for i in 0..50_000u32 {
        gate.push(3)?;
        gate.extend_from_slice(&(i % 20_000).to_le_bytes())?;
    }
    gate.push(6)?;
    Ok(gate)
}

/// A disk with a record of 10,000 tasks that are done and a large gate.
fn large_disk(alloc: Global) -> Result<MemDisk, DiskErr> {
    let Ok(log) = large_log(alloc) else {
        return Err(DiskErr::Memory);
    };
    let mut disk = MemDisk::new(alloc);
    disk.add(DiskName::of(b".gs.on"), b"")?;
    disk.add(DiskName::of(b".gs.log"), &log)?;
    for i in 0..10_000u32 {
        disk.add(out_file(i + 1, 1), b"")?;
    }
    Ok(disk)
}

fn large_log(alloc: Global) -> Result<Vec<u8>, NoMemory> {
    let mut log = Vec::new(alloc);
    put_record(&mut log, HEADER)?;
    put_dones(&mut log, 10_000)?;
    put_record(&mut log, &large_gate(alloc)?)?;
    log.push(0)?;
    Ok(log)
}

#[test]
fn the_largest_record_loads(rt: HostRuntime) -> Result<(), Fail> {
    let alloc = rt.alloc();
    let mut disk = large_disk(alloc)?;
    let store = Store::load(alloc, &mut disk)?;
    assert!(rt; store.stage() == Stage::Gated);
    assert!(rt; store.has_done(10_000) && !store.has_done(10_001));
    assert!(rt; store.entry(10_001).is_some() && store.entry(10_002).is_none());
    Ok(())
}
