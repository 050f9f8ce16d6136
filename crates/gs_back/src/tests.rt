// Bringing results to the user's files, and removing a record, also where they are cut off.
use crate::{BackErr, clean, write_back};
use gs_disk::{Disk, DiskErr, DiskName, Keep, MemDisk};
use gs_store::{Stage, Store, StoreErr, main_file, out_file};
use gs_types::{NoMemory, Version};
use std::alloc::Global;
use std::test::Fail;

const HEADER: &[u8] = b"\x01\x01\x01\0\0\0i\x02\0\0\0ab\x01\0\0\0p\0\0\0\0";

const DONE: &[u8] = b"\x02\x01\0\0\0\0\x01\x03\x01\x03\0\0\0\0\0\0\0";

/// Task 1 wrote `F`, and the main program `G`: 3 bytes and 4.
const GATE: &[u8] =
    b"\x03\x02\0\0\0\x01\0\0\0F\x01\0\0\0G\x02\0\0\0\0\0\0\0\x01\x01\0\0\0\x03\x03\0\0\0\0\0\0\0\x01\0\0\0\x02\x01\0\0\0\x04\0\0\0\0\0\0\0\0\0\0\0\0\0\0\0\x03\0\0\0\x01\x01\0\0\0\0\0\x01\0\0\0\0\x04\x01\0\0\0\x06";

const KEEPS: [Keep; 4] = [
    Keep::Nothing,
    Keep::All,
    Keep::Byte { b: 0 },
    Keep::Byte { b: b'x' },
];

/// The bytes of a log with these payloads, each of fewer than 256 bytes.
fn log_of(alloc: Global, payloads: &[&[u8]]) -> Result<Vec<u8>, NoMemory> {
    let mut bytes = Vec::new(alloc);
    for payload in payloads {
        bytes.push(1)?;
        bytes.push((payload.len() % 256) as u8)?;
        bytes.extend_from_slice(b"\0\0\0")?;
        bytes.extend_from_slice(*payload)?;
    }
    bytes.push(0)?;
    Ok(bytes)
}

/// A synced disk with a record whose results aren't in the user's files: `F`, which is of old, and
/// `G`, which is absent. `H` isn't of the run.
fn gated_disk(alloc: Global) -> Result<MemDisk, DiskErr> {
    let Ok(log) = log_of(alloc, &[HEADER, DONE, GATE]) else {
        return Err(DiskErr::Memory);
    };
    let mut disk = MemDisk::new(alloc);
    disk.add(DiskName::of(b".gs.on"), b"")?;
    disk.add(DiskName::of(b".gs.log"), &log)?;
    disk.add(out_file(1, 3), b"abc")?;
    disk.add(main_file(1), b"main")?;
    disk.add(DiskName::of(b"F"), b"of old")?;
    disk.add(DiskName::of(b"H"), b"other")?;
    Ok(disk)
}

/// Brings the results of a disk's record to the user's files, but for what comes after `calls`
/// calls. It gives what `write_back` answered; `None` where the record isn't gated.
fn bring(
    alloc: Global,
    disk: &mut MemDisk,
    calls: u64,
) -> Result<Option<Result<(), BackErr>>, StoreErr> {
    let store = Store::load(alloc, disk)?;
    if store.stage() != Stage::Gated {
        return Ok(None);
    }
    disk.stop_after(calls);
    Ok(Some(write_back(&store, disk)))
}

fn is_brought(answer: &Option<Result<(), BackErr>>) -> bool {
    matches!(answer, Some(Ok(())))
}

/// Whether a file reads so.
fn reads(disk: &MemDisk, name: &DiskName, bytes: &[u8]) -> bool {
    disk.get(name) == Some(bytes)
}

/// Whether the user's files are those that the run leaves.
fn is_set(disk: &MemDisk) -> bool {
    reads(disk, &DiskName::of(b"F"), b"abc")
        && reads(disk, &DiskName::of(b"G"), b"main")
        && reads(disk, &DiskName::of(b"H"), b"other")
}

#[test]
fn each_final_is_set_and_no_other_file(rt: HostRuntime) -> Result<(), Fail> {
    let alloc = rt.alloc();
    let mut disk = gated_disk(alloc)?;
    let calls = disk.calls();
    let answer = bring(alloc, &mut disk, u64::MAX)?;
    assert!(rt; is_brought(&answer) && is_set(&disk));
    assert!(rt; reads(&disk, &DiskName::of(b".gs.on"), b""));
    assert!(rt; disk.calls() > calls);
    Ok(())
}

#[test]
fn a_writing_that_stops_is_done_again(rt: HostRuntime) -> Result<(), Fail> {
    let alloc = rt.alloc();
    for keep in KEEPS {
        for calls in 0..10u64 {
            let mut disk = gated_disk(alloc)?;
            let answer = bring(alloc, &mut disk, calls)?;
            assert!(rt; is_brought(&answer) == (calls >= 9));
            let mut left = disk.crash(keep)?;
            assert!(rt; reads(&left, &DiskName::of(b"H"), b"other"));
            let again = bring(alloc, &mut left, u64::MAX)?;
            assert!(rt; is_brought(&again) && is_set(&left));
        }
    }
    Ok(())
}

/// What `write_back` finds of a version whose file was removed, or made of other bytes, after the
/// record was loaded.
fn found_lost(
    alloc: Global,
    name: &DiskName,
    bytes: Option<&[u8]>,
) -> Result<Option<Option<u64>>, StoreErr> {
    let mut disk = gated_disk(alloc)?;
    let store = Store::load(alloc, &mut disk)?;
    if store.stage() != Stage::Gated {
        return Ok(None);
    }
    match bytes {
        Some(bytes) => disk.add(name.copy(), bytes)?,
        None => disk.remove(name)?,
    }
    match write_back(&store, &mut disk) {
        Err(BackErr::Lost { found, .. }) => Ok(Some(found)),
        _ => Ok(None),
    }
}

#[test]
fn a_version_of_another_length_is_not_written(rt: HostRuntime) -> Result<(), Fail> {
    let alloc = rt.alloc();
    assert!(rt; found_lost(alloc, &main_file(1), None)? == Some(None));
    assert!(rt; found_lost(alloc, &main_file(1), Some(b"mai"))? == Some(Some(3)));
    assert!(rt; found_lost(alloc, &out_file(1, 3), Some(b"abcd"))? == Some(Some(4)));
    assert!(rt; found_lost(alloc, &main_file(1), Some(b"else"))?.is_none());
    Ok(())
}

/// Whether no file of the store is there, and the user's stand.
fn is_clean(disk: &MemDisk) -> bool {
    disk.get(&DiskName::of(b".gs.on")).is_none()
        && disk.get(&DiskName::of(b".gs.log")).is_none()
        && disk.get(&out_file(1, 3)).is_none()
        && disk.get(&main_file(1)).is_none()
        && reads(disk, &DiskName::of(b"F"), b"of old")
        && reads(disk, &DiskName::of(b"H"), b"other")
}

#[test]
fn a_cleaning_that_stops_leaves_the_record_or_no_mark(rt: HostRuntime) -> Result<(), Fail> {
    let alloc = rt.alloc();
    for keep in KEEPS {
        for calls in 0..8u64 {
            let mut disk = gated_disk(alloc)?;
            disk.stop_after(calls);
            let answer = clean(alloc, &mut disk);
            assert!(rt; answer.is_ok() == (calls >= 7));
            let mut left = disk.crash(keep)?;
            let stage = Store::load(alloc, &mut left)?.stage();
            assert!(rt; stage == Stage::Gated || (calls > 0 && stage == Stage::Fresh));
            clean(alloc, &mut left)?;
            assert!(rt; is_clean(&left));
        }
    }
    Ok(())
}
