ghost use Rattle.std.specs.Prelude.{◌≤◌, length};

use crate::names::{log_file, mark_file};
use crate::{Log, LogErr, MAX_PAYLOAD, MAX_RECORDS};
use gs_disk::{Disk, DiskErr, Keep, MemDisk};
use std::alloc::Global;
use std::test::Fail;

/// Loads the log of a disk, or makes one where there is none: a sync, a length, and five calls
/// more.
fn open<D: Disk>(alloc: Global, disk: &mut D) -> Result<Log, LogErr> {
    disk.sync()?;
    match disk.len(&mark_file())? {
        Some(_) => Log::load(alloc, disk),
        None => Log::create(alloc, disk),
    }
}

/// Adds a payload to a disk's log that isn't full: four calls, and four more.
fn add<D: Disk>(alloc: Global, disk: &mut D, payload: &[u8]) -> Result<(), LogErr>
    requires { length payload.now ≤ 33554432 }
{
    let mut log = Log::load(alloc, disk)?;
    if log.count() as usize == MAX_RECORDS {
        return Ok(());
    }
    log.append(disk, payload)
}

/// A synced disk with a marked log of these bytes.
fn disk_with(alloc: Global, bytes: &[u8]) -> Result<MemDisk, DiskErr> {
    let mut disk = MemDisk::new(alloc);
    disk.add(mark_file(), b"")?;
    disk.add(log_file(), bytes)?;
    Ok(disk)
}

fn load_bytes(alloc: Global, bytes: &[u8]) -> Result<Log, LogErr> {
    let mut disk = disk_with(alloc, bytes)?;
    Log::load(alloc, &mut disk)
}

/// What is loaded after an append of `new` to `old` that stopped at a call: the number of records.
fn count_after_stop(alloc: Global, calls: u8, keep: Keep) -> Result<u32, LogErr> {
    let mut disk = disk_with(alloc, b"\x01\x03\0\0\0old\0")?;
    disk.stop_after(u64::from(calls) + 4);
    let _ = add(alloc, &mut disk, b"new");
    let mut left = disk.crash(keep)?;
    let log = Log::load(alloc, &mut left)?;
    Ok(log.count())
}

/// What is loaded after a making of a log that stopped at a call: the number of records, `None`
/// without a mark.
fn made_after_stop(alloc: Global, calls: u8, keep: Keep) -> Result<Option<u32>, LogErr> {
    let mut disk = MemDisk::new(alloc);
    disk.stop_after(u64::from(calls) + 2);
    let _ = open(alloc, &mut disk);
    let mut left = disk.crash(keep)?;
    match Log::load(alloc, &mut left) {
        Ok(log) => Ok(Some(log.count())),
        Err(LogErr::NoMark) => Ok(None),
        Err(e) => Err(e),
    }
}

#[test]
fn loads_what_is_in_the_grammar_alone(rt: HostRuntime) -> Result<(), Fail> {
    let alloc = rt.alloc();
    let log = load_bytes(alloc, b"\x01\x01\0\0\0\x05\x07")?;
    assert!(rt; log.count() == 1 && log.payload(0) == b"\x05".as_slice());
    assert!(rt; load_bytes(alloc, b"\0")?.count() == 0);
    for (bytes, at) in [
        (b"".as_slice(), 0),
        (b"\x01\x03\0\0\0AB".as_slice(), 0),
        (b"\x01\x01\0\0\0A".as_slice(), 0),
        (b"\x01\0\0\0\0\x01\x01\0\0\x02".as_slice(), 5),
    ] {
        match load_bytes(alloc, bytes) {
            Ok(_) => assert!(rt; false),
            Err(e) => assert_eq!(rt; e, LogErr::BadLog { at }),
        }
    }
    Ok(())
}

#[test]
fn an_append_writes_a_record_and_a_closed_gate(rt: HostRuntime) -> Result<(), Fail> {
    let alloc = rt.alloc();
    let mut disk = disk_with(alloc, b"\0")?;
    add(alloc, &mut disk, b"ABC")?;
    assert!(rt; disk.get(&log_file()) == Some(b"\x01\x03\0\0\0ABC\0"));
    assert_eq!(rt; disk.calls(), 8);
    Ok(())
}

#[test]
fn an_append_that_stops_is_whole_or_not_there(rt: HostRuntime) -> Result<(), Fail> {
    let alloc = rt.alloc();
    for (keep, opened) in [
        (Keep::Nothing, 4),
        (Keep::All, 3),
        (Keep::Byte { b: 0 }, 4),
        (Keep::Byte { b: 1 }, 2),
        (Keep::Byte { b: 2 }, 4),
    ] {
        for calls in 0..5u8 {
            let count = count_after_stop(alloc, calls, keep)?;
            assert!(rt;
                count == if calls < opened { 1 } else { 2 },
                "{calls}: {count}"
            );
        }
    }
    Ok(())
}

#[test]
fn a_creation_that_stops_leaves_no_mark_or_no_record(rt: HostRuntime) -> Result<(), Fail> {
    let alloc = rt.alloc();
    for (keep, marked) in [
        (Keep::Nothing, 5),
        (Keep::All, 4),
        (Keep::Byte { b: 0 }, 3),
        (Keep::Byte { b: 1 }, 3),
    ] {
        for calls in 0..6u8 {
            let count = made_after_stop(alloc, calls, keep)?;
            assert!(rt;
                count == if calls < marked { None } else { Some(0) },
                "{calls}"
            );
        }
    }
    Ok(())
}

#[test]
fn a_log_has_at_most_so_many_records(rt: HostRuntime) -> Result<(), Fail> {
    let alloc = rt.alloc();
    let mut bytes = Vec::new(alloc);
    for _ in 0..MAX_RECORDS {
        bytes.extend_from_slice(b"\x01\0\0\0\0")?;
    }
    bytes.push(0)?;
    let log = load_bytes(alloc, &bytes)?;
    assert_eq!(rt; log.count() as usize, MAX_RECORDS);
    bytes.truncate(5 * MAX_RECORDS);
    bytes.extend_from_slice(b"\x01\0\0\0\0\0")?;
    match load_bytes(alloc, &bytes) {
        Ok(_) => assert!(rt; false),
        Err(e) => assert_eq!(rt; e, LogErr::BadLog { at: 163_835 }),
    }
    Ok(())
}

#[test]
fn a_payload_may_be_of_the_greatest_length(rt: HostRuntime) -> Result<(), Fail> {
    let alloc = rt.alloc();
    let mut disk = disk_with(alloc, b"\0")?;
    let payload = vec![in alloc; 7u8; MAX_PAYLOAD]?;
    add(alloc, &mut disk, &payload)?;
    let log = Log::load(alloc, &mut disk)?;
    assert!(rt; log.count() == 1 && log.payload(0) == payload.as_slice());
    Ok(())
}
