// Results that are brought back and recorded, also where that is cut off.
use crate::{Halt, finish};
use gs_disk::{DiskErr, DiskName, Keep, MemDisk};
use gs_site::{KitLaw, MemLink, Site};
use gs_store::{Stage, Store, main_file, out_file};
use gs_types::NoMemory;
use std::alloc::Global;
use std::test::Fail;

const HEADER: &[u8] = b"\x01\x01\x01\0\0\0i\x02\0\0\0ab\x01\0\0\0p\0\0\0\0";

const DONE: &[u8] = b"\x02\x01\0\0\0\0\x01\x03\x01\x03\0\0\0\0\0\0\0";

/// Task 1 wrote `F`, and the main program `G`: 3 bytes and 4.
const GATE: &[u8] =
    b"\x03\x02\0\0\0\x01\0\0\0F\x01\0\0\0G\x02\0\0\0\0\0\0\0\x01\x01\0\0\0\x03\x03\0\0\0\0\0\0\0\x01\0\0\0\x02\x01\0\0\0\x04\0\0\0\0\0\0\0\0\0\0\0\0\0\0\0\x03\0\0\0\x01\x01\0\0\0\0\0\x01\0\0\0\0\x04\x01\0\0\0\x06";

const KEEPS: [Keep; 4] = [
    Keep::Nothing,
    Keep::All,
    Keep::Byte { b: 0 },
    Keep::Byte { b: b'x' },
];

/// The bytes of a log with these payloads, each of fewer than 256 bytes.
fn log_of(alloc: Global, payloads: &[&[u8]]) -> Result<Vec<u8>, NoMemory> {
    let mut bytes = Vec::new(alloc);
    for payload in payloads {
        bytes.push(1)?;
        bytes.push((payload.len() % 256) as u8)?;
        bytes.extend_from_slice(b"\0\0\0")?;
        bytes.extend_from_slice(*payload)?;
    }
    bytes.push(0)?;
    Ok(bytes)
}

/// A synced disk with a record whose results aren't in the user's files: `F`, which is of old, and
/// `G`, which is absent. `H` isn't of the run.
fn gated_disk(alloc: Global) -> Result<MemDisk, DiskErr> {
    let Ok(log) = log_of(alloc, &[HEADER, DONE, GATE]) else {
        return Err(DiskErr::Memory);
    };
    let mut disk = MemDisk::new(alloc);
    disk.add(DiskName::of(b".gs.on"), b"")?;
    disk.add(DiskName::of(b".gs.log"), &log)?;
    disk.add(out_file(1, 3), b"abc")?;
    disk.add(main_file(1), b"main")?;
    disk.add(DiskName::of(b"F"), b"of old")?;
    disk.add(DiskName::of(b"H"), b"other")?;
    Ok(disk)
}

/// How finishing a disk's record ended, and the disk as that left it.
#[derive(Drop)]
struct Finished {
    disk: MemDisk,
    end: Option<Result<Stage, Halt>>,
}

/// Finishes a disk's record. It has no end where the record isn't loaded, or the program hasn't
/// ended.
fn finish_disk(alloc: Global, mut disk: MemDisk) -> Finished {
    let store = match Store::load(alloc, &mut disk) {
        Ok(store) => store,
        Err(_) => return Finished { disk, end: None },
    };
    match store.stage() {
        Stage::Fresh | Stage::Running => return Finished { disk, end: None },
        Stage::Gated | Stage::Closed => {}
    }
    let mut site = Site::new(disk, MemLink::new(alloc, KitLaw, Vec::new(alloc)));
    let answer = finish(alloc, store, &mut site);
    let (disk, _link) = site.take_apart();
    let end = match answer {
        Ok(store) => Ok(store.stage()),
        Err(halt) => Err(halt),
    };
    Finished {
        disk,
        end: Some(end),
    }
}

/// Whether a file reads so.
fn reads(disk: &MemDisk, name: &DiskName, bytes: &[u8]) -> bool {
    disk.get(name) == Some(bytes)
}

/// Whether the record is closed, and the user's files are those that the run leaves.
fn is_closed(f: &Finished) -> bool {
    matches!(f.end, Some(Ok(Stage::Closed)))
        && reads(&f.disk, &DiskName::of(b"F"), b"abc")
        && reads(&f.disk, &DiskName::of(b"G"), b"main")
        && reads(&f.disk, &DiskName::of(b"H"), b"other")
}

#[test]
fn results_are_brought_back_and_recorded_once(rt: HostRuntime) -> Result<(), Fail> {
    let alloc = rt.alloc();
    let first = finish_disk(alloc, gated_disk(alloc)?);
    assert!(rt; is_closed(&first));
    let Finished { mut disk, .. } = first;
    disk.add(DiskName::of(b"F"), b"changed")?;
    let again = finish_disk(alloc, disk);
    assert!(rt; matches!(again.end, Some(Ok(Stage::Closed))));
    assert!(rt; reads(&again.disk, &DiskName::of(b"F"), b"changed"));
    Ok(())
}

#[test]
fn a_finish_that_stops_is_done_again(rt: HostRuntime) -> Result<(), Fail> {
    let alloc = rt.alloc();
    for keep in KEEPS {
        for calls in 0..40u64 {
            let mut disk = gated_disk(alloc)?;
            disk.stop_after(calls);
            let mut stopped = finish_disk(alloc, disk);
            assert!(rt; is_closed(&stopped) || calls < 39);
            let again = finish_disk(alloc, stopped.disk.crash(keep)?);
            assert!(rt; is_closed(&again));
        }
    }
    Ok(())
}
