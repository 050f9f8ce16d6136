// Reports, removals and plans over records, each that is none, and each durations file that isn't
// one.
use crate::{BadStore, CleanStop, PlanStop, ReportStop, clean, plan, report};
use gs_disk::{DiskErr, DiskName, MemDisk};
use gs_plan::DurKind;
use gs_types::{MemSink, Name, NoMemory, Version};
use std::alloc::Global;
use std::test::Fail;

const HEADER: &[u8] =
    b"\x01\x01\x05\0\0\0k.idl=\0\0\0interface K { void join(in File a, in File b, out File c); };\x03\0\0\0p.c\0\0\0\0";

const BAD_HEADER: &[u8] = b"\x01\x01\x05\0\0\0k.idl\x02\0\0\0ab\x03\0\0\0p.c\0\0\0\0";

const DONE: &[u8] = b"\x02\x01\0\0\0\0\x01\x03\x01\x03\0\0\0\0\0\0\0";

const GATE: &[u8] =
    b"\x03\x03\0\0\0\x01\0\0\0A\x01\0\0\0B\x01\0\0\0C\x01\0\0\0\x02\0\0\0\x01\x01\0\0\0\x03\x03\0\0\0\0\0\0\0\0\0\0\0\0\0\0\0\x02\0\0\0\x01\x01\0\0\0\0\x02\0\0\0\0\x01\0\0\0\x01\x02\0\0\0\x06";

/// The call is of an operation that the interface doesn't have.
const UNFIT_GATE: &[u8] =
    b"\x03\x03\0\0\0\x01\0\0\0A\x01\0\0\0B\x01\0\0\0C\x01\0\0\0\x02\0\0\0\x01\x01\0\0\0\x03\x03\0\0\0\0\0\0\0\0\0\0\0\0\0\0\0\x02\0\0\0\x01\x01\0\0\0\x01\x02\0\0\0\0\x01\0\0\0\x01\x02\0\0\0\x06";

const CLOSED: &[u8] = b"\x04";

// The bytes of a log with these payloads, each of fewer than 256 bytes.
fn log_of(alloc: Global, payloads: &[&[u8]]) -> Result<Vec<u8>, NoMemory> {
    let mut bytes = Vec::new(alloc);
    for payload in payloads {
        bytes.push(1)?;
        bytes.push((payload.len() % 256) as u8)?;
        bytes.extend_from_slice(b"\0\0\0")?;
        bytes.extend_from_slice(*payload)?;
    }
    bytes.push(0)?;
    Ok(bytes)
}

// A disk with a marked log of these payloads, the file of task 1, a user's file `C`, and a file `d`
// of durations.
fn disk_with(alloc: Global, payloads: &[&[u8]], durations: &[u8]) -> Result<MemDisk, DiskErr> {
    let Ok(log) = log_of(alloc, payloads) else {
        return Err(DiskErr::Memory);
    };
    let mut disk = MemDisk::new(alloc);
    disk.add(DiskName::of(b".gs.on"), b"")?;
    disk.add(DiskName::of(b".gs.log"), &log)?;
    disk.add(DiskName::of(b".gs.o.1.3"), b"abc")?;
    disk.add(DiskName::of(b"C"), b"abc")?;
    disk.add(DiskName::of(b"d"), durations)?;
    Ok(disk)
}

#[test]
fn a_report_is_written_and_changes_nothing(rt: HostRuntime) -> Result<(), Fail> {
    let alloc = rt.alloc();
    let mut disk = disk_with(alloc, &[HEADER, DONE, GATE, CLOSED], b"")?;
    let mut out = MemSink::new(alloc, 1000, Vec::new(alloc))?;
    assert!(rt; report(alloc, &mut disk, &mut out).is_ok());
    let told = b"stage closed\nrun k.idl p.c\ndone 1 3:file:3\nfile C 3 \
        ba7816bf8f01cfea414140de5dae2223b00361a396177a9cb410ff61f20015ad\nactions 2\ntext 0\n";
    assert!(rt; out.bytes() == told.as_slice());
    assert!(rt; disk.get(&DiskName::of(b".gs.on")).is_some());
    Ok(())
}

#[test]
fn a_report_of_no_store_names_what_is_bad(rt: HostRuntime) -> Result<(), Fail> {
    let alloc = rt.alloc();
    let mut out = MemSink::new(alloc, 1000, Vec::new(alloc))?;
    let mut disk = disk_with(alloc, &[HEADER, GATE, GATE], b"")?;
    let answer = report(alloc, &mut disk, &mut out);
    assert!(rt;
        matches!(
            answer,
            Err(ReportStop::Store {
                bad: BadStore::Record { index: 2 }
            })
        )
    );
    disk.add(DiskName::of(b".gs.log"), b"")?;
    let answer = report(alloc, &mut disk, &mut out);
    assert!(rt;
        matches!(
            answer,
            Err(ReportStop::Store {
                bad: BadStore::Log { at: 0 }
            })
        )
    );
    let mut disk = disk_with(alloc, &[HEADER, DONE], b"")?;
    disk.add(DiskName::of(b".gs.o.1.3"), b"ab")?;
    let answer = report(alloc, &mut disk, &mut out);
    assert!(rt;
        matches!(
            answer,
            Err(ReportStop::Store {
                bad: BadStore::Lost {
                    version: Version::Out { n: 1, place: 3 },
                    kept: 3,
                    found: Some(2)
                }
            })
        )
    );
    assert!(rt; out.bytes().is_empty());
    Ok(())
}

// A removal, with whether a file of the store is left, and whether the user's file is.
fn cleaned(
    alloc: Global,
    payloads: &[&[u8]],
) -> Result<(Result<(), CleanStop>, bool, bool), DiskErr> {
    let mut disk = disk_with(alloc, payloads, b"")?;
    let answer = clean(alloc, &mut disk);
    let left = disk.get(&DiskName::of(b".gs.on")).is_some()
        || disk.get(&DiskName::of(b".gs.log")).is_some()
        || disk.get(&DiskName::of(b".gs.o.1.3")).is_some();
    Ok((answer, left, disk.get(&DiskName::of(b"C")).is_some()))
}

#[test]
fn all_but_a_gated_store_is_removed(rt: HostRuntime) -> Result<(), Fail> {
    let alloc = rt.alloc();
    let gone = (Ok(()), false, true);
    assert_eq!(rt; cleaned(alloc, &[])?, gone);
    assert_eq!(rt; cleaned(alloc, &[HEADER, DONE])?, gone);
    assert_eq!(rt; cleaned(alloc, &[HEADER, DONE, GATE, CLOSED])?, gone);
    assert_eq!(rt; cleaned(alloc, &[GATE])?, gone);
    assert_eq!(rt;
        cleaned(alloc, &[HEADER, DONE, GATE])?,
        (Err(CleanStop::Gated), true, true)
    );
    Ok(())
}

// A plan of a record on two slots, by this file.
fn planned(
    alloc: Global,
    payloads: &[&[u8]],
    durations: &[u8],
    out: &mut MemSink,
) -> Result<Result<(), PlanStop>, Fail> {
    let mut disk = disk_with(alloc, payloads, durations)?;
    match Name::read(b"d") {
        Ok(name) => Ok(plan(alloc, &mut disk, 2, &name, out)),
        Err(_) => Err(Fail::from("a name")),
    }
}

#[test]
fn a_plan_is_written(rt: HostRuntime) -> Result<(), Fail> {
    let alloc = rt.alloc();
    let mut out = MemSink::new(alloc, 1000, Vec::new(alloc))?;
    let answer = planned(alloc, &[HEADER, DONE, GATE], b"join 7 # s\n", &mut out)?;
    assert!(rt; answer.is_ok());
    let wanted = b"task 1 slot 0 start 0 end 7\nend 7\nwork 7\nchain 1\nlength 7\n";
    assert!(rt; out.bytes() == wanted.as_slice());
    Ok(())
}

#[test]
fn what_cannot_be_planned_is_told_in_order(rt: HostRuntime) -> Result<(), Fail> {
    let alloc = rt.alloc();
    let mut out = MemSink::new(alloc, 1000, Vec::new(alloc))?;
    let answer = planned(alloc, &[HEADER, DONE], b"join", &mut out)?;
    assert!(rt; matches!(answer, Err(PlanStop::NoRun)));
    let answer = planned(alloc, &[BAD_HEADER, DONE, UNFIT_GATE], b"join", &mut out)?;
    assert!(rt;
        matches!(
            answer,
            Err(PlanStop::Store {
                bad: BadStore::Record { index: 0 }
            })
        )
    );
    let answer = planned(alloc, &[HEADER, DONE, UNFIT_GATE], b"join", &mut out)?;
    assert!(rt;
        matches!(
            answer,
            Err(PlanStop::Store {
                bad: BadStore::Record { index: 2 }
            })
        )
    );
    let answer = planned(alloc, &[HEADER, DONE, GATE], b"\njoin", &mut out)?;
    assert!(rt;
        matches!(
            answer,
            Err(PlanStop::BadText {
                line: 2,
                kind: DurKind::BadLine
            })
        )
    );
    let long = vec![in alloc; b'\n'; 65_537]?;
    let answer = planned(alloc, &[HEADER, DONE, GATE], long.as_slice(), &mut out)?;
    assert!(rt;
        matches!(
            answer,
            Err(PlanStop::BadText {
                line: 0,
                kind: DurKind::TooLong
            })
        )
    );
    assert!(rt; out.bytes().is_empty());
    Ok(())
}
