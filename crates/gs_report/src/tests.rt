// Reports of records at each stage, texts that are made, and what the law says.
use crate::{SelfLaw, make, report};
use gs_disk::{DiskErr, DiskName, MemDisk};
use gs_store::{Store, StoreErr};
use gs_types::{Blob, Law, NoMemory, Value, Version};
use std::alloc::Global;
use std::test::Fail;

const HEADER: &[u8] = b"\x01\x01\x05\0\0\0k.idl\x02\0\0\0ab\x03\0\0\0p.c\0\0\0\0";

const DONE_1: &[u8] = b"\x02\x01\0\0\0\0\x01\x03\x01\x03\0\0\0\0\0\0\0";

const DONE_2: &[u8] =
    b"\x02\x02\0\0\0\x01\x02\x02\x02\xf9\xff\xff\xff\xff\xff\xff\xff\x03\x03\x03\0\0\0a\x0a\"";

const DONE_3: &[u8] = b"\x02\x03\0\0\0\x01\0";

const GATE: &[u8] =
    b"\x03\x03\0\0\0\x01\0\0\0A\x01\0\0\0B\x01\0\0\0C\x01\0\0\0\x02\0\0\0\x01\x01\0\0\0\x03\x03\0\0\0\0\0\0\0\0\0\0\0\0\0\0\0\x02\0\0\0\x01\x01\0\0\0\0\x02\0\0\0\0\x01\0\0\0\x01\x02\0\0\0\x06";

const GATE_VARS: &[u8] =
    b"\x03\x04\0\0\0\x01\0\0\0A\x01\0\0\0B\x01\0\0\0C\x08\0\0\0main.txt\x02\0\0\0\x02\0\0\0\x01\x01\0\0\0\x03\x03\0\0\0\0\0\0\0\x03\0\0\0\x02\x01\0\0\0\x05\0\0\0\0\0\0\0\x03\0\0\0hi\x0a\x03\0\0\0\x01\0\0\0n\x02\0\0\0\0\0\0\0\x80\x02\0\0\0_s\x03\x0b\0\0\0a\x0ab\x09c\x0dd\\e\"f\x05\0\0\0empty\x03\0\0\0\0\x06\0\0\0\x01\x01\0\0\0\0\x02\0\0\0\0\x01\0\0\0\x01\x02\0\0\0\x01\x02\0\0\0\x01\x01\x02\0\0\0\0\x07\x02\0\0\0\x02\x04\x03\0\0\0\x05\x06";

const CLOSED: &[u8] = b"\x04";

// The bytes of a log with these payloads.
fn log_of(alloc: Global, payloads: &[&[u8]]) -> Result<Vec<u8>, NoMemory> {
    let mut bytes = Vec::new(alloc);
    for payload in payloads {
        bytes.push(1)?;
        bytes.extend_from_slice(&((payload.len() % 4_294_967_296) as u32).to_le_bytes())?;
        bytes.extend_from_slice(*payload)?;
    }
    bytes.push(0)?;
    Ok(bytes)
}

// A disk with a marked log of these payloads, what the main program wrote, a user's file `C`, and,
// where one is given, the file of task 1 at place 3.
fn disk_with(alloc: Global, payloads: &[&[u8]], file: Option<&[u8]>) -> Result<MemDisk, DiskErr> {
    let Ok(log) = log_of(alloc, payloads) else {
        return Err(DiskErr::Memory);
    };
    let mut disk = MemDisk::new(alloc);
    disk.add(DiskName::of(b".gs.on"), b"")?;
    disk.add(DiskName::of(b".gs.log"), &log)?;
    disk.add(DiskName::of(b".gs.m.1"), b"main\n")?;
    disk.add(DiskName::of(b"C"), b"old")?;
    if let Some(bytes) = file {
        disk.add(DiskName::of(b".gs.o.1.3"), bytes)?;
    }
    Ok(disk)
}

fn report_of(alloc: Global, payloads: &[&[u8]]) -> Result<Blob, StoreErr> {
    let mut disk = disk_with(alloc, payloads, Some(b"abc"))?;
    let store = Store::load(alloc, &mut disk)?;
    report(alloc, &store, &mut disk)
}

#[test]
fn a_closed_record_is_reported_whole(rt: HostRuntime) -> Result<(), Fail> {
    let text = report_of(rt.alloc(), &[HEADER, DONE_1, GATE, CLOSED])?;
    let told = b"stage closed\nrun k.idl p.c\ndone 1 3:file:3\nfile C 3 \
        ba7816bf8f01cfea414140de5dae2223b00361a396177a9cb410ff61f20015ad\nactions 2\ntext 0\n";
    assert!(rt; text.bytes() == told.as_slice());
    Ok(())
}

#[test]
fn a_fresh_record_has_a_stage_alone(rt: HostRuntime) -> Result<(), Fail> {
    let alloc = rt.alloc();
    assert!(rt; report_of(alloc, &[])?.bytes() == b"stage fresh\n".as_slice());
    let mut disk = MemDisk::new(alloc);
    let store = Store::load(alloc, &mut disk)?;
    assert!(rt; report(alloc, &store, &mut disk)?.bytes() == b"stage fresh\n".as_slice());
    Ok(())
}

#[test]
fn what_is_done_stands_in_the_order_of_the_log(rt: HostRuntime) -> Result<(), Fail> {
    let alloc = rt.alloc();
    let text = report_of(alloc, &[HEADER, DONE_3, DONE_2, DONE_1])?;
    let told = b"stage running\nrun k.idl p.c\ndone 3\ndone 2 2:int:-7 3:string:3\n\
        done 1 3:file:3\n";
    assert!(rt; text.bytes() == told.as_slice());
    let begun = b"stage running\nrun k.idl p.c\n";
    assert!(rt; report_of(alloc, &[HEADER])?.bytes() == begun.as_slice());
    Ok(())
}

#[test]
fn a_gated_record_tells_variables_with_their_escapes(rt: HostRuntime) -> Result<(), Fail> {
    let text = report_of(rt.alloc(), &[HEADER, DONE_2, DONE_1, GATE_VARS])?;
    let told = b"stage gated\nrun k.idl p.c\ndone 2 2:int:-7 3:string:3\ndone 1 3:file:3\n\
        var n -9223372036854775808\nvar _s \"a\\nb\\tc\\rd\\\\e\\\"f\"\nvar empty \"\"\n\
        file C 3 ba7816bf8f01cfea414140de5dae2223b00361a396177a9cb410ff61f20015ad\n\
        file main.txt 5 6403203dd5a0867eb14d104ee8a73730bd72dd9ad92e78d996a6dba0a5dcfc01\n\
        actions 6\ntext 3\n";
    assert!(rt; text.bytes() == told.as_slice());
    Ok(())
}

// What is lost where a record that was loaded whole is reported from a disk with this file in place
// of the one of task 1: the length that was kept, and the one that was found.
fn lost(alloc: Global, file: Option<&[u8]>) -> Result<Option<(u64, Option<u64>)>, StoreErr> {
    let mut whole = disk_with(alloc, &[HEADER, DONE_1, GATE], Some(b"abc"))?;
    let store = Store::load(alloc, &mut whole)?;
    let mut other = disk_with(alloc, &[HEADER, DONE_1, GATE], file)?;
    match report(alloc, &store, &mut other) {
        Ok(_) => Ok(None),
        Err(
            StoreErr::LostVersion {
                version: Version::Out { n: 1, place: 3 },
                kept,
                found,
            },
        ) => Ok(Some((kept, found))),
        Err(failure) => Err(failure),
    }
}

#[test]
fn a_version_that_is_absent_or_of_another_length_is_lost(rt: HostRuntime) -> Result<(), Fail> {
    let alloc = rt.alloc();
    assert!(rt; lost(alloc, Some(b"xyz"))? == None);
    assert!(rt; lost(alloc, None)? == Some((3, None)));
    assert!(rt; lost(alloc, Some(b"ab"))? == Some((3, Some(2))));
    assert!(rt; lost(alloc, Some(b"abcd"))? == Some((3, Some(4))));
    Ok(())
}

#[test]
fn the_program_of_seed_0_begins_with_a_hash(rt: HostRuntime) -> Result<(), Fail> {
    let made = make(rt.alloc(), 0, 5)?;
    let program = b"main() {\nGS_On();\nhash(\"f1\", \"f2\", \"f9\");\n\
        hash(\"f6\", \"f0\", \"f14\");\nhash(\"f7\", \"f14\", \"f4\");\n\
        hash(\"f10\", \"f8\", \"f12\");\nhash(\"f4\", \"f7\", \"f7\");\nGS_Off(0);\n}\n";
    assert!(rt; made.program.bytes() == program.as_slice());
    let idl = b"interface SELF { void hash(in File a, in File b, out File c); \
        void mark(inout File f, in int i); };\n";
    assert!(rt; made.idl.bytes() == idl.as_slice());
    assert!(rt; made.workers.bytes() == b"a 4 in *\nb 4 in *\n".as_slice());
    assert_eq!(rt; made.next, 7571309944655988996);
    Ok(())
}

#[test]
fn the_interface_that_is_made_has_two_operations(rt: HostRuntime) -> Result<(), Fail> {
    let alloc = rt.alloc();
    let made = make(alloc, 0, 1)?;
    let idl = gs_idl::read(alloc, made.idl.bytes())?;
    assert_eq!(rt; idl.op_count(), 2);
    Ok(())
}

#[test]
fn the_largest_seed_marks_too(rt: HostRuntime) -> Result<(), Fail> {
    let made = make(rt.alloc(), 18446744073709551615, 6)?;
    let program = b"main() {\nGS_On();\nhash(\"f15\", \"f11\", \"f5\");\nmark(\"f6\", 2);\n\
        hash(\"f15\", \"f1\", \"f8\");\nhash(\"f4\", \"f1\", \"f5\");\nmark(\"f0\", 5);\n\
        hash(\"f8\", \"f4\", \"f4\");\nGS_Off(0);\n}\n";
    assert!(rt; made.program.bytes() == program.as_slice());
    assert_eq!(rt; made.next, 11393720185726527667);
    Ok(())
}

#[test]
fn the_largest_program_is_small(rt: HostRuntime) -> Result<(), Fail> {
    let made = make(rt.alloc(), 0, 2000)?;
    assert_eq!(rt; made.program.bytes().len(), 46697);
    assert_eq!(rt; made.next, 8873692687073243952);
    Ok(())
}

// The one file that the law gives, where it gives one.
fn gives(alloc: Global, op: &[u8], first: Value, second: Value) -> Result<Option<Blob>, NoMemory> {
    let ins = [first, second];
    let outs = SelfLaw.apply(alloc, op, ins.as_slice())?;
    match outs {
        Some(values) => match values.as_slice() {
            [Value::File { bytes }] => Ok(Some(Blob::copy(alloc, bytes.bytes())?)),
            _ => Ok(None),
        },
        None => Ok(None),
    }
}

fn file(alloc: Global, bytes: &[u8]) -> Result<Value, NoMemory> {
    Ok(Value::File {
        bytes: Blob::copy(alloc, bytes)?,
    })
}

#[test]
fn the_law_gives_digests(rt: HostRuntime) -> Result<(), Fail> {
    let alloc = rt.alloc();
    let joined = gives(alloc, b"hash", file(alloc, b"a")?, file(alloc, b"bc")?)?;
    let marked = gives(alloc, b"mark", file(alloc, b"ab")?, Value::Int { v: -7 })?;
    assert!(rt; joined.is_some() && marked.is_some());
    if let (Some(a), Some(b)) = (joined, marked) {
        assert!(rt;
            a.bytes()
                == b"\xba\x78\x16\xbf\x8f\x01\xcf\xea\x41\x41\x40\xde\x5d\xae\x22\x23\
            \xb0\x03\x61\xa3\x96\x17\x7a\x9c\xb4\x10\xff\x61\xf2\x00\x15\xad"
                    .as_slice()
        );
        assert!(rt;
            b.bytes()
                == b"\x20\x72\x43\xbd\x1e\xde\x74\xe8\xd5\xf4\x73\x3c\x15\xe8\x31\xf6\xfa\xc9\xe6\xec\xcd\xa3\x9f\x45\xac\x2b\x00\x41\xe7\x4d\x52\x8e".as_slice()
        );
    }
    assert!(rt; gives(alloc, b"has", file(alloc, b"a")?, file(alloc, b"bc")?)?.is_none());
    assert!(rt; gives(alloc, b"mark", file(alloc, b"a")?, file(alloc, b"bc")?)?.is_none());
    assert!(rt; gives(alloc, b"hash", file(alloc, b"a")?, Value::Int { v: 1 })?.is_none());
    Ok(())
}
