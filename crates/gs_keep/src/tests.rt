// Outputs of a task in a record on a disk in memory.
ghost use Rattle.std.specs.Prelude.{All};
ghost use Rattle.std.specs.Bool.{OnTrue};
ghost use Rattle.gs_keep.specs.Given.{IsWithin};

use crate::keep_outputs;
use gs_disk::{DiskErr, DiskName, Keep, MemDisk};
use gs_idl::{Idl, read};
use gs_store::{Stage, Store, StoreErr, out_file};
use gs_types::{Blob, FILE_LIMIT, NoMemory, Note, OutNote, Sequence, Text, Value};
use std::alloc::Global;
use std::test::Fail;

/// One operation, which gives something at each place but the first.
const KIT: &[u8] =
    b"interface K {\n    void f(in File a, out File b, inout File c, out int n, out string s);\n};\n";

/// A log with the header of a run alone, and a closed gate behind it.
const BEGUN: &[u8] = b"\x01\x16\0\0\0\x01\x01\x01\0\0\0i\x02\0\0\0ab\x01\0\0\0p\0\0\0\0\0";

/// The entry that task 1 gave a file of three bytes, an empty one, -2 and `z`.
const DONE: &[u8] =
    b"\x01\x2c\0\0\0\x02\x01\0\0\0\0\x04\x02\x01\x03\0\0\0\0\0\0\0\x03\x01\0\0\0\0\0\0\0\0\x04\x02\xfe\xff\xff\xff\xff\xff\xff\xff\x05\x03\x01\0\0\0z\0";

fn begun_disk(alloc: Global) -> Result<MemDisk, DiskErr> {
    let mut disk = MemDisk::new(alloc);
    disk.add(DiskName::of(b".gs.on"), b"")?;
    disk.add(DiskName::of(b".gs.log"), BEGUN)?;
    disk.add(DiskName::of(b"F"), b"the user's")?;
    Ok(disk)
}

/// A file of three bytes, an empty one, -2 and `z`.
fn given(alloc: Global) -> Result<Sequence<Value>, NoMemory> {
    let mut outs = Sequence::new(alloc);
    outs.push(Value::File {
        bytes: Blob::copy(alloc, b"abc")?,
    })?;
    outs.push(Value::File {
        bytes: Blob::copy(alloc, b"")?,
    })?;
    outs.push(Value::Int { v: -2 })?;
    if let Ok(s) = Text::read(alloc, b"z") {
        outs.push(Value::Str { s })?;
    }
    Ok(outs)
}

fn is_within(v: &Value) -> bool
    ensures { OnTrue result (IsWithin v.now) }
{
    match v {
        Value::File { bytes } => bytes.bytes().len() <= FILE_LIMIT,
        Value::Int { .. } | Value::Str { .. } => true,
    }
}

/// Each file is within its limit.
fn are_within(outs: &[Value]) -> bool
    ensures { OnTrue result (All IsWithin outs.now) }
{
    for v in outs {
        if !is_within(v) {
            return false;
        }
    }
    true
}

/// Keeps these as the outputs of task 1 in the record of a disk; `None` where that may not be.
fn keep(
    alloc: Global,
    disk: &mut MemDisk,
    idl: &Idl,
    outs: &[Value],
) -> Result<Option<Sequence<OutNote>>, StoreErr> {
    let mut store = Store::load(alloc, disk)?;
    if store.stage() != Stage::Running || store.has_done(1) || !are_within(outs) {
        return Ok(None);
    }
    let _count = idl.op_count();
    match keep_outputs(alloc, &mut store, disk, idl, 1, 0, outs) {
        Ok(notes) => Ok(Some(notes)),
        Err(failure) => Err(failure),
    }
}

fn is_note(note: &OutNote, place: u8, len: u64) -> bool {
    note.place == place && matches!(note.v, Note::File { len: found } if found == len)
}

#[test]
fn each_output_is_kept_at_its_place(rt: HostRuntime) -> Result<(), Fail> {
    let alloc = rt.alloc();
    let idl = read(alloc, KIT)?;
    let mut disk = begun_disk(alloc)?;
    let outs = given(alloc)?;
    let Some(notes) = keep(alloc, &mut disk, &idl, outs.items())? else {
        assert!(rt; false);
        return Ok(());
    };
    assert_eq!(rt; notes.len(), 4);
    assert!(rt; is_note(notes.at(0), 2, 3) && is_note(notes.at(1), 3, 0));
    assert!(rt; notes.at(2).place == 4 && matches!(notes.at(2).v, Note::Int { v: -2 }));
    assert!(rt; notes.at(3).place == 5 && matches!(notes.at(3).v, Note::Str { .. }));
    assert!(rt; disk.get(&out_file(1, 2)) == Some(b"abc".as_slice()));
    assert!(rt; disk.get(&out_file(1, 3)) == Some(b"".as_slice()));
    assert!(rt; disk.get(&out_file(1, 1)).is_none() && disk.get(&out_file(1, 4)).is_none());
    let log = disk.get(&DiskName::of(b".gs.log"));
    assert!(rt; log.is_some_and(|log| log.len() == 77 && log.ends_with(DONE)));
    assert!(rt; disk.get(&DiskName::of(b"F")) == Some(b"the user's".as_slice()));
    Ok(())
}

#[test]
fn a_crash_leaves_the_task_undone_or_with_its_files(rt: HostRuntime) -> Result<(), Fail> {
    let alloc = rt.alloc();
    let idl = read(alloc, KIT)?;
    let outs = given(alloc)?;
    for left in [
        Keep::Nothing,
        Keep::All,
        Keep::Byte { b: 0 },
        Keep::Byte { b: b'x' },
    ] {
        for calls in 0..10u64 {
            let mut disk = begun_disk(alloc)?;
            disk.stop_after(calls);
            let _ = keep(alloc, &mut disk, &idl, outs.items());
            let mut disk = disk.crash(left)?;
            let store = Store::load(alloc, &mut disk)?;
            let stands = disk.get(&out_file(1, 2)) == Some(b"abc".as_slice());
            assert!(rt; store.stage() == Stage::Running && (!store.has_done(1) || stands));
            assert!(rt; disk.get(&DiskName::of(b"F")) == Some(b"the user's".as_slice()));
        }
    }
    Ok(())
}
