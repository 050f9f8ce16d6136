// The lines of entries.
ghost use Rattle.std.specs.Prelude.{◌≡◌, ◌++◌, OnOk};
ghost use Rattle.std.specs.List.{flat_map};
ghost use Rattle.gs_report.specs.Report.{note_text, out_text, entry_text};

use crate::put::{put, put_number, put_signed};
use gs_store::{Entry, Store};
use gs_types::{Note, OutNote};
use std::alloc::{AllocError, Global};

fn put_note(alloc: Global, text: &mut Vec<u8>, v: &Note) -> Result<(), AllocError>
    ensures { OnOk result (text.new.items ≡ text.old.items ++ note_text v.now) }
{
    match v {
        Note::File { len } => {
            put(text, b"file:")?;
            put_number(alloc, text, *len)
        }
        Note::Int { v } => {
            put(text, b"int:")?;
            put_signed(alloc, text, *v)
        }
        Note::Str { s } => {
            put(text, b"string:")?;
            put_number(alloc, text, s.bytes().len() as u64)
        }
    }
}

fn put_out(alloc: Global, text: &mut Vec<u8>, out: &OutNote) -> Result<(), AllocError>
    ensures { OnOk result (text.new.items ≡ text.old.items ++ out_text out.now) }
{
    put(text, b" ")?;
    put_number(alloc, text, out.place as u64)?;
    put(text, b":")?;
    put_note(alloc, text, &out.v)
}

fn put_outs(alloc: Global, text: &mut Vec<u8>, outs: &[OutNote]) -> Result<(), AllocError>
    ensures { OnOk result (text.new.items ≡ text.old.items ++ flat_map out_text outs.now) }
{
    for out in outs {
        put_out(alloc, text, out)?;
    }
    Ok(())
}

fn put_entry(alloc: Global, text: &mut Vec<u8>, e: &Entry) -> Result<(), AllocError>
    ensures { OnOk result (text.new.items ≡ text.old.items ++ entry_text e.now) }
{
    match e {
        Entry::Header { t } => {
            put(text, b"run ")?;
            put(text, t.idl_name.bytes())?;
            put(text, b" ")?;
            put(text, t.program_name.bytes())?;
            put(text, b"\n")
        }
        Entry::Done { n, outs, .. } => {
            put(text, b"done ")?;
            put_number(alloc, text, *n as u64)?;
            put_outs(alloc, text, outs.items())?;
            put(text, b"\n")
        }
        Entry::Gate { .. } | Entry::Closed => Ok(()),
    }
}

/// The lines of a record's entries, in the order of the log.
pub fn put_entries(alloc: Global, text: &mut Vec<u8>, store: &Store) -> Result<(), AllocError>
    ensures { OnOk result (text.new.items
        ≡ text.old.items ++ flat_map entry_text store.now.entries) }
{
    let mut i: u32 = 0;
    while let Some(e) = store.entry(i) {
        put_entry(alloc, text, e)?;
        i += 1;
    }
    Ok(())
}
