// Entries as bytes and in order.
use crate::{Book, Entry, Failure, GateNote, Stage, decode, encode, is_gate_entry};
use gs_fields::{put_blob, put_u32};
use gs_types::{Blob, NoMemory, Note, PRINTED_LIMIT, Sequence};
use std::alloc::Global;
use std::test::Fail;

const HEADER: &[u8] = b"\x01\x01\x01\0\0\0i\x02\0\0\0ab\x01\0\0\0p\0\0\0\0";

const DONE: &[u8] = b"\x02\x01\0\0\0\0\x01\x03\x01\x03\0\0\0\0\0\0\0";

const OTHER: &[u8] = b"\x02\x02\0\0\0\0\0";

const EMPTY_GATE: &[u8] = b"\x03\0\0\0\0\0\0\0\0\0\0\0\0\0\0\0\0\x01\0\0\0\x06";

const CLOSED: &[u8] = b"\x04";

/// Two names, each with a final: an output of task 7 and what main wrote; a text, a number and a
/// string; a call that reads and writes, a wait, an opening, a closing, a barrier, a use and the
/// end.
fn full_gate(alloc: Global) -> Result<Vec<u8>, NoMemory> {
    let mut bytes = Vec::from_slice(alloc, b"\x03\x02\0\0\0\x01\0\0\0a\x01\0\0\0b\x02\0\0\0")?;
    bytes.extend_from_slice(b"\x01\0\0\0\x01\x07\0\0\0\x02\x09\0\0\0\0\0\0\0")?;
    bytes.extend_from_slice(b"\0\0\0\0\x02\x01\0\0\0\x03\0\0\0\0\0\0\0")?;
    bytes.extend_from_slice(b"\x02\0\0\0hi")?;
    bytes.extend_from_slice(b"\x02\0\0\0\x01\0\0\0n\x02\xff\xff\xff\xff\xff\xff\xff\xff")?;
    bytes.extend_from_slice(b"\x01\0\0\0s\x03\x01\0\0\0z")?;
    bytes.extend_from_slice(b"\x07\0\0\0\x01\x07\0\0\0\x3f\x01\0\0\0\0\x01\x01\0\0\0")?;
    bytes.extend_from_slice(b"\x02\x07\0\0\0\x03\0\0\0\0\x04\0\0\0\0\x05\x07\x07\0\0\0\x03\x06")?;
    Ok(bytes)
}

/// The same with the byte at a place changed.
fn changed_gate(alloc: Global, at: usize, b: u8) -> Result<Vec<u8>, NoMemory> {
    let mut bytes = full_gate(alloc)?;
    if at < bytes.len() {
        bytes[at] = b;
    }
    Ok(bytes)
}

fn is_entry(alloc: Global, bytes: &[u8]) -> bool {
    decode(alloc, bytes).is_ok()
}

/// Decoded and encoded again, the bytes are the same.
fn reads_back(alloc: Global, bytes: &[u8]) -> Result<bool, Failure> {
    let e = decode(alloc, bytes)?;
    let again = encode(alloc, &e)?;
    Ok(again.as_slice() == bytes)
}

/// Cut short at each byte, and with one byte more, they are no entry.
fn is_exact(alloc: Global, bytes: &[u8]) -> Result<bool, NoMemory> {
    for end in 0..bytes.len() {
        if is_entry(alloc, &bytes[..end]) {
            return Ok(false);
        }
    }
    let mut more = Vec::from_slice(alloc, bytes)?;
    more.push(0)?;
    Ok(!is_entry(alloc, &more))
}

/// The number of payloads that are taken before the first that is refused.
fn taken(alloc: Global, payloads: &[&[u8]]) -> Result<usize, Failure> {
    let mut book = Book::new(alloc);
    for (i, payload) in payloads.iter().enumerate() {
        match book.take(*payload) {
            Ok(()) => (),
            Err(Failure::NotEntry) => return Ok(i),
            Err(failure) => return Err(failure),
        }
    }
    Ok(payloads.len())
}

#[test]
fn a_done_entry_has_these_bytes(rt: HostRuntime) -> Result<(), Fail> {
    let alloc = rt.alloc();
    match decode(alloc, DONE)? {
        Entry::Done { n, op, outs } => {
            assert!(rt; n == 1 && op == 0 && outs.len() == 1);
            let out = outs.at(0);
            assert!(rt; out.place == 3 && matches!(out.v, Note::File { len: 3 }));
        }
        _ => assert!(rt; false),
    }
    Ok(())
}

#[test]
fn each_kind_of_entry_is_exactly_its_bytes(rt: HostRuntime) -> Result<(), Fail> {
    let alloc = rt.alloc();
    let gate = full_gate(alloc)?;
    for bytes in [HEADER, DONE, OTHER, EMPTY_GATE, gate.as_slice(), CLOSED] {
        assert!(rt; reads_back(alloc, bytes)?);
        assert!(rt; is_exact(alloc, bytes)?);
    }
    Ok(())
}

#[test]
fn a_gate_that_breaks_a_rule_is_refused(rt: HostRuntime) -> Result<(), Fail> {
    let alloc = rt.alloc();
    assert!(rt; is_entry(alloc, &changed_gate(alloc, 9, b'c')?));
    // two names alike, no name, and names that first stand in another order
    assert!(rt; !is_entry(alloc, &changed_gate(alloc, 9, b'b')?));
    assert!(rt; !is_entry(alloc, &changed_gate(alloc, 9, b'/')?));
    assert!(rt; !is_entry(alloc, &changed_gate(alloc, 100, 1)?));
    // a final of a name that isn't written first there, and of no name
    assert!(rt; !is_entry(alloc, &changed_gate(alloc, 19, 0)?));
    assert!(rt; !is_entry(alloc, &changed_gate(alloc, 37, 2)?));
    Ok(())
}

/// The note of the full gate.
fn full_note(alloc: Global) -> Result<GateNote, Failure> {
    match decode(alloc, &full_gate(alloc)?)? {
        Entry::Gate { g } => Ok(g),
        _ => Err(Failure::NotEntry),
    }
}

#[test]
fn a_note_is_told_to_be_a_gate_within_the_limits_alone(rt: HostRuntime) -> Result<(), Fail> {
    let alloc = rt.alloc();
    let mut note = full_note(alloc)?;
    assert!(rt; is_gate_entry(alloc, &note)?);
    note.text = Blob::of(vec![in alloc; b'x'; PRINTED_LIMIT]?);
    assert!(rt; is_gate_entry(alloc, &note)?);
    note.text = Blob::of(vec![in alloc; b'x'; PRINTED_LIMIT + 1]?);
    assert!(rt; !is_gate_entry(alloc, &note)?);
    // names that stand in no action
    let mut other = full_note(alloc)?;
    other.actions = Sequence::new(alloc);
    assert!(rt; !is_gate_entry(alloc, &other)?);
    Ok(())
}

#[test]
fn entries_out_of_order_are_refused(rt: HostRuntime) -> Result<(), Fail> {
    let alloc = rt.alloc();
    let all = [HEADER, DONE, OTHER, EMPTY_GATE, CLOSED];
    assert_eq!(rt; taken(alloc, &all)?, 5);
    for first in [DONE, EMPTY_GATE, CLOSED] {
        assert_eq!(rt; taken(alloc, &[first])?, 0);
    }
    for next in [HEADER, CLOSED] {
        assert_eq!(rt; taken(alloc, &[HEADER, next])?, 1);
    }
    assert_eq!(rt; taken(alloc, &[HEADER, DONE, OTHER, DONE])?, 3);
    for next in [HEADER, DONE, EMPTY_GATE] {
        assert_eq!(rt; taken(alloc, &[HEADER, EMPTY_GATE, next])?, 2);
    }
    for next in all {
        assert_eq!(rt; taken(alloc, &[HEADER, EMPTY_GATE, CLOSED, next])?, 3);
    }
    Ok(())
}

/// The entry that task `n` is done, without outputs.
fn done_of(alloc: Global, n: u32) -> Result<Vec<u8>, NoMemory> {
    let mut bytes = Vec::from_slice(alloc, b"\x02")?;
    put_u32(&mut bytes, n)?;
    bytes.extend_from_slice(b"\0\0")?;
    Ok(bytes)
}

/// Puts 20,000 names, which differ in their first five digits.
fn put_names(to: &mut Vec<u8>) -> Result<(), NoMemory> {
    put_u32(to, 20_000)?;
    for i in 0..20_000u32 {
        let mut name = [b'x'; 200];
        name[0] = b'0' + (i / 10_000 % 10) as u8;
        name[1] = b'0' + (i / 1_000 % 10) as u8;
        name[2] = b'0' + (i / 100 % 10) as u8;
        name[3] = b'0' + (i / 10 % 10) as u8;
        name[4] = b'0' + (i % 10) as u8;
        put_blob(to, &name)?;
    }
    Ok(())
}

/// Puts a final for each of 20,000 names.
fn put_finals(to: &mut Vec<u8>) -> Result<(), NoMemory> {
    put_u32(to, 20_000)?;
    for i in 0..20_000u32 {
        put_u32(to, i)?;
        to.extend_from_slice(b"\x01\x01\0\0\0\x01\0\0\0\0\0\0\0\0")?;
    }
    Ok(())
}

/// Puts 10,000 calls that write two names each, 40,000 openings, and the end.
fn put_actions(to: &mut Vec<u8>) -> Result<(), NoMemory> {
    put_u32(to, 50_001)?;
    for i in 0..10_000u32 {
        to.extend_from_slice(b"\x01\x01\0\0\0\0\0\x02")?;
        put_u32(to, 2 * i)?;
        put_u32(to, 2 * i + 1)?;
    }
    for _ in 0..40_000u32 {
        to.extend_from_slice(b"\x03\0\0\0\0")?;
    }
    to.extend_from_slice(b"\x06")?;
    Ok(())
}

#[test]
fn the_largest_record_is_taken(rt: HostRuntime) -> Result<(), Fail> {
    let alloc = rt.alloc();
    let mut book = Book::new(alloc);
    book.take(HEADER)?;
    for n in 0..10_000u32 {
        let bytes = done_of(alloc, n + 1)?;
        book.take(&bytes)?;
    }
    let mut gate = Vec::from_slice(alloc, b"\x03")?;
    put_names(&mut gate)?;
    put_finals(&mut gate)?;
    let text = vec![in alloc; b'x'; 16_777_216]?;
    put_blob(&mut gate, &text)?;
    put_u32(&mut gate, 0)?;
    put_actions(&mut gate)?;
    book.take(&gate)?;
    assert!(rt; book.stage() == Stage::Gated && book.entries().len() == 10_002);
    assert!(rt; book.has_done(10_000) && !book.has_done(10_001));
    Ok(())
}
