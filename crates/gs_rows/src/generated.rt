// Generated lists of calls, against a plain computation of what they give one after the other.
use crate::desk::{IDL, LIST, name, reads, run_files};
use std::alloc::Global;
use std::test::Fail;

// A call of `join` on files of one letter: two that it reads, one that it writes.
type Call = [u8; 3];

// What stands in a file from a moment on.
#[derive(Drop)]
struct Held {
    letter: u8,
    bytes: Vec<u8>,
}

// A, B and C are there at first, each with its letter.
fn at_first(alloc: Global) -> Result<Vec<Held>, Fail> {
    let mut files = Vec::new(alloc);
    for letter in *b"ABC" {
        let mut bytes = Vec::new(alloc);
        bytes.push(letter)?;
        files.push(Held { letter, bytes })?;
    }
    Ok(files)
}

// The last that a file held.
fn last_of(files: &[Held], letter: u8) -> Option<&[u8]> {
    let mut last = None;
    for held in files {
        if held.letter == letter {
            last = Some(held.bytes.as_slice());
        }
    }
    last
}

fn letter_of(number: u32) -> u8 {
    match number % 5 {
        0 => b'A',
        1 => b'B',
        2 => b'C',
        3 => b'D',
        _ => b'E',
    }
}

// Up to six calls, by a generator of small numbers.
fn calls_of(alloc: Global, seed: u32) -> Result<Vec<Call>, Fail> {
    let mut calls = Vec::new(alloc);
    let mut state = seed;
    for _ in 0..(seed % 6).wrapping_add(1) {
        let mut call = [b'A'; 3];
        for letter in call.iter_mut() {
            state = state.wrapping_mul(1_103_515_245).wrapping_add(12_345);
            *letter = letter_of(state >> 16);
        }
        calls.push(call)?;
    }
    Ok(calls)
}

// Does the calls one after the other, and says whether each found its files.
fn carry_out(alloc: Global, calls: &[Call], files: &mut Vec<Held>) -> Result<bool, Fail> {
    for [first, then, into] in calls {
        let mut bytes = Vec::new(alloc);
        match (last_of(files, *first), last_of(files, *then)) {
            (Some(first), Some(then)) => {
                bytes.extend_from_slice(first)?;
                bytes.extend_from_slice(then)?;
            }
            _ => return Ok(false),
        }
        files.push(Held {
            letter: *into,
            bytes,
        })?;
    }
    Ok(true)
}

// The text of the program with these calls.
fn text_of(alloc: Global, calls: &[Call]) -> Result<Vec<u8>, Fail> {
    let mut text = Vec::new(alloc);
    text.extend_from_slice(b"main() {\n    GS_On();\n")?;
    for [first, then, into] in calls {
        text.extend_from_slice(b"    join(\"")?;
        text.push(*first)?;
        text.extend_from_slice(b"\", \"")?;
        text.push(*then)?;
        text.extend_from_slice(b"\", \"")?;
        text.push(*into)?;
        text.extend_from_slice(b"\");\n")?;
    }
    text.extend_from_slice(b"    GS_Off(0);\n}\n")?;
    Ok(text)
}

#[test]
fn generated_calls_give_what_they_give_one_after_the_other(rt: HostRuntime) -> Result<(), Fail> {
    let alloc = rt.alloc();
    let mut refused = 0_u32;
    for seed in 0..120 {
        let calls = calls_of(alloc, seed)?;
        let text = text_of(alloc, &calls)?;
        let files: [(&[u8], &[u8]); 6] = [
            (b"k.idl", IDL),
            (b"p.c", text.as_slice()),
            (b"w.txt", LIST),
            (b"A", b"A"),
            (b"B", b"B"),
            (b"C", b"C"),
        ];
        let made = run_files(&rt, alloc, &files)?;
        let mut wanted = at_first(alloc)?;
        if carry_out(alloc, &calls, &mut wanted)? {
            assert_eq!(rt; made.status, 0, "seed {seed}");
        } else {
            assert_eq!(rt; made.status, 7, "seed {seed}");
            wanted = at_first(alloc)?;
            refused = refused.wrapping_add(1);
        }
        for letter in *b"ABCDE" {
            match last_of(&wanted, letter) {
                Some(bytes) => assert!(rt; reads(&rt, &made.disk, &[letter], bytes)),
                None => assert_eq!(rt; made.disk.get(&name(&rt, &[letter])), None),
            }
        }
    }
    // both answers come often
    assert!(rt; refused > 20 && refused < 100);
    Ok(())
}
