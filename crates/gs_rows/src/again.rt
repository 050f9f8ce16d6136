// Runs that stopped, and go on or are refused where they are called again.
use crate::desk::{
    KIT, LIST, RUN, disk_of, kit_disk, name, reads, reported, run_by, run_with, told,
};
use gs_disk::{Keep, MemDisk};
use std::alloc::Global;
use std::process::Abort;
use std::test::Fail;

const TWO: &[u8] = b"w1 2 ./kit *\n";

const COPIED: &[u8] =
    b"main() { GS_On(); join(\"A\", \"B\", \"C\"); grow(\"A\", \"x\"); GS_Off(0); }";

const GROWN: &[u8] =
    b"main() { int n; GS_On(); grow(\"F\", \"1\"); grow(\"F\", \"2\"); count(\"F\", n); printf(\"%d\\n\", n); GS_Off(0); }";

#[test]
fn a_run_without_tasks_has_three_entries(rt: HostRuntime) -> Result<(), Fail> {
    let alloc = rt.alloc();
    let disk = kit_disk(&rt, alloc, b"main() { GS_On(); GS_Off(0); }", TWO)?;
    let made = run_by(alloc, &RUN, disk, b"")?;
    assert_eq!(rt; made.status, 0);
    assert!(rt; made.out.bytes().is_empty() && made.err.bytes().is_empty());
    assert!(rt; made.link.past().is_empty());
    let report = reported(&rt, alloc, made.disk)?;
    let wanted = b"stage closed\nrun k.idl p.c\nactions 1\ntext 0\n";
    assert_eq!(rt; report.out.bytes(), wanted.as_slice());
    Ok(())
}

#[test]
fn only_what_was_not_recorded_runs_again(rt: HostRuntime) -> Result<(), Fail> {
    let alloc = rt.alloc();
    let program =
        b"main() { GS_On(); join(\"A\", \"B\", \"C\"); join(\"B\", \"A\", \"C\"); GS_Off(0); }";
    let disk = kit_disk(&rt, alloc, program, TWO)?;
    let made = run_by(alloc, &RUN, disk, b"1!!!")?;
    assert_eq!(rt; made.status, 9);
    assert_eq!(rt; made.err.bytes(), b"gs: task lost: 1\n".as_slice());
    assert_eq!(rt; made.disk.get(&name(&rt, b"C")), None);
    let report = reported(&rt, alloc, made.disk)?;
    let wanted = b"stage running\nrun k.idl p.c\ndone 2 3:file:2\n";
    assert_eq!(rt; report.out.bytes(), wanted.as_slice());
    let again = run_by(alloc, &RUN, report.disk, b"")?;
    assert_eq!(rt; again.status, 0);
    assert_eq!(rt; told(alloc, again.link.past())?.as_str(), "+1@0 -1 ");
    assert!(rt; reads(&rt, &again.disk, b"C", b"ba"));
    Ok(())
}

// What a run leaves that stops after so many calls of the disk, and then crashes.
fn crashed(
    rt: &impl Abort,
    alloc: Global,
    mut disk: MemDisk,
    calls: u64,
    keep: Keep,
) -> Result<MemDisk, Fail> {
    disk.stop_after(calls);
    let made = run_by(alloc, &RUN, disk, b"")?;
    assert_eq!(*rt; made.status, 10, "after {calls} calls");
    match made.disk.crash(keep) {
        Ok(left) => Ok(left),
        Err(_) => {
            assert!(*rt; false);
            Ok(MemDisk::new(alloc))
        }
    }
}

#[test]
fn a_run_goes_on_after_each_crash(rt: HostRuntime) -> Result<(), Fail> {
    let alloc = rt.alloc();
    let whole = run_by(alloc, &RUN, kit_disk(&rt, alloc, COPIED, TWO)?, b"")?;
    let calls = whole.disk.calls();
    assert!(rt; calls > 40 && calls < 200);
    for k in 0..calls {
        for keep in [Keep::Nothing, Keep::All, Keep::Byte { b: 120 }] {
            let disk = kit_disk(&rt, alloc, COPIED, TWO)?;
            let left = crashed(&rt, alloc, disk, k, keep)?;
            let again = run_by(alloc, &RUN, left, b"")?;
            assert_eq!(rt; again.status, 0, "after {k} calls");
            assert!(rt; reads(&rt, &again.disk, b"A", b"ax\n"));
            assert!(rt; reads(&rt, &again.disk, b"B", b"b"));
            assert!(rt; reads(&rt, &again.disk, b"C", b"ab"));
        }
    }
    Ok(())
}

// A folder with two long files that are joined.
fn long_disk(rt: &impl Abort, alloc: Global) -> Result<MemDisk, Fail> {
    let first = [b'a'; 3_000];
    let then = [b'b'; 3_000];
    let program = b"main() { GS_On(); join(\"A\", \"B\", \"C\"); GS_Off(0); }";
    let files: [(&[u8], &[u8]); 5] = [
        (b"k.idl", KIT),
        (b"p.c", program),
        (b"w.txt", TWO),
        (b"A", &first),
        (b"B", &then),
    ];
    disk_of(rt, alloc, &files)
}

#[test]
fn results_that_were_being_brought_back_are_neither_removed_nor_lost(
    rt: HostRuntime,
) -> Result<(), Fail> {
    let alloc = rt.alloc();
    let whole = run_by(alloc, &RUN, long_disk(&rt, alloc)?, b"")?;
    let calls = whole.disk.calls();
    let mut both = Vec::new(alloc);
    both.extend_from_slice(&[b'a'; 3_000])?;
    both.extend_from_slice(&[b'b'; 3_000])?;
    let mut seen = 0_u32;
    for k in 0..calls {
        let left = crashed(&rt, alloc, long_disk(&rt, alloc)?, k, Keep::Byte { b: 122 })?;
        if reads(&rt, &left, b"C", b"z") {
            seen = seen.wrapping_add(1);
            let cleaned = run_by(alloc, &["clean"], left, b"")?;
            assert_eq!(rt; cleaned.status, 13);
            assert_eq!(rt; cleaned.err.bytes(), b"gs: gated\n".as_slice());
            let again = run_by(alloc, &RUN, cleaned.disk, b"")?;
            assert_eq!(rt; again.status, 0);
            assert!(rt; again.link.past().is_empty());
            assert!(rt; reads(&rt, &again.disk, b"C", &both));
        }
    }
    // the calls at which `C` was made and written
    assert!(rt; seen >= 2);
    Ok(())
}

#[test]
fn a_run_that_is_over_is_told_again_and_then_removed(rt: HostRuntime) -> Result<(), Fail> {
    let alloc = rt.alloc();
    let first = run_by(alloc, &RUN, kit_disk(&rt, alloc, GROWN, TWO)?, b"")?;
    assert_eq!(rt; first.status, 0);
    let again = run_by(alloc, &RUN, first.disk, b"")?;
    assert_eq!(rt; again.status, 0);
    assert_eq!(rt; again.out.bytes(), b"4\n".as_slice());
    assert!(rt; again.link.past().is_empty());
    // its own text with a blank more
    let mut disk = again.disk;
    let mut text = GROWN.to_vec(alloc)?;
    text.push(b' ')?;
    assert!(rt; disk.add(name(&rt, b"p.c"), &text).is_ok());
    let other = run_by(alloc, &RUN, disk, b"")?;
    assert_eq!(rt; other.status, 5);
    assert_eq!(rt;
        other.err.bytes(),
        b"gs: other run: program text\n".as_slice()
    );
    assert!(rt; other.out.bytes().is_empty());
    let cleaned = run_by(alloc, &["clean"], other.disk, b"")?;
    assert_eq!(rt; cleaned.status, 0);
    assert_eq!(rt; cleaned.disk.get(&name(&rt, b".gs.on")), None);
    assert_eq!(rt; cleaned.disk.get(&name(&rt, b".gs.log")), None);
    assert_eq!(rt; cleaned.disk.get(&name(&rt, b".gs.o.1.1")), None);
    assert!(rt; reads(&rt, &cleaned.disk, b"F", b"1\n2\n"));
    Ok(())
}

#[test]
fn a_text_that_was_not_taken_is_written_by_the_next_call(rt: HostRuntime) -> Result<(), Fail> {
    let alloc = rt.alloc();
    let mut failing = Vec::new(alloc);
    failing.push(1)?;
    let disk = kit_disk(&rt, alloc, GROWN, TWO)?;
    let made = run_with(alloc, &RUN, disk, Vec::new(alloc), failing, Vec::new(alloc))?;
    assert_eq!(rt; made.status, 11);
    assert_eq!(rt; made.err.bytes(), b"gs: sink fault\n".as_slice());
    assert!(rt; reads(&rt, &made.disk, b"F", b"1\n2\n"));
    let again = run_by(alloc, &RUN, made.disk, b"")?;
    assert_eq!(rt; again.status, 0);
    assert_eq!(rt; again.out.bytes(), b"4\n".as_slice());
    Ok(())
}

#[test]
fn a_fault_leaves_the_record_of_the_tasks_before_it(rt: HostRuntime) -> Result<(), Fail> {
    let alloc = rt.alloc();
    let program =
        b"main() { GS_On(); grow(\"A\", \"x\"); join(\"A\", \"Missing\", \"C\"); GS_Off(0); }";
    let disk = kit_disk(&rt, alloc, program, TWO)?;
    let made = run_by(alloc, &RUN, disk, b"")?;
    assert_eq!(rt; made.status, 7);
    assert_eq!(rt;
        made.err.bytes(),
        b"gs: program fault: line 1: NoFile\n".as_slice()
    );
    assert!(rt; reads(&rt, &made.disk, b"A", b"a"));
    let report = reported(&rt, alloc, made.disk)?;
    let wanted = b"stage running\nrun k.idl p.c\ndone 1 1:file:3\n";
    assert_eq!(rt; report.out.bytes(), wanted.as_slice());
    Ok(())
}

#[test]
fn more_fuel_brings_a_run_to_its_end(rt: HostRuntime) -> Result<(), Fail> {
    let alloc = rt.alloc();
    let program = b"main() { int i; GS_On(); while (i < 3) { i = i + 1; } GS_Off(0); }";
    let disk = kit_disk(&rt, alloc, program, LIST)?;
    let words = ["run", "k.idl", "p.c", "w.txt", "--fuel", "8"];
    let made = run_by(alloc, &words, disk, b"")?;
    assert_eq!(rt; made.status, 8);
    assert_eq!(rt; made.err.bytes(), b"gs: fuel out: 8\n".as_slice());
    let words = ["run", "k.idl", "p.c", "w.txt", "--fuel", "9"];
    let made = run_by(alloc, &words, made.disk, b"")?;
    assert_eq!(rt; made.status, 0);
    Ok(())
}

#[test]
fn a_store_out_of_its_form_is_not_run(rt: HostRuntime) -> Result<(), Fail> {
    let alloc = rt.alloc();
    let mut disk = kit_disk(&rt, alloc, GROWN, TWO)?;
    assert!(rt; disk.add(name(&rt, b".gs.on"), b"").is_ok());
    assert!(rt; disk.add(name(&rt, b".gs.log"), b"\x01\x03\0\0\0AB").is_ok());
    let made = run_by(alloc, &RUN, disk, b"")?;
    assert_eq!(rt; made.status, 6);
    assert_eq!(rt; made.err.bytes(), b"gs: bad store: log at 0\n".as_slice());
    assert!(rt; made.link.past().is_empty());
    Ok(())
}
