// Which tasks run at once, in which order, how often, and what their run leaves.
use crate::desk::{LIST, Outcome, RUN, kit_disk, reads, reported, run_by, told};
use std::alloc::Global;
use std::process::Abort;
use std::test::Fail;

const TWO: &[u8] = b"w1 2 ./kit *\n";

const EXCHANGED: &[u8] =
    b"main() { GS_On(); join(\"A\", \"B\", \"C\"); join(\"B\", \"A\", \"C\"); GS_Off(0); }";

const COPIED: &[u8] =
    b"main() { GS_On(); join(\"A\", \"B\", \"C\"); grow(\"A\", \"x\"); GS_Off(0); }";

const COUNTED: &[u8] =
    b"main() { int n; int m; GS_On(); count(\"A\", n); count(\"F\", m); printf(\"%d %d\", n, m); GS_Off(0); }";

// Runs a program over two slots, with further words and a script: its history is this.
fn goes(
    rt: &impl Abort,
    alloc: Global,
    words: &[&str],
    program: &[u8],
    script: &[u8],
    history: &str,
) -> Result<Outcome, Fail> {
    let disk = kit_disk(rt, alloc, program, TWO)?;
    let made = run_by(alloc, words, disk, script)?;
    assert_eq!(*rt; told(alloc, made.link.past())?.as_str(), history);
    Ok(made)
}

#[test]
fn a_reader_and_a_later_writer_are_in_flight_at_once(rt: HostRuntime) -> Result<(), Fail> {
    let alloc = rt.alloc();
    let made = goes(&rt, alloc, &RUN, COPIED, b"", "+1@0 +2@0 -1 -2 ")?;
    assert_eq!(rt; made.status, 0);
    assert!(rt; reads(&rt, &made.disk, b"C", b"ab"));
    assert!(rt; reads(&rt, &made.disk, b"A", b"ax\n"));
    Ok(())
}

#[test]
fn with_a_window_of_one_each_task_waits_for_the_last(rt: HostRuntime) -> Result<(), Fail> {
    let alloc = rt.alloc();
    let words = ["run", "k.idl", "p.c", "w.txt", "--window", "1"];
    let made = goes(&rt, alloc, &words, COPIED, b"", "+1@0 -1 +2@0 -2 ")?;
    assert_eq!(rt; made.status, 0);
    assert!(rt; reads(&rt, &made.disk, b"C", b"ab"));
    assert!(rt; reads(&rt, &made.disk, b"A", b"ax\n"));
    Ok(())
}

#[test]
fn the_last_completion_is_not_the_last_version(rt: HostRuntime) -> Result<(), Fail> {
    let alloc = rt.alloc();
    let made = goes(&rt, alloc, &RUN, EXCHANGED, b"1", "+1@0 +2@0 -2 -1 ")?;
    assert_eq!(rt; made.status, 0);
    assert!(rt; reads(&rt, &made.disk, b"C", b"ba"));
    Ok(())
}

#[test]
fn a_task_that_failed_is_started_again(rt: HostRuntime) -> Result<(), Fail> {
    let alloc = rt.alloc();
    let history = "+1@0 +2@0 !1 +1@0 -2 -1 ";
    let made = goes(&rt, alloc, &RUN, EXCHANGED, b"!", history)?;
    assert_eq!(rt; made.status, 0);
    assert!(rt; reads(&rt, &made.disk, b"C", b"ba"));
    Ok(())
}

#[test]
fn tasks_that_change_a_file_go_one_after_the_other(rt: HostRuntime) -> Result<(), Fail> {
    let alloc = rt.alloc();
    let program =
        b"main() { int n; GS_On(); grow(\"F\", \"1\"); grow(\"F\", \"2\"); count(\"F\", n); printf(\"%d\\n\", n); GS_Off(0); }";
    let history = "+1@0 -1 +2@0 -2 +3@0 -3 ";
    let made = goes(&rt, alloc, &RUN, program, b"", history)?;
    assert_eq!(rt; made.status, 0);
    assert!(rt; reads(&rt, &made.disk, b"F", b"1\n2\n"));
    assert_eq!(rt; made.out.bytes(), b"4\n".as_slice());
    Ok(())
}

#[test]
fn values_are_waited_for_at_their_first_use(rt: HostRuntime) -> Result<(), Fail> {
    let alloc = rt.alloc();
    let made = goes(&rt, alloc, &RUN, COUNTED, b"", "+1@0 +2@0 -1 -2 ")?;
    assert_eq!(rt; made.out.bytes(), b"1 0".as_slice());
    let report = reported(&rt, alloc, made.disk)?;
    let wanted =
        b"stage closed\nrun k.idl p.c\ndone 1 2:int:1\ndone 2 2:int:0\nvar n 1\nvar m 0\nactions 5\ntext 3\n";
    assert_eq!(rt; report.out.bytes(), wanted.as_slice());
    let program = b"main() { int n; GS_On(); count(\"A\", n); n = 3; GS_Off(0); }";
    let made = goes(&rt, alloc, &RUN, program, b"", "+1@0 -1 ")?;
    let report = reported(&rt, alloc, made.disk)?;
    let wanted = b"stage closed\nrun k.idl p.c\ndone 1 2:int:1\nvar n 3\nactions 2\ntext 0\n";
    assert_eq!(rt; report.out.bytes(), wanted.as_slice());
    Ok(())
}

#[test]
fn what_is_in_flight_as_a_task_is_lost_is_recorded(rt: HostRuntime) -> Result<(), Fail> {
    let alloc = rt.alloc();
    let words = ["run", "k.idl", "p.c", "w.txt", "--tries", "1"];
    let made = goes(&rt, alloc, &words, COUNTED, b"!", "+1@0 +2@0 !1 -2 ")?;
    assert_eq!(rt; made.status, 9);
    assert_eq!(rt; made.err.bytes(), b"gs: task lost: 1\n".as_slice());
    assert!(rt; made.out.bytes().is_empty());
    let report = reported(&rt, alloc, made.disk)?;
    let wanted = b"stage running\nrun k.idl p.c\ndone 2 2:int:0\n";
    assert_eq!(rt; report.out.bytes(), wanted.as_slice());
    Ok(())
}

#[test]
fn workers_that_fail_five_times_are_lost(rt: HostRuntime) -> Result<(), Fail> {
    let alloc = rt.alloc();
    let program = b"main() { GS_On(); grow(\"F\", \"1\"); GS_Off(0); }";
    let words = ["run", "k.idl", "p.c", "w.txt", "--tries", "100"];
    let disk = kit_disk(&rt, alloc, program, LIST)?;
    let made = run_by(alloc, &words, disk, b"!!!!!!!!")?;
    assert_eq!(rt; made.status, 9);
    assert_eq!(rt; made.err.bytes(), b"gs: workers lost: 1\n".as_slice());
    let history = "+1@0 !1 +1@0 !1 +1@0 !1 +1@0 !1 +1@0 !1 ";
    assert_eq!(rt; told(alloc, made.link.past())?.as_str(), history);
    assert!(rt; reads(&rt, &made.disk, b"F", b""));
    Ok(())
}
