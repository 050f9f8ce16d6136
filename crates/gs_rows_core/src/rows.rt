// Which tasks start, and when; what is given up; and what is not done again.
use crate::case::{A_AND_B, File, TWICE, over};
use crate::play::Event;
use crate::shown::{ended, given_up, shows, shows_after};
use gs_core::Verdict;
use gs_types::FaultKind;
use std::test::Fail;

const TWO_LISTED: &[u8] = b"a 2 p *\nb 2 p *\n";

// A task that reads `A`, and one that changes it.
const PAIR: &[u8] =
    b"main() { GS_On(); join(\"A\", \"B\", \"C\"); grow(\"A\", \"x\"); GS_Off(0); }";

const GROWN: &[u8] = b"main() { int n; GS_On(); grow(\"F\", \"1\"); grow(\"F\", \"2\");
    count(\"F\", n); printf(\"%d\", n); GS_Off(0); }";

const MISSING: &[u8] = b"main() { GS_On(); grow(\"A\", \"x\");
    join(\"A\", \"Missing\", \"C\"); grow(\"B\", \"x\"); GS_Off(0); }";

const STUDY: &[u8] = b"#include \"study.h\"
int main() {
  int i;
  GS_On();
  for (i = 1; i <= 3; i++) {
    subst(\"base.cfg\", i, \"job.tmp\");
    simulate(\"job.tmp\", \"res.tmp\");
    post(\"res.tmp\", \"all.txt\");
  }
  GS_Off(0);
  return 0;
}";

#[test]
fn a_reader_and_a_later_writer_are_in_flight_at_once(rt: HostRuntime) -> Result<(), Fail> {
    let shown = shows(
        rt.alloc(),
        &over(&A_AND_B, PAIR),
        &[Event::Ends(2)],
        &ended(b"+1@0 +2@0 -2 -1 ", b"C=ab A=ax\n \"\" actions 3"),
    )?;
    assert!(rt; shown);
    Ok(())
}

#[test]
fn with_a_window_of_one_each_task_waits_for_the_last(rt: HostRuntime) -> Result<(), Fail> {
    let mut pair = over(&A_AND_B, PAIR);
    pair.window = 1;
    let shown = shows(
        rt.alloc(),
        &pair,
        &[],
        &ended(b"+1@0 -1 +2@0 -2 ", b"C=ab A=ax\n \"\" actions 3"),
    )?;
    assert!(rt; shown);
    Ok(())
}

#[test]
fn tasks_that_change_a_file_go_one_after_the_other(rt: HostRuntime) -> Result<(), Fail> {
    let files: [File<'_>; 1] = [(b"F", b"")];
    let shown = shows(
        rt.alloc(),
        &over(&files, GROWN),
        &[],
        &ended(b"+1@0 -1 +2@0 -2 +3@0 -3 ", b"F=1\n2\n n:4 \"4\" actions 5"),
    )?;
    assert!(rt; shown);
    Ok(())
}

#[test]
fn a_file_that_is_not_there_is_a_fault_after_the_tasks_before_it(
    rt: HostRuntime,
) -> Result<(), Fail> {
    let fault = Verdict::Fault {
        line: 2,
        kind: FaultKind::NoFile,
    };
    let shown = shows(
        rt.alloc(),
        &over(&A_AND_B, MISSING),
        &[],
        &given_up(fault, b"+1@0 -1 "),
    )?;
    assert!(rt; shown);
    Ok(())
}

// The first task of each turn of the loop starts before the first wait, on the workers in their
// order.
#[test]
fn each_turn_of_the_study_begins_at_once(rt: HostRuntime) -> Result<(), Fail> {
    let files: [File<'_>; 2] = [(b"base.cfg", b"base "), (b"all.txt", b"")];
    let mut study = over(&files, STUDY);
    study.list = TWO_LISTED;
    let shown = shows(
        rt.alloc(),
        &study,
        &[],
        &ended(
            b"+1@0 +4@0 +7@1 -1 +2@0 -4 +5@0 -7 +8@1 -2 +3@0 -5 -8 -3 +6@0 -6 +9@0 -9 ",
            b"job.tmp=base 3\n res.tmp=r:base 3\n all.txt=r:base 1\nr:base 2\nr:base 3\n i:4 \"\" actions 10",
        ),
    )?;
    assert!(rt; shown);
    Ok(())
}

#[test]
fn one_file_at_all_places_is_read_before_it_is_written(rt: HostRuntime) -> Result<(), Fail> {
    let text = b"main() { GS_On(); join(\"A\", \"A\", \"A\"); GS_Off(0); }";
    let shown = shows(
        rt.alloc(),
        &over(&A_AND_B, text),
        &[],
        &ended(b"+1@0 -1 ", b"A=aa \"\" actions 2"),
    )?;
    assert!(rt; shown);
    Ok(())
}

#[test]
fn one_file_at_two_places_that_are_written_is_a_fault(rt: HostRuntime) -> Result<(), Fail> {
    let text = b"main() { GS_On(); two(\"X\", \"X\"); GS_Off(0); }";
    let fault = Verdict::Fault {
        line: 1,
        kind: FaultKind::SameOut,
    };
    let shown = shows(
        rt.alloc(),
        &over(&A_AND_B, text),
        &[],
        &given_up(fault, b""),
    )?;
    assert!(rt; shown);
    Ok(())
}

#[test]
fn a_lost_task_is_done_in_the_next_run(rt: HostRuntime) -> Result<(), Fail> {
    let twice = over(&A_AND_B, TWICE);
    let events = [
        Event::Ends(2),
        Event::Fails(1),
        Event::Fails(1),
        Event::Fails(1),
    ];
    let lost = given_up(
        Verdict::TaskLost { n: 1 },
        b"+1@0 +2@0 -2 !1 +1@0 !1 +1@0 !1 ",
    );
    let first = shows(rt.alloc(), &twice, &events, &lost)?;
    let done = ended(b"+1@0 -1 ", b"C=ba \"\" actions 3");
    let second = shows_after(rt.alloc(), &twice, &events, &twice, &done)?;
    assert_eq!(rt; (first, second), (true, true));
    Ok(())
}

#[test]
fn workers_that_fail_five_times_are_lost(rt: HostRuntime) -> Result<(), Fail> {
    let mut pair = over(&A_AND_B, PAIR);
    pair.list = b"a 1 p grow\nb 1 p join\n";
    pair.tries = 100;
    let shown = shows(
        rt.alloc(),
        &pair,
        &[Event::Fails(2); 5],
        &given_up(
            Verdict::WorkersLost { n: 2 },
            b"+1@1 +2@0 !2 +2@0 !2 +2@0 !2 +2@0 !2 +2@0 !2 -1 ",
        ),
    )?;
    assert!(rt; shown);
    Ok(())
}

// Task 2 was recorded before task 1.
#[test]
fn what_was_recorded_in_another_order_does_not_start_again(rt: HostRuntime) -> Result<(), Fail> {
    let twice = over(&A_AND_B, TWICE);
    let shown = shows_after(
        rt.alloc(),
        &twice,
        &[Event::Ends(2)],
        &twice,
        &ended(b"", b"C=ba \"\" actions 3"),
    )?;
    assert!(rt; shown);
    Ok(())
}

#[test]
fn a_record_of_another_operation_ends_the_run(rt: HostRuntime) -> Result<(), Fail> {
    let shown = shows_after(
        rt.alloc(),
        &over(&A_AND_B, TWICE),
        &[],
        &over(&A_AND_B, PAIR),
        &given_up(Verdict::Misfit { index: 1 }, b""),
    )?;
    assert!(rt; shown);
    Ok(())
}
