// What the program waits for.
use crate::case::{A_AND_B, File, over};
use crate::play::Event;
use crate::shown::{ended, given_up, shows};
use gs_core::Verdict;
use std::test::Fail;

const FILES: [File<'static>; 2] = [(b"A", b"a"), (b"B", b"bb")];

const COUNTS: &[u8] = b"main() { int n; int m; GS_On(); count(\"A\", n); count(\"B\", m);
    printf(\"%d %d\", n, m); GS_Off(0); }";

const SET: &[u8] = b"main() { int n; GS_On(); count(\"A\", n); n = 3; GS_Off(0); }";

const UNUSED: &[u8] = b"main() { int n; GS_On(); count(\"A\", n); GS_Off(0); }";

const BARRIER: &[u8] = b"main() { GS_On(); grow(\"A\", \"x\"); grow(\"B\", \"x\"); GS_Barrier();
    two(\"C\", \"D\"); GS_Off(0); }";

#[test]
fn values_are_waited_for_at_their_first_use(rt: HostRuntime) -> Result<(), Fail> {
    let shown = shows(
        rt.alloc(),
        &over(&FILES, COUNTS),
        &[Event::Ends(2)],
        &ended(b"+1@0 +2@0 -2 -1 ", b"n:1 m:2 \"1 2\" actions 5"),
    )?;
    assert!(rt; shown);
    Ok(())
}

#[test]
fn a_value_that_is_set_is_not_waited_for(rt: HostRuntime) -> Result<(), Fail> {
    let shown = shows(
        rt.alloc(),
        &over(&FILES, SET),
        &[],
        &ended(b"+1@0 -1 ", b"n:3 \"\" actions 2"),
    )?;
    assert!(rt; shown);
    Ok(())
}

#[test]
fn a_value_that_is_not_used_is_waited_for_at_the_end(rt: HostRuntime) -> Result<(), Fail> {
    let shown = shows(
        rt.alloc(),
        &over(&FILES, UNUSED),
        &[Event::Fails(1), Event::Ends(1)],
        &ended(b"+1@0 !1 +1@0 -1 ", b"n:1 \"\" actions 3"),
    )?;
    assert!(rt; shown);
    Ok(())
}

#[test]
fn a_value_of_a_lost_task_is_never_used(rt: HostRuntime) -> Result<(), Fail> {
    let mut counts = over(&FILES, COUNTS);
    counts.tries = 1;
    let lost = given_up(Verdict::TaskLost { n: 1 }, b"+1@0 +2@0 !1 -2 ");
    let shown = shows(rt.alloc(), &counts, &[Event::Fails(1)], &lost)?;
    assert!(rt; shown);
    Ok(())
}

#[test]
fn a_barrier_waits_for_each_task_before_it(rt: HostRuntime) -> Result<(), Fail> {
    let shown = shows(
        rt.alloc(),
        &over(&A_AND_B, BARRIER),
        &[Event::Ends(2)],
        &ended(
            b"+1@0 +2@0 -2 -1 +3@0 -3 ",
            b"A=ax\n B=bx\n C= D= \"\" actions 5",
        ),
    )?;
    assert!(rt; shown);
    Ok(())
}
