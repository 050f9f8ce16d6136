// Whatever the order in which tasks complete, and fail, a program leaves what it leaves where each
// task is done at once.
use crate::case::{A_AND_B, Case, TWICE, over};
use crate::desk::Desk;
use crate::play::{Event, run};
use crate::serial::serial;
use crate::shown::{ended, shows};
use gs_core::Verdict;
use gs_types::NoMemory;
use std::alloc::Global;
use std::test::Fail;

// `A` is written, read by a task, and written again; `C` is written by two tasks.
const RENAMED: &[u8] = b"main() { int r; char *s; char *t; FILE *f; GS_On();
    f = GS_FOpen(\"A\", W); fprintf(f, \"one\"); GS_FClose(f);
    join(\"A\", \"B\", \"C\");
    f = GS_FOpen(\"A\", W); fprintf(f, \"two\"); GS_FClose(f);
    join(\"B\", \"A\", \"C\");
    f = GS_FOpen(\"C\", R); r = fgetline(f, s); GS_FClose(f);
    f = GS_FOpen(\"A\", R); r = fgetline(f, t); GS_FClose(f);
    printf(\"%s %s\", s, t); GS_Off(0); }";

// A file is changed by two tasks while another reads the first version, and the program adds to it.
const CHANGED: &[u8] = b"main() { int n; int m; FILE *f; GS_On();
    grow(\"A\", \"x\"); count(\"A\", n); grow(\"A\", \"y\");
    join(\"A\", \"B\", \"A\"); count(\"B\", m);
    f = GS_FOpen(\"A\", A); fprintf(f, \"%d %d\", n, m); GS_FClose(f);
    join(\"A\", \"A\", \"B\"); GS_Off(0); }";

const CHANGED_TASKS: u32 = 6;

// Fewer than those at which a worker is lost.
const FAILURES: u32 = 4;

// Whether the program leaves this with these events.
fn leaves(
    alloc: Global,
    case: &Case<'_>,
    events: &[Event],
    words: &[u8],
) -> Result<bool, NoMemory> {
    let mut desk = Desk::new(alloc, case.files);
    let (verdict, left) = run(alloc, case, &mut desk, events)?;
    Ok(verdict == Verdict::Ended && left.as_slice() == words)
}

// In how many of the orders of two completions, without a failure and with one at each point, the
// program leaves what the sequential run leaves.
fn agreeing_orders_of_two(alloc: Global, case: &Case<'_>) -> Result<u32, NoMemory> {
    let words = serial(alloc, case)?;
    let orders: [(u32, u32); 2] = [(1, 2), (2, 1)];
    let mut agreeing = 0u32;
    for (first, second) in orders {
        let (a, b) = (Event::Ends(first), Event::Ends(second));
        let (fail_a, fail_b) = (Event::Fails(first), Event::Fails(second));
        let all = leaves(alloc, case, &[a, b], &words)?
            && leaves(alloc, case, &[fail_a, a, b], &words)?
            && leaves(alloc, case, &[fail_b, a, b], &words)?
            && leaves(alloc, case, &[a, fail_b, b], &words)?;
        if all {
            agreeing = agreeing.wrapping_add(4);
        }
    }
    Ok(agreeing)
}

#[test]
fn each_order_of_two_completions_with_one_failure_leaves_the_same(
    rt: HostRuntime,
) -> Result<(), Fail> {
    let twice = agreeing_orders_of_two(rt.alloc(), &over(&A_AND_B, TWICE))?;
    let renamed = agreeing_orders_of_two(rt.alloc(), &over(&A_AND_B, RENAMED))?;
    assert_eq!(rt; (twice, renamed), (8, 8));
    Ok(())
}

// The later task completes first, and the earlier one fails before.
#[test]
fn the_last_completion_is_not_the_last_version(rt: HostRuntime) -> Result<(), Fail> {
    let shown = shows(
        rt.alloc(),
        &over(&A_AND_B, TWICE),
        &[Event::Fails(1), Event::Ends(2), Event::Ends(1)],
        &ended(b"+1@0 +2@0 !1 +1@0 -2 -1 ", b"C=ba \"\" actions 3"),
    )?;
    assert!(rt; shown);
    Ok(())
}

// Task 2 completes first: the program reads `C` of it, and the first version of `A` is still kept
// for task 1.
#[test]
fn the_program_reads_the_newest_version_before_an_older_one_is_done(
    rt: HostRuntime,
) -> Result<(), Fail> {
    let shown = shows(
        rt.alloc(),
        &over(&A_AND_B, RENAMED),
        &[Event::Ends(2)],
        &ended(
            b"=one =two +1@0 +2@0 -2 -1 ",
            b"A=two C=btwo r:1 s:btwo t:two \"btwo two\" actions 7",
        ),
    )?;
    assert!(rt; shown);
    Ok(())
}

// The tasks end by rising number, but for `late`; before each of the first ends `failing` fails, if
// it is in flight; and behind its own end that of the task comes that is as far from the last one.
fn events_of(alloc: Global, failing: u32, late: u32) -> Result<Vec<Event>, NoMemory> {
    let mut events = Vec::new(alloc);
    for n in 1..=CHANGED_TASKS {
        if n <= FAILURES {
            events.push(Event::Fails(failing))?;
        }
        if n != late {
            events.push(Event::Ends(n))?;
        }
        if n == failing {
            events.push(Event::Ends((CHANGED_TASKS + 1).wrapping_sub(n)))?;
        }
    }
    Ok(events)
}

// In how many of 36 orders the program leaves what the sequential run leaves.
fn agreeing_orders_of_six(alloc: Global) -> Result<u32, NoMemory> {
    let mut changed = over(&A_AND_B, CHANGED);
    changed.tries = 100;
    let words = serial(alloc, &changed)?;
    let mut agreeing = 0u32;
    for order in 0..CHANGED_TASKS * CHANGED_TASKS {
        let (failing, late) = (1 + order / CHANGED_TASKS, 1 + order % CHANGED_TASKS);
        let events = events_of(alloc, failing, late)?;
        if leaves(alloc, &changed, &events, &words)? {
            agreeing = agreeing.wrapping_add(1);
        }
    }
    Ok(agreeing)
}

#[test]
fn many_orders_of_dependent_tasks_leave_the_same(rt: HostRuntime) -> Result<(), Fail> {
    let agreeing = agreeing_orders_of_six(rt.alloc())?;
    assert_eq!(rt; agreeing, 36);
    Ok(())
}
