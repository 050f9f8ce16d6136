// Many tasks, with as many unfinished at once as there are.
use crate::case::{Case, File, over};
use crate::desk::Desk;
use crate::play::run;
use gs_core::Verdict;
use gs_types::NoMemory;
use std::alloc::Global;
use std::test::Fail;

const SIDE: &[u8] = b"main() { int i; char *s; GS_On();
    for (i = 0; i < 1000; i++) { sprintf(s, \"n%d\", i); join(\"A\", \"A\", s); } GS_Off(0); }";

const CHAIN: &[u8] = b"main() { int i; GS_On();
    for (i = 0; i < 1000; i++) join(\"A\", \"E\", \"A\"); GS_Off(0); }";

const FILES: [File<'static>; 2] = [(b"A", b"a"), (b"E", b"")];

// How many tasks finished, where the program ended.
fn finished(alloc: Global, case: &Case<'_>) -> Result<usize, NoMemory> {
    let mut desk = Desk::new(alloc, case.files);
    let (verdict, _left) = run(alloc, case, &mut desk, &[])?;
    if verdict != Verdict::Ended {
        return Ok(0);
    }
    Ok(desk.done.len())
}

#[test]
fn a_thousand_tasks_side_by_side_and_in_a_chain_go_through(rt: HostRuntime) -> Result<(), Fail> {
    let side = finished(rt.alloc(), &over(&FILES, SIDE))?;
    let chain = finished(rt.alloc(), &over(&FILES, CHAIN))?;
    assert_eq!(rt; (side, chain), (1_000, 1_000));
    Ok(())
}
