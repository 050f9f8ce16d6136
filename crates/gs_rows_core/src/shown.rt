// What a run shows.
use crate::case::Case;
use crate::desk::Desk;
use crate::play::{Event, run};
use gs_core::Verdict;
use gs_types::NoMemory;
use std::alloc::Global;

/// How a run ends, what happened, and what an ended program left.
#[derive(Clone, Copy)]
pub struct Shown<'a> {
    pub verdict: Verdict,
    pub told: &'a [u8],
    pub left: &'a [u8],
}

/// It ends, this happened, and it left this.
pub fn ended<'a>(told: &'a [u8], left: &'a [u8]) -> Shown<'a> {
    Shown {
        verdict: Verdict::Ended,
        told,
        left,
    }
}

/// It is given up so, and this happened.
pub fn given_up(verdict: Verdict, told: &[u8]) -> Shown<'_> {
    Shown {
        verdict,
        told,
        left: b"",
    }
}

// Whether a run on this desk shows this.
fn shows_on(
    alloc: Global,
    desk: &mut Desk<'_>,
    case: &Case<'_>,
    events: &[Event],
    wanted: &Shown<'_>,
) -> Result<bool, NoMemory> {
    let (verdict, left) = run(alloc, case, desk, events)?;
    Ok(
        verdict == wanted.verdict
            && desk.told.as_slice() == wanted.told
            && left.as_slice() == wanted.left,
    )
}

/// Whether a case with these events shows this.
pub fn shows(
    alloc: Global,
    case: &Case<'_>,
    events: &[Event],
    wanted: &Shown<'_>,
) -> Result<bool, NoMemory> {
    let mut desk = Desk::new(alloc, case.files);
    shows_on(alloc, &mut desk, case, events, wanted)
}

/// Whether a case shows this after an earlier one with these events, whose finished tasks were
/// recorded.
pub fn shows_after(
    alloc: Global,
    earlier: &Case<'_>,
    events: &[Event],
    case: &Case<'_>,
    wanted: &Shown<'_>,
) -> Result<bool, NoMemory> {
    let mut desk = Desk::new(alloc, earlier.files);
    let _before = run(alloc, earlier, &mut desk, events)?;
    shows_on(alloc, &mut desk, case, &[], wanted)
}
