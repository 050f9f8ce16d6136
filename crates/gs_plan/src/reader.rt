// The reader of durations files.
ghost use Rattle.std.specs.Prelude.{◌≡◌, ◌+◌, ◌-◌, ◌<◌, ◌≤◌, ◌^◌, length, replicate, None, IfOk, MatchResult};
ghost use Rattle.gs_list.specs.Lines.{spelled};
ghost use Rattle.gs_plan.specs.Durations.{LinesSay, none_given, durations_by, Says, IsUnread, AreDurations};
ghost use Rattle.gs_plan.specs.Reading.{err_at, IsLinesStop};

use crate::kind::{DurErr, DurKind};
use crate::line::{Stop, read_line};
use gs_idl::Idl;
use gs_list::lines_of;
use gs_types::TEXT_LIMIT;
use std::alloc::{AllocError, Global};

// The same as an answer of the whole reader.
fn at_line(stop: Stop, line: u32) -> DurErr
    ensures { result ≡ err_at stop line }
{
    match stop {
        Stop::Fault { kind } => DurErr::At { line, kind },
        Stop::Memory => DurErr::NoMemory,
    }
}

// Reads the lines, of which there are few enough.
fn read_lines(
    alloc: Global,
    lines: &[&[u8]],
    idl: &Idl,
    given: &mut Vec<Option<u32>>,
) -> Result<(), DurErr>
    requires none { given.old.items ≡ none_given idl.now.ops }
    requires few { length lines.now < 2 ^ 32 - 1 }
    ensures { MatchResult result
        (λ _. LinesSay idl.now.ops (spelled lines.now) (none_given idl.now.ops) given.new.items)
        (IsLinesStop idl.now.ops (spelled lines.now)) }
{
    for (place, line) in lines.iter().enumerate() {
        match read_line(alloc, line, idl, given) {
            Ok(()) => {}
            Err(stop) => return Err(at_line(stop, place as u32 + 1)),
        }
    }
    Ok(())
}

fn no_durations(alloc: Global, count: usize) -> Result<Vec<Option<u32>>, AllocError>
    ensures { IfOk result (λ v. v.items ≡ replicate count None) }
{
    vec![in alloc; None; count]
}

fn each_or_one(alloc: Global, given: &Vec<Option<u32>>) -> Result<Vec<u32>, AllocError>
    ensures { IfOk result (λ v. v.items ≡ durations_by given.now.items) }
{
    given.iter().map(|d| d.unwrap_or(1)).collect(alloc)
}

/// Reads a durations file, of at most 65,536 bytes: one duration, from 1 to 1,000,000, for each
/// operation of the interface in its order. Each line is empty or `OP DURATION`; an operation
/// without a line has 1; a `#` begins a comment. On a fault the answer is its line and kind,
/// exactly where the text says no durations; line 0 for `TooLong`.
pub fn durations(alloc: Global, bytes: &[u8], idl: &Idl) -> Result<Vec<u32>, DurErr>
    ensures says { MatchResult result (λ v. Says idl.now.ops bytes.now v.items)
        (IsUnread idl.now.ops bytes.now) }
    ensures fit { IfOk result (λ v. AreDurations (length idl.now.ops) v.items) }
{
    if bytes.len() > TEXT_LIMIT {
        return Err(DurErr::At {
            line: 0,
            kind: DurKind::TooLong,
        });
    }
    let lines = lines_of(alloc, bytes)?;
    let mut given = no_durations(alloc, idl.op_count() as usize)?;
    if let Err(e) = read_lines(alloc, lines.as_slice(), idl, &mut given) {
        return Err(e);
    }
    let durations = each_or_one(alloc, &given)?;
    Ok(durations)
}
