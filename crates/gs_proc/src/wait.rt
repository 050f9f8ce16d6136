// Waiting for a child to end.
ghost use Rattle.std.specs.Prelude.{◌≡◌, ◌+◌, ◌-◌, ◌*◌, ◌/◌, ◌^◌, min, max, IfOk, IfSome};
ghost use Rattle.gs_proc.specs.Ends.{IsEnd};
ghost use Rattle.gs_proc.specs.Tasks.{calls};

use crate::task::{End, Task, await_at, end_at};
use gs_types::NoMemory;
use std::process::{Child, OpenProcess};
use std::thread;
use std::time::{Clock, Duration};

// An eighth of the time waited so far, but at least 20 and at most 2,000, once for each eight tasks
// in flight: so many questions a second, however many tasks. Times are in microseconds.
fn pause_after(waited: u64, in_flight: usize) -> u64
    ensures { result ≡ min (max 20 (min 2000 (waited / 8)) * (in_flight / 8 + 1)) (2 ^ 64 - 1) }
{
    let base = (waited / 8).min(2000).max(20);
    base.saturating_mul((in_flight / 8) as u64 + 1)
}

// The first task, in the order of starts, whose child has ended.
fn first_end<P: OpenProcess>(tasks: &mut Vec<Task<Child<P>>>) -> Result<Option<End>, NoMemory>
    ensures calls { calls tasks.new.items ≡ calls tasks.old.items }
    ensures end { IfOk result (λ end. IfSome end (IsEnd tasks.new.items)) }
{
    for place in 0..tasks.len() {
        if let Some(end) = end_at(tasks, place)? {
            return Ok(Some(end));
        }
    }
    Ok(None)
}

// Asks round after round, with pauses. None has ended where it asked 2^64 rounds in vain.
fn poll<C: Clock, P: OpenProcess>(
    clock: &C,
    tasks: &mut Vec<Task<Child<P>>>,
) -> Result<Option<End>, NoMemory>
    ensures calls { calls tasks.new.items ≡ calls tasks.old.items }
    ensures end { IfOk result (λ end. IfSome end (IsEnd tasks.new.items)) }
{
    let mut waited = 0;
    for _ in 0..u64::MAX {
        if let Some(end) = first_end(tasks)? {
            return Ok(Some(end));
        }
        let pause = pause_after(waited, tasks.len());
        thread::sleep(clock, Duration::from_micros(pause));
        waited = waited.saturating_add(pause);
    }
    Ok(None)
}

/// Sleeps until a child has ended: of one task without a poll, of several round after round. None
/// has where it asked 2^64 rounds in vain.
pub(crate) fn wait<C: Clock, P: OpenProcess>(
    clock: &C,
    tasks: &mut Vec<Task<Child<P>>>,
) -> Result<Option<End>, NoMemory>
    ensures calls { calls tasks.new.items ≡ calls tasks.old.items }
    ensures end { IfOk result (λ end. IfSome end (IsEnd tasks.new.items)) }
{
    if tasks.len() == 1 {
        Ok(Some(await_at(tasks, 0)?))
    } else {
        poll(clock, tasks)
    }
}
