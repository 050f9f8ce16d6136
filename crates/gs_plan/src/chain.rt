// The chain of a schedule, from its back.
ghost use Rattle.std.specs.Prelude.{◌≡◌, ◌<◌, ◌≤◌, ◌+◌, ◌*◌, ℕ, All, Option, Some, None, length, map, replicate, reverse, suc, slice_index, IfOk, IfSome};
ghost use Rattle.gs_plan.specs.Durations.{AreDurations};
ghost use Rattle.gs_plan.specs.Schedule.{length_of};
ghost use Rattle.gs_plan.specs.Ties.{AreTies, HasNeed, waits_at};
ghost use Rattle.gs_plan.specs.Chain.{IsLatest, IsLater, AreLatestPairs, AreLatestUpto, IsWalk, Falls};

use crate::ties::Ties;
use std::alloc::{AllocError, Global};

fn no_tasks(alloc: Global, count: usize) -> Result<Vec<Option<u32>>, AllocError>
    ensures { IfOk result (λ v. v.items ≡ replicate count None) }
{
    vec![in alloc; None; count]
}

// The later of the two, the one of lower number where they end at one time.
fn later(ends: &[u64], best: Option<u32>, task: u32) -> u32
    requires best { (b : ℕ) → best ≡ Some b → b < length ends.now }
    requires task { task < length ends.now }
    ensures { IsLater ends.now best task result }
{
    let Some(b) = best else {
        return task;
    };
    let old = ends[b as usize];
    let new = ends[task as usize];
    if old > new || (old == new && b < task) {
        b
    } else {
        task
    }
}

/// The task that ends last, the least number at a tie.
pub(crate) fn last_of(ends: &[u64]) -> Option<u32>
    requires { length ends.now ≤ 10000 }
    ensures { IsLatest (λ i. i < length ends.now) ends.now result }
{
    let mut best = None;
    for task in 0..ends.len() {
        best = Some(later(ends, best, task as u32));
    }
    best
}

// For each task the latest of those that it depends on.
fn latest_pairs(alloc: Global, ties: &Ties, ends: &[u64]) -> Result<Vec<Option<u32>>, AllocError>
    requires { AreTies ties.now (length ends.now) }
    ensures length { IfOk result (λ best. length best.items ≡ length ends.now) }
    ensures best { IfOk result (λ best.
        AreLatestPairs ties.now (length ties.now.befores.items) ends.now best.items) }
{
    let mut best = no_tasks(alloc, ends.len())?;
    for e in 0..ties.befores.len() {
        let after = ties.afters[e] as usize;
        best[after] = Some(later(ends, best[after], ties.befores[e]));
    }
    Ok(best)
}

/// The latest of the first needs.
#[derive(Clone, Copy)]
struct Met {
    met: usize,
    task: Option<u32>,
}

// The latest of so many needs.
fn further(ties: &Ties, ends: &[u64], needs: usize, from: Met) -> Met
    requires needs { (x : ℕ) → x < needs → slice_index ties.now.needed.items x < length ends.now }
    requires within { needs ≤ length ties.now.needed.items }
    requires from { from.met ≤ needs }
    requires latest { IsLatest (HasNeed ties.now from.met) ends.now from.task }
    ensures met { result.met ≡ needs }
    ensures latest { IsLatest (HasNeed ties.now needs) ends.now result.task }
{
    let mut last = from;
    while last.met < needs {
        last.task = Some(later(ends, last.task, ties.needed[last.met]));
        last.met += 1;
    }
    last
}

// The same with the needs.
fn latest_needs(ties: &Ties, ends: &[u64], best: &mut Vec<Option<u32>>)
    requires ties { AreTies ties.now (length ends.now) }
    requires length { length best.old.items ≡ length ends.now }
    requires best { AreLatestUpto ties.now 0 ends.now best.old.items }
    ensures length { length best.new.items ≡ length ends.now }
    ensures best { AreLatestUpto ties.now (length ends.now) ends.now best.new.items }
{
    let mut last = Met { met: 0, task: None };
    for task in 0..ends.len() {
        last = further(ties, ends, ties.waits[task], last);
        if let Some(need) = last.task {
            best[task] = Some(later(ends, best[task], need));
        }
    }
}

/// For each task the latest of those that it follows.
pub(crate) fn latest(
    alloc: Global,
    ties: &Ties,
    ends: &[u64],
) -> Result<Vec<Option<u32>>, AllocError>
    requires { AreTies ties.now (length ends.now) }
    ensures length { IfOk result (λ best. length best.items ≡ length ends.now) }
    ensures best { IfOk result (λ best.
        AreLatestUpto ties.now (length ends.now) ends.now best.items) }
{
    let mut best = latest_pairs(alloc, ties, ends)?;
    latest_needs(ties, ends, &mut best);
    Ok(best)
}

/// The walk from a task to its best, until there is none.
pub(crate) fn walk(
    alloc: Global,
    best: &[Option<u32>],
    last: Option<u32>,
) -> Result<Vec<u32>, AllocError>
    requires last { (j : ℕ) → last ≡ Some j → j < length best.now }
    requires falls { Falls best.now }
    ensures walk { IfOk result (λ v. IsWalk best.now last v.items) }
    ensures tasks { IfOk result (λ v. All (λ k. k < length best.now) v.items) }
    ensures few { IfOk result (λ v. length v.items ≤ length best.now) }
{
    let mut tasks = Vec::new(alloc);
    let mut next = last;
    while let Some(task) = next {
        tasks.push(task)?;
        next = best[task as usize];
    }
    Ok(tasks)
}

/// How long these tasks take one after the other.
pub(crate) fn length_of(longs: &[u32], tasks: &[u32]) -> u64
    requires few { length tasks.now ≤ 10000 }
    requires each { All (λ k. k < length longs.now) tasks.now }
    requires longs { AreDurations (length longs.now) longs.now }
    ensures { result ≡ length_of longs.now tasks.now }
{
    let mut length = 0;
    for task in tasks {
        length += longs[*task as usize] as u64;
    }
    length
}
