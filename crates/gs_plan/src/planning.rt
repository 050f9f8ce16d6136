// Plans.
ghost use Rattle.std.specs.Prelude.{◌≡◌, ◌+◌, ◌-◌, ◌*◌, ◌<◌, ◌≤◌, ℕ, All, List, Option, Some, None, length, map, reverse, suc, sum, slice_get, slice_index, IfOk};
ghost use Rattle.gs_plan.specs.Actions.{longs_of};
ghost use Rattle.gs_plan.specs.Fits.{AreInPlace, Fit};
ghost use Rattle.gs_plan.specs.Durations.{AreDurations};
ghost use Rattle.gs_plan.specs.Schedule.{IsChainBack, IsLastEnd, end_of, length_of};
ghost use Rattle.gs_plan.specs.Ties.{AreTies, Ordered};
ghost use Rattle.gs_plan.specs.Chain.{IsLatest};
ghost use Rattle.gs_plan.specs.Planned.{slots_of, starts_of, HaveRows, IsPlan, IsPlanOf, IsLeastEnd};

use crate::chain::{last_of, latest, length_of, walk};
use crate::scan::ties_of;
use crate::schedule::schedule;
use crate::state::State;
use crate::table::{Placed, Plan};
use crate::ties::Ties;
use gs_types::{Action, NoMemory, Sequence};
use std::alloc::{AllocError, Global};

/// The greatest number of slots of a plan.
pub const PLAN_SLOTS: u32 = 1_024;

// For each task the duration of its operation.
fn longs(alloc: Global, actions: &[Action], durations: &[u32]) -> Result<Vec<u32>, AllocError>
    requires { AreInPlace (length durations.now) (reverse actions.now) }
    ensures { IfOk result (λ v. v.items ≡ longs_of durations.now actions.now) }
{
    let mut longs = Vec::new(alloc);
    for action in actions {
        if let Action::Call { op, .. } = action {
            longs.push(durations[*op as usize])?;
        }
    }
    Ok(longs)
}

// The sum of the durations.
fn total(longs: &[u32]) -> u64
    requires { length longs.now ≤ 10000 }
    ensures { result ≡ sum longs.now }
{
    longs.iter().map(|d| *d as u64).sum()
}

// The numbers of the tasks at these places, in the other order.
fn numbers(alloc: Global, back: &[u32]) -> Result<Vec<u32>, AllocError>
    requires { All (λ k. k < 10000) back.now }
    ensures { IfOk result (λ v. v.items ≡ map suc (reverse back.now)) }
{
    let mut numbers = Vec::new(alloc);
    for i in 0..back.len() {
        let task = back[back.len() - 1 - i];
        numbers.push(task + 1)?;
    }
    Ok(numbers)
}

// When the task ends, 0 where there is none.
fn end_at(ends: &[u64], task: Option<u32>) -> u64
    requires { IsLatest (λ i. i < length ends.now) ends.now task }
    ensures { (longs starts : List ℕ) → length longs ≡ length ends.now →
        ((k : ℕ) → k < length longs → slice_index ends.now k ≡ end_of longs starts k) →
        IsLastEnd longs starts result }
{
    match task {
        None => 0,
        Some(task) => ends[task as usize],
    }
}

// The chain from its back, how long it takes, and the last end.
#[derive(Drop)]
struct Found {
    back: Vec<u32>,
    length: u64,
    end: u64,
}

fn chain_of(alloc: Global, longs: &[u32], ties: &Ties, ends: &[u64]) -> Result<Found, AllocError>
    requires ties { AreTies ties.now (length longs.now) }
    requires few { length longs.now ≤ 10000 }
    requires longs { AreDurations (length longs.now) longs.now }
    requires ends { length ends.now ≡ length longs.now }
    ensures chain { IfOk result (λ f. (starts : List ℕ) →
        ((k : ℕ) → k < length longs.now → slice_index ends.now k ≡ end_of longs.now starts k) →
        IsChainBack longs.now (Ordered ties.now) starts f.back.items) }
    ensures end { IfOk result (λ f. (starts : List ℕ) →
        ((k : ℕ) → k < length longs.now → slice_index ends.now k ≡ end_of longs.now starts k) →
        IsLastEnd longs.now starts f.end) }
    ensures length { IfOk result (λ f. f.length ≡ length_of longs.now f.back.items) }
    ensures each { IfOk result (λ f. All (λ k. k < 10000) f.back.items) }
{
    let best = latest(alloc, ties, ends)?;
    let last = last_of(ends);
    let end = end_at(ends, last);
    let back = walk(alloc, best.as_slice(), last)?;
    let length = length_of(longs, back.as_slice());
    Ok(Found { back, length, end })
}

// The rows of the table.
fn rows(alloc: Global, state: &State) -> Result<Vec<Placed>, AllocError>
    requires few { length state.now.ends.items ≤ 10000 }
    requires slots { length state.now.slots.items ≡ length state.now.ends.items }
    requires starts { length state.now.starts.items ≡ length state.now.ends.items }
    ensures slots { IfOk result (λ v. slots_of v.items ≡ state.now.slots.items) }
    ensures starts { IfOk result (λ v. starts_of v.items ≡ state.now.starts.items) }
    ensures rows { IfOk result (λ v. HaveRows v.items state.now.ends.items) }
{
    let mut rows = Vec::new(alloc);
    for task in 0..state.ends.len() {
        rows.push(Placed {
            n: task as u32 + 1,
            slot: state.slots[task],
            start: state.starts[task],
            end: state.ends[task],
        })?;
    }
    Ok(rows)
}

// The plan for tasks that take so long.
fn plan_of(alloc: Global, longs: &[u32], ties: &Ties, slots: usize) -> Result<Plan, AllocError>
    requires ties { AreTies ties.now (length longs.now) }
    requires few { length longs.now ≤ 10000 }
    requires longs { AreDurations (length longs.now) longs.now }
    requires some { 1 ≤ slots }
    requires slots { slots ≤ 1024 }
    ensures { IfOk result (IsPlan slots longs.now (Ordered ties.now)) }
{
    let state = schedule(alloc, longs, ties, slots)?;
    let found = chain_of(alloc, longs, ties, state.ends.as_slice())?;
    let chain = numbers(alloc, found.back.as_slice())?;
    let tasks = rows(alloc, &state)?;
    let work = total(longs);
    Ok(Plan {
        tasks: Sequence::of(tasks),
        end: found.end,
        work,
        chain: Sequence::of(chain),
        length: found.length,
    })
}

/// A plan for the tasks of a finished run, whose actions are told oldest first, on so many slots,
/// 1 to 1,024; the durations are told by operations. At time 0 and at each end of a task, while a
/// slot is free and a task may start, the least such task is placed on the least free slot. The
/// chain has from its back the task that ends last, and before each task the one that ends last
/// among those that it follows; the least number counts at a tie. The only error is want of memory.
pub fn plan(
    alloc: Global,
    actions: &[Action],
    durations: &[u32],
    slots: u32,
) -> Result<Plan, NoMemory>
    requires fit { Fit (length durations.now) actions.now }
    requires longs { AreDurations (length durations.now) durations.now }
    requires some { 1 ≤ slots }
    requires few { slots ≤ PLAN_SLOTS }
    ensures plan { IfOk result (IsPlanOf slots durations.now actions.now) }
    ensures bound { IfOk result (λ p. slots * p.end ≤ p.work + (slots - 1) * p.length) }
    ensures least { IfOk result (IsLeastEnd slots durations.now actions.now) }
{
    let longs = longs(alloc, actions, durations)?;
    let ties = ties_of(alloc, actions)?;
    let plan = plan_of(alloc, longs.as_slice(), &ties, slots as usize)?;
    Ok(plan)
}
