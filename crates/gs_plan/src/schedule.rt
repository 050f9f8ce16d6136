// The schedule by the rule.
ghost use Rattle.std.specs.Prelude.{◌≡◌, ◌+◌, ◌<◌, ◌≤◌, ◌^◌, ℕ, List, length, slice_index, replicate, IfOk};
ghost use Rattle.gs_plan.specs.Durations.{AreDurations};
ghost use Rattle.gs_plan.specs.Schedule.{IsByRule, end_of};
ghost use Rattle.gs_plan.specs.Sums.{total_of};
ghost use Rattle.gs_plan.specs.Ties.{AreTies, Ordered, after_at};
ghost use Rattle.gs_plan.specs.State.{IsBetween, open_pair};

use crate::keys::{Keys, NEVER};
use crate::links::links_of;
use crate::placing::{choose, place};
use crate::state::{Gate, SLOT_LEVELS, State, TASK_LEVELS};
use crate::telling::pass;
use crate::ties::Ties;
use std::alloc::{AllocError, Global};

fn zeros(alloc: Global, count: usize) -> Result<Vec<u64>, AllocError>
    ensures { IfOk result (λ v. v.items ≡ replicate count 0) }
{
    vec![in alloc; 0; count]
}

fn no_slots(alloc: Global, count: usize) -> Result<Vec<u32>, AllocError>
    ensures { IfOk result (λ v. v.items ≡ replicate count 0) }
{
    vec![in alloc; 0; count]
}

fn ones(alloc: Global, count: usize) -> Result<Vec<usize>, AllocError>
    ensures { IfOk result (λ v. v.items ≡ replicate count 1) }
{
    vec![in alloc; 1; count]
}

// For each task one more than its pairs: it waits for the gate, too.
fn count_waits(alloc: Global, ties: &Ties, tasks: usize) -> Result<Vec<usize>, AllocError>
    requires { AreTies ties.now tasks }
    ensures length { IfOk result (λ left. length left.items ≡ tasks) }
    ensures counts { IfOk result (λ left. (j : ℕ) → j < tasks → slice_index left.items j
        ≡ total_of (open_pair ties.now.afters.items (λ e. 0) j)
        (length ties.now.afters.items) + 1) }
{
    let mut left = ones(alloc, tasks)?;
    for after in &ties.afters {
        left[*after as usize] += 1;
    }
    Ok(left)
}

// The keys of the slots, each free at time 0.
fn free_slots(alloc: Global, slots: usize) -> Result<Keys, AllocError>
    requires slots { slots ≤ 1024 }
    ensures places { IfOk result (λ keys. length keys ≡ 1024) }
    ensures inside { IfOk result (λ keys. (s : ℕ) → s < slots → slice_index keys s ≡ 0) }
    ensures outside { IfOk result (λ keys.
        (s : ℕ) → slots ≤ s → s < 1024 → slice_index keys s ≡ NEVER) }
{
    let mut keys = Keys::new(alloc, SLOT_LEVELS)?;
    for slot in 0..slots {
        keys.set(slot, 0);
    }
    Ok(keys)
}

// Nothing is placed yet.
fn begin(alloc: Global, ties: &Ties, tasks: usize, slots: usize) -> Result<State, AllocError>
    requires ties { AreTies ties.now tasks }
    requires few { tasks ≤ 10000 }
    requires slots { slots ≤ 1024 }
    ensures { IfOk result (λ s. (longs : List ℕ) → length longs ≡ tasks →
        IsBetween slots longs ties.now s 0) }
{
    let left = count_waits(alloc, ties, tasks)?;
    let free = free_slots(alloc, slots)?;
    let keys = Keys::new(alloc, TASK_LEVELS)?;
    let starts = zeros(alloc, tasks)?;
    let ends = zeros(alloc, tasks)?;
    let ready = zeros(alloc, tasks)?;
    let lanes = no_slots(alloc, tasks)?;
    let gate = Gate {
        reached: 0,
        met: 0,
        time: 0,
    };
    let mut state = State {
        starts,
        ends,
        slots: lanes,
        free,
        tasks: keys,
        left,
        ready,
        clock: 0,
        gate,
    };
    pass(ties, &mut state, tasks);
    Ok(state)
}

/// Places each task: at time 0 and at each end of a task, while a slot is free and a task may
/// start, the least such task on the least free slot.
pub(crate) fn schedule(
    alloc: Global,
    longs: &[u32],
    ties: &Ties,
    slots: usize,
) -> Result<State, AllocError>
    requires ties { AreTies ties.now (length longs.now) }
    requires few { length longs.now ≤ 10000 }
    requires longs { AreDurations (length longs.now) longs.now }
    requires some { 0 < slots }
    requires slots { slots ≤ 1024 }
    ensures rule { IfOk result (λ s.
        IsByRule slots longs.now (Ordered ties.now) s.slots.items s.starts.items) }
    ensures ends_each { IfOk result (λ s. length s.ends.items ≡ length longs.now) }
    ensures ends { IfOk result (λ s. (k : ℕ) → k < length longs.now →
        slice_index s.ends.items k ≡ end_of longs.now s.starts.items k) }
{
    let links = links_of(alloc, ties.befores.as_slice(), longs.len())?;
    let mut state = begin(alloc, ties, longs.len(), slots)?;
    for step in 0..longs.len() {
        let choice = choose(&state, longs, ties, slots, step);
        place(longs, ties, &links, slots, &mut state, choice, step);
    }
    Ok(state)
}
