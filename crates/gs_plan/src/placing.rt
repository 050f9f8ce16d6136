// Placing one task after the other.
ghost use Rattle.std.specs.Prelude.{◌≡◌, ◌+◌, ◌<◌, ◌≤◌, ◌^◌, ℕ, length, slice_index, replicate, IfOk};
ghost use Rattle.gs_plan.specs.Durations.{AreDurations};
ghost use Rattle.gs_plan.specs.Ties.{AreTies, IsIndex};
ghost use Rattle.gs_plan.specs.State.{IsBetween, NextOf, Puts, PlacedOf, RunOf, WaitingOf, GateOf, time_at, time_from};

use crate::keys::{Keys, NEVER};
use crate::links::Links;
use crate::state::{State, TASK_PLACES};
use crate::telling::{pass, release};
use crate::ties::Ties;

/// Where a task goes next.
#[derive(Clone, Copy)]
pub(crate) struct Choice {
    pub time: u64,
    pub task: usize,
    pub slot: usize,
}

/// The least task that may be placed next, at the first time at which one may, on the least slot
/// that is free then.
pub(crate) fn choose(state: &State, longs: &[u32], ties: &Ties, slots: usize, step: usize) -> Choice
    requires ties { AreTies ties.now (length longs.now) }
    requires few { length longs.now ≤ 10000 }
    requires some { 0 < slots }
    requires slots { slots ≤ 1024 }
    requires step { step < length longs.now }
    requires between { IsBetween slots longs.now ties.now state.now step }
    ensures { NextOf slots longs.now ties.now state.now result.time result.task result.slot step }
{
    let soonest = state.tasks.least();
    let first_free = state.free.least();
    let time = state.clock.max(soonest).max(first_free);
    let task = state.tasks.first_within(time);
    let slot = state.free.first_within(time);
    Choice { time, task, slot }
}

// Writes down that a task is placed.
fn put(state: &mut State, choice: Choice, end: u64)
    requires tasks { choice.task < length state.old.tasks }
    requires free { choice.slot < length state.old.free }
    requires small { choice.slot < 1024 }
    requires starts { choice.task < length state.old.starts.items }
    requires ends { choice.task < length state.old.ends.items }
    requires slots { choice.task < length state.old.slots.items }
    ensures starts { Puts choice.task choice.time state.old.starts.items state.new.starts.items }
    ensures ends { Puts choice.task end state.old.ends.items state.new.ends.items }
    ensures slots { Puts choice.task choice.slot state.old.slots.items state.new.slots.items }
    ensures tasks { Puts choice.task NEVER state.old.tasks state.new.tasks }
    ensures free { Puts choice.slot end state.old.free state.new.free }
    ensures left { state.new.left ≡ state.old.left }
    ensures ready { state.new.ready ≡ state.old.ready }
    ensures clock { state.new.clock ≡ choice.time }
    ensures gate { state.new.gate ≡ state.old.gate }
{
    state.clock = choice.time;
    state.starts[choice.task] = choice.time;
    state.ends[choice.task] = end;
    state.slots[choice.task] = choice.slot as u32;
    state.tasks.set(choice.task, NEVER);
    state.free.set(choice.slot, end);
}

/// Places the task that was chosen.
pub(crate) fn place(
    longs: &[u32],
    ties: &Ties,
    links: &Links,
    slots: usize,
    state: &mut State,
    choice: Choice,
    step: usize,
)
    requires ties { AreTies ties.now (length longs.now) }
    requires few { length longs.now ≤ 10000 }
    requires longs { AreDurations (length longs.now) longs.now }
    requires slots { slots ≤ 1024 }
    requires step { step < length longs.now }
    requires index { IsIndex ties.now.befores.items (length longs.now)
        (length ties.now.befores.items) links.now.heads.items links.now.links.items }
    requires between { IsBetween slots longs.now ties.now state.old step }
    requires next { NextOf slots longs.now ties.now state.old
        choice.time choice.task choice.slot step }
    ensures { IsBetween slots longs.now ties.now state.new (step + 1) }
{
    let tasks = longs.len();
    let end = choice.time + longs[choice.task] as u64;
    put(state, choice, end);
    release(ties, links, choice.task, end, state, tasks);
    pass(ties, state, tasks);
}
