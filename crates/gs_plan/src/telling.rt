// Telling tasks that what they wait for ends.
ghost use Rattle.std.specs.Prelude.{◌≡◌, ◌≢◌, ◌+◌, ◌<◌, ◌≤◌, ℕ, length, slice_index};
ghost use Rattle.gs_plan.specs.Ties.{AreTies, IsIndex, waits_at, needed_at};
ghost use Rattle.gs_plan.specs.State.{IsTold, IsGate, IsHeld, KeepsPlaced, WaitingOf, GateOf, HeldOf, last_need, time_at, time_from};

use crate::keys::Keys;
use crate::links::Links;
use crate::state::{Gate, State, TASK_PLACES};
use crate::ties::Ties;

// Tells a task that one of those that it follows ends at `end`.
fn tell(left: &mut Vec<usize>, ready: &mut Vec<u64>, keys: &mut Keys, task: usize, end: u64)
    requires left { task < length left.old.items }
    requires ready { task < length ready.old.items }
    requires keys { task < length keys.old }
    requires some { 0 < slice_index left.old.items task }
    ensures { IsTold task end left.old.items ready.old.items keys.old
        left.new.items ready.new.items keys.new }
{
    let count = left[task] - 1;
    left[task] = count;
    let time = ready[task].max(end);
    ready[task] = time;
    if count == 0 {
        keys.set(task, time);
    }
}

// Tells each task that depends on `task` that it ends at `end`.
pub(crate) fn release(
    ties: &Ties,
    links: &Links,
    task: usize,
    end: u64,
    state: &mut State,
    tasks: usize,
)
    requires ties { AreTies ties.now tasks }
    requires few { tasks ≤ TASK_PLACES }
    requires index { IsIndex ties.now.befores.items tasks (length ties.now.befores.items)
        links.now.heads.items links.now.links.items }
    requires task { task < tasks }
    requires end { slice_index state.old.ends.items task ≡ end }
    requires positive { 0 < end }
    requires waiting { WaitingOf tasks ties.now state.old
        (time_from ties.now.befores.items state.old.ends.items task
        (length ties.now.befores.items)) state.old.gate.reached }
    ensures waiting { WaitingOf tasks ties.now state.new
        (time_at ties.now.befores.items state.new.ends.items) state.new.gate.reached }
    ensures keeps { KeepsPlaced state.old state.new }
    ensures gate { state.new.gate ≡ state.old.gate }
{
    let mut edge = links.heads[task];
    while let Some(e) = edge {
        let after = ties.afters[e] as usize;
        tell(
            &mut state.left,
            &mut state.ready,
            &mut state.tasks,
            after,
            end,
        );
        edge = links.links[e];
    }
}

// Goes on to the first need, of so many, whose task isn't placed.
fn meet(ties: &Ties, ends: &Vec<u64>, needs: usize, tasks: usize, gate: &mut Gate)
    requires ties { AreTies ties.now tasks }
    requires ends { length ends.now.items ≡ tasks }
    requires gate { IsGate tasks ties.now.needed.items ties.now.waits.items ends.now.items
        gate.old.reached gate.old.met gate.old.time }
    requires reached { gate.old.reached < tasks }
    requires needs { needs ≡ waits_at ties.now gate.old.reached }
    ensures gate { IsGate tasks ties.now.needed.items ties.now.waits.items ends.now.items
        gate.new.reached gate.new.met gate.new.time }
    ensures reached { gate.new.reached ≡ gate.old.reached }
    ensures within { gate.new.met ≤ needs }
    ensures held { gate.new.met < needs →
        slice_index ends.now.items (needed_at ties.now gate.new.met) ≡ 0 }
{
    while gate.met < needs {
        let end = ends[ties.needed[gate.met] as usize];
        if end == 0 {
            break;
        }
        gate.time = gate.time.max(end);
        gate.met += 1;
    }
}

// Tells each further task whose needs are placed, as far as they are, when the last of them ends.
pub(crate) fn pass(ties: &Ties, state: &mut State, tasks: usize)
    requires ties { AreTies ties.now tasks }
    requires few { tasks ≤ TASK_PLACES }
    requires ends { length state.old.ends.items ≡ tasks }
    requires waiting { WaitingOf tasks ties.now state.old
        (time_at ties.now.befores.items state.old.ends.items) state.old.gate.reached }
    requires gate { GateOf tasks ties.now state.old state.old.gate }
    ensures waiting { WaitingOf tasks ties.now state.new
        (time_at ties.now.befores.items state.new.ends.items) state.new.gate.reached }
    ensures gate { GateOf tasks ties.now state.new state.new.gate }
    ensures held { HeldOf tasks ties.now state.new state.new.gate }
    ensures keeps { KeepsPlaced state.old state.new }
{
    while state.gate.reached < tasks {
        let task = state.gate.reached;
        let needs = ties.waits[task];
        meet(ties, &state.ends, needs, tasks, &mut state.gate);
        if state.gate.met < needs {
            break;
        }
        let time = state.gate.time;
        tell(
            &mut state.left,
            &mut state.ready,
            &mut state.tasks,
            task,
            time,
        );
        state.gate.reached += 1;
    }
}
