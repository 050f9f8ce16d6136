// The plan for the run that a store records.
ghost use Rattle.std.specs.Prelude.{◌≡◌, ◌≤◌, ℕ, List, Some, MatchResult, slice_get, length};
ghost use Rattle.gs_entries.specs.Order.{stage_of};
ghost use Rattle.gs_entries.specs.declared.entry.GateNote.{GateNote};
ghost use Rattle.gs_entries.specs.declared.entry.Entry.TheVariants as made;
ghost use Rattle.gs_plan.specs.Durations.{AreDurations};
ghost use Rattle.gs_plan.specs.Fits.{Fit};
ghost use Rattle.gs_plan.specs.declared.planning.TheConstants.{PLAN_SLOTS};
ghost use Rattle.gs_store.specs.Ordered.{texts_of, gate_in, HasEnded};
ghost use Rattle.gs_verbs.specs.Planning.{HasInterface, IsNoInterface, IsTextOf, IsPlanned, IsWanting, FailsAlone, IsPlanOf, IsNoPlan};

use crate::durations::{Text, durations_in};
use crate::{BadStore, PlanStop};
use gs_idl::{Idl, IdlErr};
use gs_plan::{fits, plan, text};
use gs_store::{Entry, Store, Texts};
use gs_types::{Action, Blob};
use std::alloc::Global;

// The texts that the record of a run that has ended is of.
fn header(store: &Store) -> &Texts
    requires { HasEnded (stage_of store.now.entries) }
    ensures { texts_of store.now.entries ≡ Some result.now }
{
    let Some(first) = store.entry(0) else {
        unreachable!()
    };
    match first {
        Entry::Header { t } => t,
        _ => unreachable!(),
    }
}

// The interface of the run.
fn interface_of(alloc: Global, store: &Store) -> Result<Idl, PlanStop>
    requires { HasEnded (stage_of store.now.entries) }
    ensures { MatchResult result (HasInterface store.now.entries)
        (IsNoInterface store.now.entries) }
{
    match gs_idl::read(alloc, header(store).idl.bytes()) {
        Ok(idl) => Ok(idl),
        Err(IdlErr::At { .. }) => Err(PlanStop::Store {
            bad: BadStore::Record { index: 0 },
        }),
        Err(IdlErr::NoMemory) => Err(PlanStop::Memory),
    }
}

// The index of the entry that says what the main program did, or the number of entries.
fn gate_index(store: &Store) -> u32
    ensures { (g : GateNote) → gate_in store.now.entries ≡ Some g
        → slice_get store.now.entries result ≡ Some (made.Gate g) }
{
    let mut i: u32 = 0;
    while let Some(e) = store.entry(i) {
        if let Entry::Gate { .. } = e {
            return i;
        }
        i += 1;
    }
    i
}

// The text of the plan for these actions.
fn planned(
    alloc: Global,
    actions: &[Action],
    durations: &[u32],
    slots: u32,
) -> Result<Blob, PlanStop>
    requires fit { Fit (length durations.now) actions.now }
    requires longs { AreDurations (length durations.now) durations.now }
    requires some { 1 ≤ slots }
    requires few { slots ≤ PLAN_SLOTS }
    ensures { MatchResult result (IsPlanned slots durations.now actions.now) IsWanting }
{
    let Ok(plan) = plan(alloc, actions, durations, slots) else {
        return Err(PlanStop::Memory);
    };
    match text(alloc, &plan) {
        Ok(text) => Ok(text),
        Err(_) => Err(PlanStop::Memory),
    }
}

/// The text of the plan for the run that a store records, on so many slots.
pub(crate) fn plan_of(
    alloc: Global,
    store: &Store,
    slots: u32,
    text: &Text,
) -> Result<Blob, PlanStop>
    requires some { 1 ≤ slots }
    requires few { slots ≤ PLAN_SLOTS }
    ensures plan { (file : List ℕ) → IsTextOf file text.now
        → MatchResult result (IsPlanOf slots store.now.entries file)
        (IsNoPlan store.now.entries file) }
    ensures ends { FailsAlone result }
{
    let Some(g) = store.gate_note() else {
        return Err(PlanStop::NoRun);
    };
    let idl = match interface_of(alloc, store) {
        Ok(idl) => idl,
        Err(stop) => return Err(stop),
    };
    if !fits(g.actions.items(), idl.op_count()) {
        return Err(PlanStop::Store {
            bad: BadStore::Record {
                index: gate_index(store),
            },
        });
    }
    let durations = match durations_in(alloc, text, &idl) {
        Ok(durations) => durations,
        Err(stop) => return Err(stop),
    };
    planned(alloc, g.actions.items(), durations.as_slice(), slots)
}
