// A program before its first step.
ghost use Rattle.std.specs.Prelude.{◌≡◌, None, map, IfOk};
ghost use Rattle.gs_tree.specs.View.{var_of};
ghost use Rattle.gs_talk.specs.Talk.{first_slot};
ghost use Rattle.gs_main.specs.Seen.{state_of, first_state};

use crate::waits::Waits;
use crate::work::Work;
use gs_pieces::Opened;
use gs_talk::{Slot, first_slot};
use gs_tree::Var;
use gs_types::{Blob, NoMemory};
use indexmap::IndexSet;
use std::alloc::Global;

/// The names of the variables.
pub(crate) fn names(alloc: Global, vars: &[Var]) -> Result<Vec<Blob>, NoMemory>
    ensures { IfOk result (λ names. names.items ≡ map (λ v. v.0.text) (map var_of vars.now)) }
{
    let mut names = Vec::new(alloc);
    for var in vars {
        names.push(Blob::copy(alloc, &var.name.name)?)?;
    }
    Ok(names)
}

fn first_slots(alloc: Global, vars: &[Var]) -> Result<Vec<Slot>, NoMemory>
    ensures { IfOk result (λ slots.
        slots.items ≡ map (λ v. first_slot v.1) (map var_of vars.now)) }
{
    let mut slots = Vec::new(alloc);
    for var in vars {
        slots.push(first_slot(alloc, var.kind)?)?;
    }
    Ok(slots)
}

// Each handle is closed.
fn first_handles(alloc: Global, vars: &[Var]) -> Result<Vec<Option<Opened>>, NoMemory>
    ensures { IfOk result (λ handles.
        handles.items ≡ map (λ v. None) (map var_of vars.now)) }
{
    let mut handles = Vec::new(alloc);
    for _var in vars {
        handles.push(None)?;
    }
    Ok(handles)
}

/// Nothing is done yet.
pub(crate) fn first_work(alloc: Global, vars: &[Var]) -> Result<Work, NoMemory>
    ensures state { IfOk result (λ w. state_of w ≡ first_state (map var_of vars.now)) }
    ensures waits { IfOk result (λ w. w.waits ≡ Waits.Nothing) }
{
    Ok(Work {
        vars: first_slots(alloc, vars)?,
        handles: first_handles(alloc, vars)?,
        text: Vec::new(alloc),
        names: IndexSet::new(alloc),
        tasks: 0,
        actions: 0,
        waits: Waits::Nothing,
        alloc,
    })
}
