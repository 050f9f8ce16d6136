// The command `plan`.
ghost use Rattle.std.specs.Prelude.{◌≡◌, ◌≤◌, MatchResult};
ghost use Rattle.gs_disk.specs.Folder.{Same};
ghost use Rattle.gs_disk.specs.Moments.{Passes};
ghost use Rattle.gs_plan.specs.declared.planning.TheConstants.{PLAN_SLOTS};
ghost use Rattle.gs_verbs.specs.Planning.{plan_stop, IsPlanIn, IsUnplanned, ReadEnds, RanPlan};

use crate::PlanStop;
use crate::durations::read_text;
use crate::loading::{Unloaded, load};
use crate::planned::plan_of;
use gs_disk::Disk;
use gs_types::{Blob, Name, Sink, put_all};
use std::alloc::Global;

fn plan_stop(e: Unloaded) -> PlanStop
    ensures { result ≡ plan_stop e }
{
    match e {
        Unloaded::Bad { bad } => PlanStop::Store { bad },
        Unloaded::Disk => PlanStop::Disk,
        Unloaded::Memory => PlanStop::Memory,
    }
}

// The text of the plan: the file of durations is read first, and judged last.
fn plan_in<D: Disk>(
    alloc: Global,
    disk: &mut D,
    slots: u32,
    durations: &Name,
) -> Result<Blob, PlanStop>
    requires some { 1 ≤ slots }
    requires few { slots ≤ PLAN_SLOTS }
    ensures told { D.tells → MatchResult result
        (IsPlanIn slots (D.state disk.old).folder durations.now)
        (IsUnplanned (D.state disk.old).folder durations.now) }
    ensures same { D.tells → (D.state disk.new).folder ≡ (D.state disk.old).folder }
    ensures images { D.tells → Passes Same (D.state disk.old) (D.state disk.new) }
    ensures cause { ReadEnds (D.state disk.old).faults (D.state disk.new).faults result }
{
    let text = match read_text(alloc, disk, durations) {
        Ok(text) => text,
        Err(stop) => return Err(stop),
    };
    match load(alloc, disk) {
        Ok(store) => plan_of(alloc, &store, slots, &text),
        Err(e) => Err(plan_stop(e)),
    }
}

/// Writes to `out` the plan of a finished run on so many slots, 1 to 1,024, with the durations of
/// its operations from a file: a line `task N slot S start T end U` for each task, and then
/// `end C`, `work W`, `chain` with its tasks, and `length L`. No file is created, written or removed.
/// `NoText` exactly where the file is absent; then `Store` where the folder has no store; `NoRun`
/// where its main program hasn't ended; `Store` where its interface doesn't read, record 0, or its
/// actions don't fit the interface, the gate's record; and `BadText` where the file goes wrong.
pub fn plan<D: Disk, O: Sink>(
    alloc: Global,
    disk: &mut D,
    slots: u32,
    durations: &Name,
    out: &mut O,
) -> Result<(), PlanStop>
    requires some { 1 ≤ slots }
    requires few { slots ≤ PLAN_SLOTS }
    ensures { RanPlan D.tells O.tells (D.state disk.old) (D.state disk.new)
        (O.faults out.old) (O.faults out.new) (O.written out.old) (O.written out.new)
        slots durations.now result }
{
    let text = match plan_in(alloc, disk, slots, durations) {
        Ok(text) => text,
        Err(stop) => return Err(stop),
    };
    match put_all(out, text.bytes()) {
        Ok(()) => Ok(()),
        Err(_) => Err(PlanStop::Sink),
    }
}
