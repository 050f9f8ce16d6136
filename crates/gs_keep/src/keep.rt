// A task's outputs in the record.
ghost use Rattle.std.specs.Prelude.{◌≡◌, ◌≤◌, ◌<◌, All, length, false, OnOk, IfOk};
ghost use Rattle.gs_types.specs.declared.limits.TheConstants.{TASK_LIMIT};
ghost use Rattle.gs_idl.specs.Interface.{params_at};
ghost use Rattle.gs_entries.specs.Order.{stage_of, has_done};
ghost use Rattle.gs_entries.specs.declared.entry.Stage.TheVariants as stages;
ghost use Rattle.gs_store.specs.State.{IsDiskOf, with_entry};
ghost use Rattle.gs_store.specs.Told.{FailsOutside};
ghost use Rattle.gs_tables.specs.Outs.{outs_noted};
ghost use Rattle.gs_keep.specs.Given.{IsWithin, placed, files_in, done_entry};
ghost use Rattle.gs_keep.specs.Kept.{KeepsOutputs};

use crate::notes::copy_notes;
use crate::outputs::{output_places, put_outputs};
use gs_disk::Disk;
use gs_idl::Idl;
use gs_store::{Store, StoreErr};
use gs_types::{OutNote, Sequence, Value};
use std::alloc::Global;

/// Keeps what task `n`, which isn't done, gave, in the order of the places of its operation: puts
/// each file, and then adds the entry that the task is done. Outputs past the last of these places
/// are left out. Once this has answered `Ok`, every image has the entry and the files. The answer
/// is what the entry notes. It answers only `DiskFault` and `NoMemory`; the store isn't used again
/// then, but loaded anew.
pub fn keep_outputs<D: Disk>(
    alloc: Global,
    store: &mut Store,
    disk: &mut D,
    idl: &Idl,
    n: u32,
    op: u8,
    outs: &[Value],
) -> Result<Sequence<OutNote>, StoreErr>
    requires running { stage_of store.old.entries ≡ stages.Running }
    requires not_done { has_done store.old.entries n ≡ false }
    requires numbered { (1 ≤ n) × (n ≤ TASK_LIMIT) }
    requires known { op < length idl.now.ops }
    requires within { All IsWithin outs.now }
    requires disk_of_store { D.tells → IsDiskOf store.old (D.state disk.old) }
    ensures notes { IfOk result
        (λ notes. notes ≡ outs_noted 1 (params_at idl.now.ops op) outs.now) }
    ensures store { OnOk result (store.new
        ≡ with_entry store.old (done_entry n op (params_at idl.now.ops op) outs.now)) }
    ensures keeps { D.tells → let ps = params_at idl.now.ops op in
        KeepsOutputs store.old (done_entry n op ps outs.now) n (files_in (placed ps outs.now))
        (D.state disk.old) (D.state disk.new) result }
    ensures fails { FailsOutside (D.state disk.old) (D.state disk.new) result }
{
    let places = output_places(alloc, idl, op)?;
    let notes = match put_outputs(alloc, store, disk, n, &places, outs) {
        Ok(notes) => notes,
        Err(failure) => return Err(failure),
    };
    let kept = copy_notes(alloc, notes.items())?;
    match store.done(alloc, disk, n, op, notes.into_vec()) {
        Ok(()) => Ok(kept),
        Err(failure) => Err(failure),
    }
}
