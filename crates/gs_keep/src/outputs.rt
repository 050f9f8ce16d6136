// The outputs of a task, put one after the other.
ghost use Rattle.std.specs.Prelude.{◌≡◌, ◌<◌, ◌≤◌, [], ◌∷◌, All, length, true, false, IfOk, IfSome, map, slice_get};
ghost use Rattle.std.specs.List.{zip};
ghost use Rattle.gs_types.specs.declared.limits.TheConstants.{OPERATION_LIMIT, PARAMETER_LIMIT};
ghost use Rattle.gs_idl.specs.Interface.{params_at, is_output};
ghost use Rattle.gs_fields.specs.Format.{all_fit};
ghost use Rattle.gs_entries.specs.Notes as formats;
ghost use Rattle.gs_entries.specs.Order.{stage_of, has_done};
ghost use Rattle.gs_entries.specs.declared.entry.Stage.TheVariants as stages;
ghost use Rattle.gs_store.specs.State.{IsDiskOf};
ghost use Rattle.gs_store.specs.Told.{FailsOutside};
ghost use Rattle.gs_keep.specs.Given.{IsWithin, AreAbove, output_places, noted, files_in};
ghost use Rattle.gs_keep.specs.Kept.{PutsFiles};

use crate::notes::note_of;
use gs_disk::Disk;
use gs_idl::{Dir, Idl};
use gs_store::{Store, StoreErr};
use gs_types::{NoMemory, OutNote, Sequence, Value};
use std::alloc::Global;

fn is_output(dir: Dir) -> bool
    ensures { result ≡ is_output dir }
{
    match dir {
        Dir::Input => false,
        Dir::Both | Dir::Output => true,
    }
}

/// The places of an operation that give something, from 1.
pub fn output_places(alloc: Global, idl: &Idl, op: u8) -> Result<Vec<u8>, NoMemory>
    requires { op < length idl.now.ops }
    ensures places { IfOk result
        (λ places. places.items ≡ output_places 1 (params_at idl.now.ops op)) }
    ensures few { length (params_at idl.now.ops op) ≤ PARAMETER_LIMIT }
    ensures in_limit { op < OPERATION_LIMIT }
{
    let _count = idl.op_count();
    let mut places = Vec::new(alloc);
    for i in 0..idl.param_count(op) {
        if is_output(idl.param(op, i).0) {
            places.push(i + 1)?;
        }
    }
    Ok(places)
}

/// Puts the file of an output; a number and a string have none.
fn put_if_file<D: Disk>(
    store: &mut Store,
    disk: &mut D,
    n: u32,
    place: u8,
    v: &Value,
) -> Result<(), StoreErr>
    requires running { stage_of store.old.entries ≡ stages.Running }
    requires not_done { has_done store.old.entries n ≡ false }
    requires within { IsWithin v.now }
    requires disk_of_store { D.tells → IsDiskOf store.old (D.state disk.old) }
    ensures same { store.new ≡ store.old }
    ensures puts { D.tells → PutsFiles store.old n (files_in ((place, v.now) ∷ []))
        (D.state disk.old) (D.state disk.new) result }
    ensures fails { FailsOutside (D.state disk.old) (D.state disk.new) result }
{
    match v {
        Value::File { bytes } => store.put_out(disk, n, place, bytes.bytes()),
        Value::Int { .. } | Value::Str { .. } => Ok(()),
    }
}

fn note_at(alloc: Global, place: u8, v: &Value) -> Result<OutNote, NoMemory>
    requires within { IsWithin v.now }
    requires fits { formats.place.fits place ≡ true }
    ensures value { IfOk result (λ note. note ≡ noted (place, v.now)) }
    ensures fits { IfOk result (λ note. formats.out.fits note ≡ true) }
{
    Ok(OutNote {
        place,
        v: note_of(alloc, v)?,
    })
}

/// Puts the files among the outputs of a task at these places, and notes each output.
pub fn put_outputs<D: Disk>(
    alloc: Global,
    store: &mut Store,
    disk: &mut D,
    n: u32,
    places: &[u8],
    outs: &[Value],
) -> Result<Sequence<OutNote>, StoreErr>
    requires running { stage_of store.old.entries ≡ stages.Running }
    requires not_done { has_done store.old.entries n ≡ false }
    requires within { All IsWithin outs.now }
    requires fit { all_fit formats.place places.now ≡ true }
    requires rise { AreAbove 0 places.now }
    requires disk_of_store { D.tells → IsDiskOf store.old (D.state disk.old) }
    ensures same { store.new ≡ store.old }
    ensures notes { IfOk result (λ notes. notes ≡ map noted (zip places.now outs.now)) }
    ensures fit { IfOk result (λ notes. all_fit formats.out notes ≡ true) }
    ensures puts { D.tells → PutsFiles store.old n (files_in (zip places.now outs.now))
        (D.state disk.old) (D.state disk.new) result }
    ensures fails { FailsOutside (D.state disk.old) (D.state disk.new) result }
{
    let mut notes = Sequence::new(alloc);
    for i in 0..places.len().min(outs.len()) {
        let place = places[i];
        let v = &outs[i];
        if let Err(failure) = put_if_file(store, disk, n, place, v) {
            return Err(failure);
        }
        let note = note_at(alloc, place, v)?;
        notes.push(note)?;
    }
    Ok(notes)
}
