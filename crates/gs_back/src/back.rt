// Bringing results to the user's files.
ghost use Rattle.std.specs.Prelude.{◌≡◌, true, Some, OnOk, IfErr, IsOk};
ghost use Rattle.gs_entries.specs.Entries.{entry};
ghost use Rattle.gs_entries.specs.Order.{stage_of};
ghost use Rattle.gs_entries.specs.declared.entry.Entry.TheVariants as made;
ghost use Rattle.gs_entries.specs.declared.entry.Stage.TheVariants as stages;
ghost use Rattle.gs_store.specs.Spans.{TouchesOnly};
ghost use Rattle.gs_store.specs.Ordered.{gate_in};
ghost use Rattle.gs_store.specs.Versions.{AllStand};
ghost use Rattle.gs_back.specs.Finals.{finals_in, finals_of, names_of, kept_of, AreSet};
ghost use Rattle.gs_back.specs.Told.{HasCause, RefusesFinals, WritesBack, MeetsNoFault};

use crate::err::BackErr;
use crate::finals::set_final;
use gs_disk::Disk;
use gs_entries::GateNote;
use gs_store::Store;

/// Sets the files of all finals, in order. Nothing is synced.
fn set_finals<D: Disk>(disk: &mut D, g: &GateNote) -> Result<(), BackErr>
    requires fits { entry.fits (made.Gate g.now) ≡ true }
    ensures set { D.tells → OnOk result (AreSet (finals_in g.now.names g.now.finals)
        (D.state disk.old).folder (D.state disk.new).folder) }
    ensures stood { D.tells → OnOk result (AllStand (D.state disk.old).folder
        (kept_of (finals_in g.now.names g.now.finals))) }
    ensures refused { D.tells → IfErr result (RefusesFinals (D.state disk.old).folder
        (finals_in g.now.names g.now.finals)) }
    ensures touches { D.tells → TouchesOnly (names_of (finals_in g.now.names g.now.finals))
        (D.state disk.old) (D.state disk.new) }
    ensures cause { HasCause (D.state disk.old) (D.state disk.new) result }
{
    for last in g.finals.items() {
        if let Err(failure) = set_final(disk, g.names.at(last.name as usize), last) {
            return Err(failure);
        }
    }
    Ok(())
}

/// Makes each final of the record's gate, in order, and then syncs. `Lost` exactly where the file
/// of a final's version is absent or of another length, with the first. `Fault` and `Memory` are
/// the disk's, since it takes no memory of its own: where the versions stand and no count of the
/// disk rises, it gives `Ok`.
pub fn write_back<D: Disk>(store: &Store, disk: &mut D) -> Result<(), BackErr>
    requires gated { stage_of store.now.entries ≡ stages.Gated }
    ensures writes { D.tells
        → WritesBack store.now.entries (D.state disk.old) (D.state disk.new) result }
    ensures stood { D.tells → OnOk result (AllStand (D.state disk.old).folder
        (kept_of (finals_of store.now.entries))) }
    ensures refused { D.tells → IfErr result (RefusesFinals (D.state disk.old).folder
        (finals_of store.now.entries)) }
    ensures cause { HasCause (D.state disk.old) (D.state disk.new) result }
    ensures complete { D.tells → MeetsNoFault (finals_of store.now.entries) (D.state disk.old)
        (D.state disk.new) → IsOk result }
{
    let g = gate_of(store);
    if let Err(failure) = set_finals(disk, g) {
        return Err(failure);
    }
    disk.sync()?;
    Ok(())
}

/// What the main program did and left, where it has ended.
fn gate_of(store: &Store) -> &GateNote
    requires { stage_of store.now.entries ≡ stages.Gated }
    ensures value { gate_in store.now.entries ≡ Some result.now }
    ensures fits { entry.fits (made.Gate result.now) ≡ true }
{
    match store.gate_note() {
        Some(g) => g,
        None => unreachable!(),
    }
}
