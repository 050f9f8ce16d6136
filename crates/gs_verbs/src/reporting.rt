// The command `report`.
ghost use Rattle.std.specs.Prelude.{◌≡◌, IfOk, IfErr};
ghost use Rattle.gs_disk.specs.Folder.{Same};
ghost use Rattle.gs_disk.specs.Moments.{Passes};
ghost use Rattle.gs_store.specs.Loading.{IsStoreOf};
ghost use Rattle.gs_verbs.specs.Finding.{RefusesStore, LoadEnds};
ghost use Rattle.gs_verbs.specs.Reporting.{IsReportIn, report_stop, RanReport};

use crate::ReportStop;
use crate::loading::{Unloaded, load, why_unloaded};
use gs_disk::Disk;
use gs_store::Store;
use gs_types::{Blob, Sink, put_all};
use std::alloc::Global;

fn report_stop(e: Unloaded) -> ReportStop
    ensures { result ≡ report_stop e }
{
    match e {
        Unloaded::Bad { bad } => ReportStop::Store { bad },
        Unloaded::Disk => ReportStop::Disk,
        Unloaded::Memory => ReportStop::Memory,
    }
}

// The report of a store that is that of the folder.
fn tell<D: Disk>(alloc: Global, store: &Store, disk: &mut D) -> Result<Blob, Unloaded>
    requires { D.tells → IsStoreOf store.now (D.state disk.old).folder }
    ensures text { D.tells → IfOk result (IsReportIn (D.state disk.old).folder) }
    ensures refused { D.tells → IfErr result (RefusesStore (D.state disk.old).folder) }
    ensures same { D.tells → (D.state disk.new).folder ≡ (D.state disk.old).folder }
    ensures images { D.tells → Passes Same (D.state disk.old) (D.state disk.new) }
    ensures cause { LoadEnds (D.state disk.old).faults (D.state disk.new).faults result }
{
    match gs_report::report(alloc, store, disk) {
        Ok(text) => Ok(text),
        Err(e) => Err(why_unloaded(e)),
    }
}

// The report of the folder's store.
fn report_of<D: Disk>(alloc: Global, disk: &mut D) -> Result<Blob, Unloaded>
    ensures text { D.tells → IfOk result (IsReportIn (D.state disk.old).folder) }
    ensures refused { D.tells → IfErr result (RefusesStore (D.state disk.old).folder) }
    ensures same { D.tells → (D.state disk.new).folder ≡ (D.state disk.old).folder }
    ensures images { D.tells → Passes Same (D.state disk.old) (D.state disk.new) }
    ensures cause { LoadEnds (D.state disk.old).faults (D.state disk.new).faults result }
{
    match load(alloc, disk) {
        Ok(store) => tell(alloc, &store, disk),
        Err(e) => Err(e),
    }
}

/// Writes the report of the folder's store to `out`: its stage, its header and done entries, and,
/// once the main program has ended, its variables, the files that it leaves with their digests, and
/// how many actions and how much text there are. No file is created, written or removed. `Store`
/// exactly where the folder has no store, with the reason.
pub fn report<D: Disk, O: Sink>(alloc: Global, disk: &mut D, out: &mut O) -> Result<(), ReportStop>
    ensures { RanReport D.tells O.tells (D.state disk.old) (D.state disk.new)
        (O.faults out.old) (O.faults out.new) (O.written out.old) (O.written out.new) result }
{
    let text = match report_of(alloc, disk) {
        Ok(text) => text,
        Err(e) => return Err(report_stop(e)),
    };
    match put_all(out, text.bytes()) {
        Ok(()) => Ok(()),
        Err(_) => Err(ReportStop::Sink),
    }
}
