// The file of durations.
ghost use Rattle.std.specs.Prelude.{◌≡◌, ℕ, List, IfOk, MatchResult, length};
ghost use Rattle.gs_disk.specs.Folder.{Same};
ghost use Rattle.gs_disk.specs.Moments.{Passes};
ghost use Rattle.gs_plan.specs.Durations.{Says, AreDurations};
ghost use Rattle.gs_verbs.specs.Planning.{IsTextOf, ReadTold, ReadEnds, FailsAlone, IsUnread};

use crate::PlanStop;
use gs_disk::{Disk, DiskErr, DiskName, Whole, read_whole};
use gs_idl::Idl;
use gs_plan::{DurErr, DurKind, durations};
use gs_types::{Blob, Name, TEXT_LIMIT};
use std::alloc::Global;

/// A file of durations as it was read: longer than the limit of texts, or its bytes.
#[derive(Drop)]
pub(crate) enum Text {
    Long,
    Read { bytes: Blob },
}

/// Reads the file. It is judged later, its length included.
pub(crate) fn read_text<D: Disk>(alloc: Global, disk: &mut D, name: &Name) -> Result<Text, PlanStop>
    ensures told { D.tells → ReadTold ((D.state disk.old).folder name.now) result }
    ensures same { D.tells → (D.state disk.new).folder ≡ (D.state disk.old).folder }
    ensures images { D.tells → Passes Same (D.state disk.old) (D.state disk.new) }
    ensures cause { ReadEnds (D.state disk.old).faults (D.state disk.new).faults result }
{
    let mut bytes = Vec::new(alloc);
    match read_whole(
        alloc,
        disk,
        &DiskName::of(name.bytes()),
        TEXT_LIMIT as u64,
        &mut bytes,
    ) {
        Ok(Whole::Absent) => Err(PlanStop::NoText),
        Ok(Whole::TooLong { len: _ }) => Ok(Text::Long),
        Ok(Whole::Read { len: _ }) => Ok(Text::Read {
            bytes: Blob::of(bytes),
        }),
        Err(DiskErr::Fault) => Err(PlanStop::Disk),
        Err(DiskErr::Memory) => Err(PlanStop::Memory),
    }
}

/// The durations that the file gives the operations of an interface.
pub(crate) fn durations_in(alloc: Global, text: &Text, idl: &Idl) -> Result<Vec<u32>, PlanStop>
    ensures says { (file : List ℕ) → IsTextOf file text.now
        → MatchResult result (λ v. Says idl.now.ops file v.items) (IsUnread idl.now.ops file) }
    ensures fit { IfOk result (λ v. AreDurations (length idl.now.ops) v.items) }
    ensures ends { FailsAlone result }
{
    match text {
        Text::Long => Err(PlanStop::BadText {
            line: 0,
            kind: DurKind::TooLong,
        }),
        Text::Read { bytes } => match durations(alloc, bytes.bytes(), idl) {
            Ok(list) => Ok(list),
            Err(DurErr::At { line, kind }) => Err(PlanStop::BadText { line, kind }),
            Err(DurErr::NoMemory) => Err(PlanStop::Memory),
        },
    }
}
