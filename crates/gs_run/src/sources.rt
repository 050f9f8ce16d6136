// The IDL and the program of a command.
ghost use Rattle.std.specs.Prelude.{◌≡◌, ◌≤◌, IfOk};
ghost use Rattle.gs_disk.specs.Folder.{Same};
ghost use Rattle.gs_disk.specs.Moments.{Passes};
ghost use Rattle.gs_run.specs.Sources.{SourcesTold, SourcesEnd, AreNamed, IsNamedBy};

use crate::kinds::TextKind;
use crate::refusal::Refusal;
use crate::texts::read_short;
use gs_disk::Disk;
use gs_idl::IdlKind;
use gs_parse::ParseKind;
use gs_store::Texts;
use gs_types::Name;
use std::alloc::Global;

/// Reads an IDL and then a program, each of which is refused as it is read where it is absent or
/// too long.
pub(crate) fn read_sources<D: Disk>(
    alloc: Global,
    disk: &mut D,
    idl_name: &Name,
    program_name: &Name,
) -> Result<Texts, Refusal>
    ensures same { D.tells → (D.state disk.new).folder ≡ (D.state disk.old).folder }
    ensures images { D.tells → Passes Same (D.state disk.old) (D.state disk.new) }
    ensures rise { (D.state disk.old).faults ≤ (D.state disk.new).faults }
    ensures ends { SourcesEnd (D.state disk.old).faults (D.state disk.new).faults result }
    ensures told { D.tells
        → SourcesTold (D.state disk.old).folder idl_name.now program_name.now result }
    ensures named { IfOk result AreNamed }
    ensures names { IfOk result (IsNamedBy idl_name.now program_name.now) }
{
    let too_long = TextKind::Idl {
        kind: IdlKind::TooLong,
    };
    let idl = match read_short(alloc, disk, idl_name, too_long) {
        Ok(text) => text,
        Err(refusal) => return Err(refusal),
    };
    let too_long = TextKind::Program {
        kind: ParseKind::TooLong,
    };
    let program = match read_short(alloc, disk, program_name, too_long) {
        Ok(text) => text,
        Err(refusal) => return Err(refusal),
    };
    Ok(Texts {
        idl_name: idl_name.copy(),
        idl,
        program_name: program_name.copy(),
        program,
    })
}
