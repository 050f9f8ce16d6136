// The command `check`: prints an interface and a program.
ghost use Rattle.gs_run.specs.Checking.{RanCheck};

use crate::Stop;
use crate::names::CheckWords;
use crate::refusal::stopped;
use crate::showing::{show, shown};
use crate::sources::read_sources;
use crate::texts::checked;
use gs_disk::Disk;
use gs_types::Sink;
use std::alloc::Global;

/// Reads an IDL and a program, each of which is refused as it is read where it is absent or too
/// long, checks them, and writes both in their printed form. No file is touched.
pub(crate) fn check_texts<D: Disk, O: Sink>(
    alloc: Global,
    disk: &mut D,
    words: &CheckWords,
    out: &mut O,
) -> Result<(), Stop>
    ensures { RanCheck D.tells O.tells (D.state disk.old) (D.state disk.new)
        (O.faults out.old) (O.faults out.new) (O.written out.old) (O.written out.new)
        words.now.idl words.now.program result }
{
    let texts = match read_sources(alloc, disk, &words.idl, &words.program) {
        Ok(texts) => texts,
        Err(refusal) => return Err(stopped(refusal)),
    };
    match checked(
        alloc,
        &words.idl,
        texts.idl.bytes(),
        &words.program,
        texts.program.bytes(),
    ) {
        Ok(checked) => shown(show(alloc, &checked, out)),
        Err(refusal) => Err(stopped(refusal)),
    }
}
