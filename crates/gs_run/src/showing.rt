// Shows an interface and a program.
ghost use Rattle.std.specs.Prelude.{◌≡◌, IfOk};
ghost use Rattle.gs_run.specs.Checking.{both_printed, HasPassed};
ghost use Rattle.gs_run.specs.Showing.{ShowEnds, ShowWrote, shown_as};

use crate::Stop;
use gs_check::Checked;
use gs_types::{NoMemory, Sink, put_all};
use std::alloc::Global;

/// Why a text wasn't shown: the output failed, or memory was wanting.
#[derive(Clone, Copy, Debug, PartialEq, Eq)]
pub(crate) enum Unshown {
    Sink,
    Memory,
}

/// The whole call ends so.
pub(crate) fn shown(answer: Result<(), Unshown>) -> Result<(), Stop>
    ensures { result ≡ shown_as answer }
{
    match answer {
        Ok(()) => Ok(()),
        Err(Unshown::Sink) => Err(Stop::Sink),
        Err(Unshown::Memory) => Err(Stop::Memory),
    }
}

/// The printed interface, and then the printed program.
fn both_texts(alloc: Global, checked: &Checked) -> Result<Vec<u8>, NoMemory>
    ensures text { IfOk result (λ text. text.items ≡ both_printed checked.now) }
    ensures passes { HasPassed checked.now }
{
    let tree = checked.tree();
    let Ok(mut text) = gs_idl::print(alloc, checked.idl()) else {
        return Err(NoMemory);
    };
    let Ok(program) = gs_tree::print(alloc, tree) else {
        return Err(NoMemory);
    };
    text.extend_from_slice(&program)?;
    Ok(text)
}

/// Writes the printed interface and program.
pub(crate) fn show<O: Sink>(alloc: Global, checked: &Checked, out: &mut O) -> Result<(), Unshown>
    ensures passes { HasPassed checked.now }
    ensures ends { ShowEnds (O.faults out.old) (O.faults out.new) result }
    ensures wrote { O.tells
        → ShowWrote (both_printed checked.now) (O.written out.old) (O.written out.new) result }
{
    let Ok(text) = both_texts(alloc, checked) else {
        return Err(Unshown::Memory);
    };
    match put_all(out, &text) {
        Ok(()) => Ok(()),
        Err(_) => Err(Unshown::Sink),
    }
}
