// Judges the texts of a run.
ghost use Rattle.std.specs.Prelude.{◌≡◌, ◌≤◌, ℕ, List, Option, IfOk, MatchResult};
ghost use Rattle.gs_disk.specs.Folder.{Same};
ghost use Rattle.gs_disk.specs.Moments.{Passes};
ghost use Rattle.gs_run.specs.Judging.{IsTextOf, ListOf, IsPlanFor, LacksWorker, SaysPlan, PlanOf, JudgedOnly, JudgeTold};
ghost use Rattle.gs_run.specs.Sources.{SourcesEnd};

use crate::calls::first_unserved;
use crate::kinds::TextKind;
use crate::names::Words;
use crate::refusal::Refusal;
use crate::texts::{Text, bad_text, checked, no_text, read_text};
use gs_broker::{Workers, WorkersErr, WorkersKind};
use gs_check::Checked;
use gs_disk::Disk;
use gs_idl::Idl;
use gs_store::Texts;
use gs_types::Name;
use std::alloc::Global;

/// What a run is to do: the program, and the workers.
#[derive(Drop)]
pub(crate) struct Plan {
    pub checked: Checked,
    pub workers: Workers,
}

fn workers_of(alloc: Global, text: &Text, name: &Name, idl: &Idl) -> Result<Workers, Refusal>
    ensures ends { JudgedOnly result }
    ensures says { (file : Option (List ℕ)) → IsTextOf file text.now
        → ListOf idl.now.ops file name.now result }
{
    match text {
        Text::Long => Err(bad_text(
            name,
            0,
            TextKind::Workers {
                kind: WorkersKind::TooLong,
            },
        )),
        Text::Read { bytes } => match Workers::read(alloc, bytes.bytes(), idl) {
            Ok(workers) => Ok(workers),
            Err(WorkersErr::At { line, kind }) => {
                Err(bad_text(name, line, TextKind::Workers { kind }))
            }
            Err(WorkersErr::NoMemory) => Err(Refusal::Memory),
        },
    }
}

// Each operation that the program calls has a worker.
fn planned(words: &Words, checked: Checked, workers: Workers) -> Result<Plan, Refusal>
    ensures { MatchResult result (IsPlanFor checked workers)
        (LacksWorker words.now.program checked workers) }
{
    match first_unserved(&checked.tree().body, checked.idl(), &workers) {
        Some(line) => Err(bad_text(&words.program, line, TextKind::NoWorker)),
        None => Ok(Plan { checked, workers }),
    }
}

/// Judges the texts in the order IDL, program, its checks, worker list, and then whether each
/// operation that the program calls has a worker.
fn plan_of(alloc: Global, words: &Words, texts: &Texts, list: &Text) -> Result<Plan, Refusal>
    ensures ends { JudgedOnly result }
    ensures both { IfOk result (SaysPlan texts.now) }
    ensures says { (file : Option (List ℕ)) → IsTextOf file list.now
        → PlanOf texts.now file words.now.idl words.now.program words.now.workers result }
{
    let checked = match checked(
        alloc,
        &words.idl,
        texts.idl.bytes(),
        &words.program,
        texts.program.bytes(),
    ) {
        Ok(checked) => checked,
        Err(refusal) => return Err(refusal),
    };
    match workers_of(alloc, list, &words.workers, checked.idl()) {
        Ok(workers) => planned(words, checked, workers),
        Err(refusal) => Err(refusal),
    }
}

/// Reads the worker list, and judges the texts with it. `NoText` exactly where its file is absent.
pub(crate) fn judge<D: Disk>(
    alloc: Global,
    disk: &mut D,
    words: &Words,
    texts: &Texts,
) -> Result<Plan, Refusal>
    ensures same { D.tells → (D.state disk.new).folder ≡ (D.state disk.old).folder }
    ensures images { D.tells → Passes Same (D.state disk.old) (D.state disk.new) }
    ensures rise { (D.state disk.old).faults ≤ (D.state disk.new).faults }
    ensures ends { SourcesEnd (D.state disk.old).faults (D.state disk.new).faults result }
    ensures both { IfOk result (SaysPlan texts.now) }
    ensures judged { D.tells → JudgeTold texts.now ((D.state disk.old).folder words.now.workers)
        words.now.idl words.now.program words.now.workers result }
{
    let list = match read_text(alloc, disk, &words.workers) {
        Ok(Some(list)) => list,
        Ok(None) => return Err(no_text(&words.workers)),
        Err(refusal) => return Err(refusal),
    };
    plan_of(alloc, words, texts, &list)
}
