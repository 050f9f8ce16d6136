// A line of a worker list.
ghost use Rattle.std.specs.Prelude.{◌≡◌, true, false, IfOk, MatchOption, MatchResult};
ghost use Rattle.gs_broker.specs.Text.{Parts, words_of, are_in_form, stands};
ghost use Rattle.gs_broker.specs.Reading.{spelled, parts_by, names_of, IsTaken, IsNotTaken, IsNextWorker, IsNoWorker, IsStop};

use crate::kind::{PROGRAM_LENGTH, WorkersKind};
use crate::operations::{Marked, are_operations, each_taken, is_star, mark_all};
use crate::words::{name_of, slots_of};
use crate::workers::Worker;
use gs_idl::Idl;
use gs_types::{NoMemory, WORKER_LIMIT};
use std::alloc::{AllocError, Global};

/// The words of a worker's line.
#[derive(Clone, Copy)]
pub(crate) struct Fields<'a> {
    pub name: &'a [u8],
    pub slots: &'a [u8],
    pub program: &'a [u8],
    pub operations: &'a [&'a [u8]],
}

/// Why reading stopped on a line.
#[derive(Clone, Copy, PartialEq, Eq, Debug)]
pub(crate) enum Stop {
    Fault { kind: WorkersKind },
    Memory,
}

impl From<AllocError> for Stop {
    ghost use Rattle.std.specs.Prelude.{◌≡◌};
    ghost use Rattle.gs_broker.specs.declared.line.Stop.TheVariants.{Memory};

    ghost from_gives = { λ _ e. e ≡ Memory };

    fn from(_e: AllocError) -> Stop {
        Stop::Memory
    }
}

impl From<NoMemory> for Stop {
    ghost use Rattle.std.specs.Prelude.{◌≡◌};
    ghost use Rattle.gs_broker.specs.declared.line.Stop.TheVariants.{Memory};

    ghost from_gives = { λ _ e. e ≡ Memory };

    fn from(_e: NoMemory) -> Stop {
        Stop::Memory
    }
}

// The words as the parts of a worker's line, where they are in form.
pub(crate) fn fields_of<'a>(words: &'a [&'a [u8]]) -> Option<Fields<'a>>
    ensures form { MatchOption result
        ((p : Parts) → spelled words.now ≡ words_of p → are_in_form p ≡ false)
        (λ f. (spelled words.now ≡ words_of (parts_by f)) × (are_in_form (parts_by f) ≡ true)) }
{
    if words.len() < 4 {
        return None;
    }
    let fields = Fields {
        name: words[0],
        slots: words[1],
        program: words[2],
        operations: &words[3..],
    };
    if are_operations(fields.operations) && fields.program.len() <= PROGRAM_LENGTH {
        Some(fields)
    } else {
        None
    }
}

// For each operation whether the words give it.
fn takes_of(alloc: Global, words: &[&[u8]], idl: &Idl) -> Result<Vec<bool>, Stop>
    ensures { MatchResult result
        (λ v. IsTaken idl.now.ops (spelled words.now) v.items)
        (IsStop (IsNotTaken idl.now.ops (spelled words.now))) }
{
    if is_star(words) {
        return Ok(each_taken(alloc, idl, true)?);
    }
    let mut takes = each_taken(alloc, idl, false)?;
    match mark_all(words, idl, &mut takes) {
        Marked::Once => Ok(takes),
        Marked::Again => Err(Stop::Fault {
            kind: WorkersKind::Twice,
        }),
        Marked::Unknown => Err(Stop::Fault {
            kind: WorkersKind::UnknownOp,
        }),
    }
}

fn copied(alloc: Global, word: &[u8]) -> Result<Vec<u8>, AllocError>
    ensures { IfOk result (λ v. v.items ≡ word.now) }
{
    word.to_vec(alloc)
}

// Whether a worker has the name.
fn has_name(workers: &[Worker], name: &[u8]) -> bool
    ensures { result ≡ stands name.now (names_of workers.now) }
{
    for worker in workers {
        if name == worker.name.bytes() {
            return true;
        }
    }
    false
}

// The worker of a line with these words, behind the others.
pub(crate) fn read_worker(
    alloc: Global,
    fields: &Fields,
    idl: &Idl,
    workers: &[Worker],
) -> Result<Worker, Stop>
    ensures { MatchResult result
        (IsNextWorker idl.now.ops (parts_by fields.now) workers.now)
        (IsStop (IsNoWorker idl.now.ops (parts_by fields.now) workers.now)) }
{
    let Some(name) = name_of(fields.name) else {
        return Err(Stop::Fault {
            kind: WorkersKind::BadName,
        });
    };
    let Some(slots) = slots_of(fields.slots) else {
        return Err(Stop::Fault {
            kind: WorkersKind::BadSlots,
        });
    };
    let takes = match takes_of(alloc, fields.operations, idl) {
        Ok(takes) => takes,
        Err(stop) => return Err(stop),
    };
    if has_name(workers, fields.name) {
        return Err(Stop::Fault {
            kind: WorkersKind::Twice,
        });
    }
    if workers.len() >= WORKER_LIMIT {
        return Err(Stop::Fault {
            kind: WorkersKind::TooMany,
        });
    }
    let program = copied(alloc, fields.program)?;
    Ok(Worker {
        name,
        slots,
        program,
        takes,
    })
}
