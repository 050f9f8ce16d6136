// What stands against a call.
ghost use Rattle.std.specs.Prelude.{◌≡◌, ◌<◌, ℕ, List, length, slice_get};
ghost use Rattle.gs_idl.specs.Interface.{params_at};
ghost use Rattle.gs_names.specs.Table.{writes_in};
ghost use Rattle.gs_names.specs.Writes.{latest};
ghost use Rattle.gs_talk.specs.Seq.{Files, World};
ghost use Rattle.gs_history.specs.Refusals.{refused_versions};
ghost use Rattle.gs_looks.specs.Looked.{looks_in, AreSeen};
ghost use Rattle.gs_looks.specs.Judgement.{AreLengths, IsJudged, IsUnseen, judged_main, judged_version, judged_place, judged_call, reads_at, read_with};

use crate::look::{Looks, Seen};
use gs_idl::{Dir, Idl, ParamKind};
use gs_names::NameTable;
use gs_talk::CallArg;
use gs_types::{FILE_LIMIT, Name, Version};

/// What stands against a call: nothing, or first a file of the user's that wasn't looked at, or one
/// that is absent or too long.
#[derive(Drop)]
pub enum Judged {
    Fine,
    Unseen { name: Name },
    Absent,
    TooLong,
}

// A content of the program, by its number from 1.
fn judge_main(mains: &[u64], k: u32) -> Judged
    ensures { result ≡ judged_main mains.now k }
{
    if k == 0 || k as usize > mains.len() {
        return Judged::Absent;
    }
    if mains[k as usize - 1] > FILE_LIMIT as u64 {
        return Judged::TooLong;
    }
    Judged::Fine
}

fn judge_version(looks: &Looks, mains: &[u64], v: Version) -> Judged
    ensures { result ≡ judged_version (looks_in looks.now) mains.now v }
{
    match v {
        Version::Original { name } => match looks.seen(&name) {
            None => Judged::Unseen { name },
            Some(Seen::Absent) => Judged::Absent,
            Some(Seen::TooLong) => Judged::TooLong,
            Some(Seen::Len { len: _ }) => Judged::Fine,
        },
        Version::Out { n: _, place: _ } => Judged::Fine,
        Version::Main { k } => judge_main(mains, k),
    }
}

/// Whether the operation reads a file at a place, from 0. There is none past the operations, or past
/// its parameters.
pub fn reads_at(idl: &Idl, op: u8, i: usize) -> bool
    ensures { result ≡ reads_at (params_at idl.now.ops op) i }
{
    if op >= idl.op_count() || i >= idl.param_count(op) as usize {
        return false;
    }
    let (dir, kind) = idl.param(op, i as u8);
    dir != Dir::Output && kind == ParamKind::File
}

fn judge_place(table: &NameTable, looks: &Looks, mains: &[u64], reads: bool, a: &CallArg) -> Judged
    ensures { result ≡ judged_place (λ x. latest x (writes_in table.now)) (looks_in looks.now)
        mains.now reads a.now }
{
    match a {
        CallArg::File { name } => {
            if reads {
                return judge_version(looks, mains, table.current(name));
            }
            Judged::Fine
        }
        _ => Judged::Fine,
    }
}

/// What stands against a call of an operation: of the files that it reads, from the left, each whose
/// current version is an original is looked for among the looks, and each that the program closed
/// among the lengths of its contents, in bytes and in the order of closing. What a task leaves stands
/// against no call.
pub fn judge(
    table: &NameTable,
    looks: &Looks,
    mains: &[u64],
    idl: &Idl,
    op: u8,
    args: &[CallArg],
) -> Judged
    // Where the looks and the lengths are right, it is what the sequential run answers.
    ensures answers { (first : Files) (w : World) → AreSeen (looks_in looks.now) first →
        AreLengths mains.now w.closed → IsJudged result (refused_versions first w
        (read_with (λ x. latest x (writes_in table.now)) (params_at idl.now.ops op) args.now)) }

    // It is the first, from the left, that stands against the call.
    ensures first { result ≡ judged_call (looks_in looks.now) mains.now (read_with
        (λ x. latest x (writes_in table.now)) (params_at idl.now.ops op) args.now) }

    // A file that is named is read as an original, and wasn't looked at.
    ensures unseen { IsUnseen (looks_in looks.now) (read_with
        (λ x. latest x (writes_in table.now)) (params_at idl.now.ops op) args.now) result }
{
    judge_all(table, looks, mains, idl, op, args)
}

fn judge_all(
    table: &NameTable,
    looks: &Looks,
    mains: &[u64],
    idl: &Idl,
    op: u8,
    args: &[CallArg],
) -> Judged
    ensures { result ≡ judged_call (looks_in looks.now) mains.now (read_with
        (λ x. latest x (writes_in table.now)) (params_at idl.now.ops op) args.now) }
{
    for i in 0..args.len() {
        match judge_place(table, looks, mains, reads_at(idl, op, i), &args[i]) {
            Judged::Fine => {}
            other => return other,
        }
    }
    Judged::Fine
}
