// What stands at the places of a call.
ghost use Rattle.std.specs.Prelude.{◌≡◌, ◌≤◌, ◌<◌, ◌++◌, length, map, vec_len, IfOk, OnOk};
ghost use Rattle.std.specs.List.{list_any};
ghost use Rattle.std.specs.Str.{bytes_eq};
ghost use Rattle.gs_idl.specs.Interface.{Param, params_at, writes_file};
ghost use Rattle.gs_talk.specs.Passed.{passed_values};
ghost use Rattle.gs_talk.specs.Talk.{has_twice, file_at, written_in, files_in, with_name, with_names, pended};
ghost use Rattle.gs_orders.specs.Steps.{handed_of};
ghost use Rattle.gs_pieces.specs.Places.{AreFew, Noted, FindsOne, FindsPassed, passed_value, written_first, with_file, pended_one};

use gs_idl::{Dir, Idl, ParamKind};
use gs_orders::Handed;
use gs_talk::{CallArg, Slot, Trouble, value};
use gs_types::{NAME_LIMIT, Name, NoMemory, Value};
use indexmap::IndexSet;
use std::alloc::Global;

/// What stands at a place of a call: a value for a place of this kind, or a variable that is to be
/// set.
#[derive(Drop)]
pub enum Passed {
    Given { kind: ParamKind, v: Value },
    Out { kind: ParamKind },
}

/// The number of an operation's places; none where there is no such operation.
fn place_count(idl: &Idl, op: u8) -> usize
    ensures count { result ≡ length (params_at idl.now.ops op) }
    ensures few { result < 256 }
{
    if op < idl.op_count() {
        idl.param_count(op) as usize
    } else {
        0
    }
}

/// The operation leaves a file at a place of this direction and kind.
pub fn leaves_file(dir: Dir, kind: ParamKind) -> bool
    ensures { (p : Param) → p.dir ≡ dir → p.kind ≡ kind → result ≡ writes_file p }
{
    let leaves = match dir {
        Dir::Input => false,
        Dir::Both => true,
        Dir::Output => true,
    };
    let file = match kind {
        ParamKind::File => true,
        ParamKind::Int => false,
        ParamKind::Str => false,
    };
    leaves && file
}

// What stands at one place, or the trouble.
fn passed_one(alloc: Global, kind: ParamKind, a: &Handed, vars: &[Slot]) -> Result<Passed, Trouble>
    ensures { FindsOne (passed_value kind (handed_of a.now) vars.now) result }
{
    match a {
        Handed::Into { i: _ } => Ok(Passed::Out { kind }),
        Handed::ByValue { value: e } => {
            let v = value(alloc, e, vars)?;
            Ok(Passed::Given { kind, v })
        }
    }
}

/// What stands at the places, from the left; or the first trouble, which may be want of memory.
pub fn passed_all(
    alloc: Global,
    idl: &Idl,
    op: u8,
    args: &[Handed],
    vars: &[Slot],
) -> Result<Vec<Passed>, Trouble>
    ensures finds { FindsPassed
        (passed_values (params_at idl.now.ops op) (map handed_of args.now) vars.now) result }
    ensures few { IfOk result (λ all. AreFew (vec_len all) (params_at idl.now.ops op)) }
{
    let mut all = Vec::new(alloc);
    for j in 0..args.len().min(place_count(idl, op)) {
        let (_, kind) = idl.param(op, j as u8);
        match passed_one(alloc, kind, &args[j], vars) {
            Ok(one) => all.push(one)?,
            Err(e) => return Err(e),
        }
    }
    Ok(all)
}

// The file at a place, where the operation leaves it there.
fn push_written(names: &mut Vec<Name>, leaves: bool, a: &CallArg) -> Result<(), NoMemory>
    ensures { OnOk result (names.new.items
        ≡ names.old.items ++ written_first leaves (file_at a.now)) }
{
    if leaves {
        if let CallArg::File { name } = a {
            names.push(name.copy())?;
        }
    }
    Ok(())
}

/// The files at the places where the operation leaves one. The only error is want of memory.
pub fn written(alloc: Global, idl: &Idl, op: u8, args: &[CallArg]) -> Result<Vec<Name>, NoMemory>
    requires { length args.now ≤ length (params_at idl.now.ops op) }
    ensures { IfOk result (λ names.
        names.items ≡ written_in (params_at idl.now.ops op) args.now) }
{
    let mut names = Vec::new(alloc);
    let count = place_count(idl, op);
    for j in 0..args.len().min(count) {
        let (dir, kind) = idl.param(op, j as u8);
        push_written(&mut names, leaves_file(dir, kind), &args[j])?;
    }
    Ok(names)
}

fn is_among(names: &[Name], name: &Name) -> bool
    ensures { result ≡ list_any (bytes_eq name.now) names.now }
{
    names.iter().any(|other| *name == *other)
}

/// A name stands there twice.
pub fn has_twice(names: &[Name]) -> bool
    ensures { result ≡ has_twice names.now }
{
    for (i, name) in names.iter().enumerate() {
        if is_among(&names[i + 1..], name) {
            return true;
        }
    }
    false
}

/// Puts a name among the names, where it is new. The only error is want of memory.
pub fn note(names: &mut IndexSet<Name>, name: Name) -> Result<(), NoMemory>
    ensures { OnOk result (names.new.keys ≡ with_name names.old.keys name) }
{
    match names.insert(name) {
        Ok(_) => Ok(()),
        Err(_) => Err(NoMemory),
    }
}

fn note_file(names: &mut IndexSet<Name>, a: &CallArg) -> Result<(), NoMemory>
    ensures { OnOk result (names.new.keys ≡ with_file names.old.keys (file_at a.now)) }
{
    match a {
        CallArg::File { name } => note(names, name.copy()),
        _ => Ok(()),
    }
}

/// Puts the files of a call among the names.
fn note_files(names: &mut IndexSet<Name>, args: &[CallArg]) -> Result<(), NoMemory>
    ensures { OnOk result (names.new.keys ≡ with_names names.old.keys (files_in args.now)) }
{
    for j in 0..args.len() {
        note_file(names, &args[j])?;
    }
    Ok(())
}

/// Puts the files of a call among the names, where these are not too many then, `true`; else they
/// stay as they were, `false`. On want of memory some may have been put.
pub fn note_within(names: &mut IndexSet<Name>, args: &[CallArg]) -> Result<bool, NoMemory>
    ensures { Noted names.old.keys (files_in args.now) result names.new.keys }
{
    let count = names.len();
    note_files(names, args)?;
    if names.len() > NAME_LIMIT {
        names.truncate(count);
        return Ok(false);
    }
    Ok(true)
}

fn pend_one(vars: &mut Vec<Slot>, n: u32, place: u8, a: &Handed)
    ensures { vars.new.items ≡ pended_one n place (handed_of a.now) vars.old.items }
{
    match a {
        Handed::ByValue { value: _ } => {}
        Handed::Into { i } => {
            if *i < vars.len() {
                vars[*i] = Slot::Due { n, place };
            }
        }
    }
}

/// The variables that a call leaves values in wait for them: for task `n`, each at its place from
/// 1.
pub fn pend(vars: &mut Vec<Slot>, n: u32, args: &[Handed])
    requires { length args.now < 255 }
    ensures { vars.new.items ≡ pended n 1 (map handed_of args.now) vars.old.items }
{
    for (j, a) in args.iter().enumerate() {
        pend_one(vars, n, (j + 1) as u8, a);
    }
}
