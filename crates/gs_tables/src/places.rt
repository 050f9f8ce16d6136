// The places of a call.
ghost use Rattle.std.specs.Prelude.{◌≡◌, ◌∷◌, ◌++◌, [], ◌≤◌, ◌<◌, ◌+◌, ℕ, List, length, min, IfOk, OnOk};
ghost use Rattle.gs_idl.specs.Interface.{params_at};
ghost use Rattle.gs_names.specs.Table.{names_in, writes_in, spare_in};
ghost use Rattle.gs_names.specs.Writes.{latest};
ghost use Rattle.gs_looks.specs.Judgement.{read_with, read_at_with};
ghost use Rattle.gs_talk.specs.Actions.{names_where};
ghost use Rattle.gs_talk_laws.specs.Versions.{written_by};
ghost use Rattle.gs_tables.specs.Marks.{with_names, takes, file_test, AreNumbers, writes_at, names_one};
ghost use Rattle.gs_tables.specs.Written.{written_back, written_one};

use gs_idl::{Dir, Idl, ParamKind};
use gs_looks::reads_at;
use gs_names::NameTable;
use gs_talk::CallArg;
use gs_types::{Name, NoMemory, Sequence, Version};
use std::alloc::Global;

/// How many of the places the operation has.
pub(crate) fn place_count(idl: &Idl, op: u8, args: &[CallArg]) -> usize
    ensures count { result ≡ min (length args.now) (length (params_at idl.now.ops op)) }
    ensures few { result < 256 }
{
    let count = if op < idl.op_count() {
        idl.param_count(op) as usize
    } else {
        0
    };
    args.len().min(count)
}

/// Whether the operation leaves a file at a place, from 0.
pub(crate) fn writes_at(idl: &Idl, op: u8, i: usize) -> bool
    ensures { result ≡ writes_at (params_at idl.now.ops op) i }
{
    if op >= idl.op_count() || i >= idl.param_count(op) as usize {
        return false;
    }
    let (dir, kind) = idl.param(op, i as u8);
    dir != Dir::Input && kind == ParamKind::File
}

// The version that is read at a place.
fn read_at(table: &NameTable, reads: bool, a: &CallArg) -> Option<Version>
    ensures { result ≡ read_at_with (λ x. latest x (writes_in table.now)) reads a.now }
{
    match a {
        CallArg::File { name } => {
            if reads {
                return Some(table.current(name));
            }
            None
        }
        _ => None,
    }
}

/// The version that a call reads at each place.
pub(crate) fn reads_of(
    alloc: Global,
    table: &NameTable,
    idl: &Idl,
    op: u8,
    args: &[CallArg],
) -> Result<Sequence<Option<Version>>, NoMemory>
    ensures { IfOk result (λ vs. vs ≡ read_with (λ x. latest x (writes_in table.now))
        (params_at idl.now.ops op) args.now) }
{
    let mut reads = Sequence::new(alloc);
    for i in 0..place_count(idl, op, args) {
        reads.push(read_at(table, reads_at(idl, op, i), &args[i]))?;
    }
    Ok(reads)
}

// Whether a file is taken at a place: one that is read, or one that is left.
fn takes_at(idl: &Idl, op: u8, i: usize, reads: bool) -> bool
    ensures { result ≡ takes reads (params_at idl.now.ops op) i }
{
    if reads {
        return reads_at(idl, op, i);
    }
    writes_at(idl, op, i)
}

/// The name's number.
pub(crate) fn number(table: &mut NameTable, name: &Name) -> Result<u32, NoMemory>
    ensures names { OnOk result (names_in table.new ≡ with_names (names_in table.old)
        (name.now ∷ [])) }
    ensures number { IfOk result (λ i. AreNumbers (names_in table.new) (i ∷ []) (name.now ∷ [])) }
    ensures writes { writes_in table.new ≡ writes_in table.old }
    ensures spare { spare_in table.new ≡ spare_in table.old }
{
    if table.count() == u32::MAX {
        return Err(NoMemory);
    }
    table.number(name.copy())
}

// Numbers the name at a place, where one is taken.
fn number_one(
    table: &mut NameTable,
    numbers: &mut Sequence<u32>,
    taken: bool,
    a: &CallArg,
) -> Result<(), NoMemory>
    ensures names { OnOk result (names_in table.new ≡ with_names (names_in table.old)
        (names_one taken a.now)) }
    ensures numbers { (names : List (List ℕ)) → AreNumbers (names_in table.old) numbers.old names →
        OnOk result (AreNumbers (names_in table.new) numbers.new (names ++ names_one taken a.now)) }
    ensures writes { writes_in table.new ≡ writes_in table.old }
    ensures spare { spare_in table.new ≡ spare_in table.old }
{
    match a {
        CallArg::File { name } => {
            if taken {
                let i = number(table, name)?;
                numbers.push(i)?;
            }
            Ok(())
        }
        _ => Ok(()),
    }
}

/// The numbers of the names that a call reads, or of those that it leaves, in the order of the
/// places. New names go behind the others.
pub(crate) fn number_all(
    alloc: Global,
    table: &mut NameTable,
    idl: &Idl,
    op: u8,
    args: &[CallArg],
    reads: bool,
) -> Result<Sequence<u32>, NoMemory>
    ensures names { OnOk result (names_in table.new ≡ with_names (names_in table.old)
        (names_where (file_test reads) (params_at idl.now.ops op) args.now)) }
    ensures numbers { IfOk result (λ is. AreNumbers (names_in table.new) is
        (names_where (file_test reads) (params_at idl.now.ops op) args.now)) }
    ensures writes { writes_in table.new ≡ writes_in table.old }
    ensures spare { spare_in table.new ≡ spare_in table.old }
{
    let mut numbers = Sequence::new(alloc);
    for i in 0..place_count(idl, op, args) {
        number_one(table, &mut numbers, takes_at(idl, op, i, reads), &args[i])?;
    }
    Ok(numbers)
}

// Task `n` leaves the file at a place, from 1.
fn write_one(table: &mut NameTable, n: u32, place: u8, writes: bool, a: &CallArg)
    requires { 0 < spare_in table.old }
    ensures writes { writes_in table.new ≡ written_one n place writes a.now (writes_in table.old) }
    ensures names { names_in table.new ≡ names_in table.old }
    ensures spare { spare_in table.old ≤ spare_in table.new + 1 }
{
    match a {
        CallArg::File { name } => {
            if writes {
                table.write(name, Version::Out { n, place });
            }
        }
        _ => {}
    }
}

/// Task `n` leaves the files of a call.
pub(crate) fn write_all(
    table: &mut NameTable,
    idl: &Idl,
    op: u8,
    args: &[CallArg],
    n: u32,
) -> Result<(), NoMemory>
    ensures writes { OnOk result (writes_in table.new ≡ written_back
        (written_by n 1 (params_at idl.now.ops op) args.now) (writes_in table.old)) }
    ensures names { names_in table.new ≡ names_in table.old }
{
    let count = place_count(idl, op, args);
    table.reserve(count as u32)?;
    for i in 0..count {
        write_one(table, n, i as u8 + 1, writes_at(idl, op, i), &args[i]);
    }
    Ok(())
}
