// The texts of a command, as they are read and as they are understood.
ghost use Rattle.std.specs.Prelude.{◌≡◌, ◌≤◌, Some, IfOk};
ghost use Rattle.gs_disk.specs.Folder.{Same};
ghost use Rattle.gs_disk.specs.Moments.{Passes};
ghost use Rattle.gs_types.specs.Name.{IsName};
ghost use Rattle.gs_run.specs.Judging.{IsFileOf, TextEnds, InterfaceOf, TreeOf, BothOf, JudgedOnly};
ghost use Rattle.gs_run.specs.Showing.{ShortEnds, ShortTold};
ghost use Rattle.gs_run.specs.declared.refusal.Refusal.TheVariants.{NoText, BadText};

use crate::kinds::TextKind;
use crate::refusal::Refusal;
use gs_check::{CheckErr, Checked, check};
use gs_disk::{Disk, DiskErr, DiskName, Whole, read_whole};
use gs_idl::{Idl, IdlErr};
use gs_parse::{ParseErr, parse};
use gs_tree::Tree;
use gs_types::{Blob, Name};
use std::alloc::Global;

/// The limit of a text, in bytes.
pub const TEXT_LIMIT: u64 = 65_536;

/// A text that is present: longer than the limit, or its bytes.
#[derive(Drop)]
pub(crate) enum Text {
    Long,
    Read { bytes: Blob },
}

/// Reads a text; `None` exactly where its file is absent.
pub(crate) fn read_text<D: Disk>(
    alloc: Global,
    disk: &mut D,
    name: &Name,
) -> Result<Option<Text>, Refusal>
    ensures same { D.tells → (D.state disk.new).folder ≡ (D.state disk.old).folder }
    ensures images { D.tells → Passes Same (D.state disk.old) (D.state disk.new) }
    ensures rise { (D.state disk.old).faults ≤ (D.state disk.new).faults }
    ensures ends { TextEnds (D.state disk.old).faults (D.state disk.new).faults result }
    ensures text { D.tells → IfOk result (λ t. IsFileOf ((D.state disk.old).folder name.now) t) }
    ensures named { IsName name.now }
{
    let mut bytes = Vec::new(alloc);
    match read_whole(
        alloc,
        disk,
        &DiskName::of(name.bytes()),
        TEXT_LIMIT,
        &mut bytes,
    ) {
        Ok(Whole::Absent) => Ok(None),
        Ok(Whole::TooLong { len: _ }) => Ok(Some(Text::Long)),
        Ok(Whole::Read { len: _ }) => Ok(Some(Text::Read {
            bytes: Blob::of(bytes),
        })),
        Err(DiskErr::Fault) => Err(Refusal::Disk),
        Err(DiskErr::Memory) => Err(Refusal::Memory),
    }
}

pub(crate) fn no_text(name: &Name) -> Refusal
    ensures { result ≡ NoText name.now }
{
    Refusal::NoText { name: name.copy() }
}

pub(crate) fn bad_text(name: &Name, line: u32, kind: TextKind) -> Refusal
    ensures { result ≡ BadText name.now line kind }
{
    Refusal::BadText {
        name: name.copy(),
        line,
        kind,
    }
}

/// Reads a text within the limit. `NoText` where its file is absent, `BadText` with this kind where
/// it is longer.
pub(crate) fn read_short<D: Disk>(
    alloc: Global,
    disk: &mut D,
    name: &Name,
    too_long: TextKind,
) -> Result<Blob, Refusal>
    ensures same { D.tells → (D.state disk.new).folder ≡ (D.state disk.old).folder }
    ensures images { D.tells → Passes Same (D.state disk.old) (D.state disk.new) }
    ensures rise { (D.state disk.old).faults ≤ (D.state disk.new).faults }
    ensures ends { ShortEnds (D.state disk.old).faults (D.state disk.new).faults result }
    ensures told { D.tells
        → ShortTold ((D.state disk.old).folder name.now) name.now too_long result }
    ensures named { IsName name.now }
{
    match read_text(alloc, disk, name) {
        Ok(Some(Text::Read { bytes })) => Ok(bytes),
        Ok(Some(Text::Long)) => Err(bad_text(name, 0, too_long)),
        Ok(None) => Err(no_text(name)),
        Err(stop) => Err(stop),
    }
}

fn interface_of(alloc: Global, text: &[u8], name: &Name) -> Result<Idl, Refusal>
    ensures ends { JudgedOnly result }
    ensures says { InterfaceOf (Some text.now) name.now result }
{
    match gs_idl::read(alloc, text) {
        Ok(idl) => Ok(idl),
        Err(IdlErr::At { line, kind }) => Err(bad_text(name, line, TextKind::Idl { kind })),
        Err(IdlErr::NoMemory) => Err(Refusal::Memory),
    }
}

fn tree_of(alloc: Global, text: &[u8], name: &Name) -> Result<Tree, Refusal>
    ensures ends { JudgedOnly result }
    ensures says { TreeOf (Some text.now) name.now result }
{
    match parse(alloc, text) {
        Ok(tree) => Ok(tree),
        Err(ParseErr::At { line, kind }) => Err(bad_text(name, line, TextKind::Program { kind })),
        Err(ParseErr::NoMemory) => Err(Refusal::Memory),
    }
}

/// Reads the interface and the program, and checks the program. Where one goes wrong, `BadText`
/// with the first fault.
pub(crate) fn checked(
    alloc: Global,
    idl_name: &Name,
    idl: &[u8],
    program_name: &Name,
    program: &[u8],
) -> Result<Checked, Refusal>
    ensures ends { JudgedOnly result }
    ensures says { BothOf (Some idl.now) (Some program.now) idl_name.now program_name.now result }
{
    let idl = match interface_of(alloc, idl, idl_name) {
        Ok(idl) => idl,
        Err(stop) => return Err(stop),
    };
    let tree = match tree_of(alloc, program, program_name) {
        Ok(tree) => tree,
        Err(stop) => return Err(stop),
    };
    match check(alloc, tree, idl) {
        Ok(checked) => Ok(checked),
        Err(CheckErr::At { line, kind }) => {
            Err(bad_text(program_name, line, TextKind::Check { kind }))
        }
        Err(CheckErr::NoMemory) => Err(Refusal::Memory),
    }
}
