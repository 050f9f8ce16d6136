// What has a spelling.
ghost use Rattle.std.specs.Prelude.{◌≡◌, ◌<◌, ◌^◌, IfOk};
ghost use Rattle.gs_fields.specs.Format.{all_fit, counted, four};
ghost use Rattle.gs_entries.specs.Notes.{task, place, operation, file_len, up_to};
ghost use Rattle.gs_entries.specs.Actions.{files};
ghost use Rattle.gs_entries.specs.Gate.{printed, gate_fields};
ghost use Rattle.gs_entries.specs.Entries.{entry};
ghost use Rattle.gs_entries.specs.declared.entry.Entry.TheVariants as made;

use crate::entry::GateNote;
use crate::gate::is_gate;
use crate::notes::is_identifier;
use crate::spelled::Spelled;
use gs_types::{
    ACTION_LIMIT, Action, Blob, FILE_LIMIT, FinalNote, NAME_LIMIT, Name, NoMemory, Note,
    OPERATION_LIMIT, PARAMETER_LIMIT, PRINTED_LIMIT, Sequence, TASK_LIMIT, VARIABLE_LIMIT, VarNote,
    Version,
};
use std::alloc::Global;

/// What tells whether it has a spelling.
pub trait Fitting: Spelled {
    /// It has a spelling: it is within the limits of its format.
    fn fits(&self) -> bool
        ensures { result ≡ Self.format.fits self.now };
}

/// All of these have a spelling.
fn all_fit<T: Fitting>(items: &[T]) -> bool
    ensures { result ≡ all_fit T.format items.now }
{
    for item in items {
        if !item.fits() {
            return false;
        }
    }
    true
}

/// There are at most `limit` of these, and all of them have a spelling.
fn list_fits<T: Fitting>(items: &Sequence<T>, limit: usize) -> bool
    requires { limit < 2 ^ 32 }
    ensures { result ≡ (counted (up_to limit four) T.format).fits items.now }
{
    items.len() <= limit && all_fit(items.items())
}

fn is_task(n: u32) -> bool
    ensures { result ≡ task.fits n }
{
    n >= 1 && n as usize <= TASK_LIMIT
}

fn is_place(k: u8) -> bool
    ensures { result ≡ place.fits k }
{
    k >= 1 && k as usize <= PARAMETER_LIMIT
}

fn is_operation(op: u8) -> bool
    ensures { result ≡ operation.fits op }
{
    (op as usize) < OPERATION_LIMIT
}

fn is_len(len: u64) -> bool
    ensures { result ≡ file_len.fits len }
{
    len <= FILE_LIMIT as u64
}

fn are_files(names: &Sequence<u32>) -> bool
    ensures { result ≡ files.fits names.now }
{
    names.len() <= PARAMETER_LIMIT && all_fit(names.items())
}

impl Fitting for u32 {
    fn fits(&self) -> bool {
        let _value = *self;
        true
    }
}

impl Fitting for Name {
    fn fits(&self) -> bool {
        let _bytes = self.bytes();
        true
    }
}

impl Fitting for Note {
    fn fits(&self) -> bool {
        match self {
            Note::File { len } => is_len(*len),
            Note::Int { v } => {
                let _value = *v;
                true
            }
            Note::Str { s } => {
                let _bytes = s.bytes();
                true
            }
        }
    }
}

impl Fitting for VarNote {
    fn fits(&self) -> bool {
        is_identifier(self.name.bytes()) && !matches!(self.v, Note::File { .. }) && self.v.fits()
    }
}

impl Fitting for Version {
    fn fits(&self) -> bool {
        match self {
            Version::Original { .. } => false,
            Version::Out { n, place } => is_task(*n) && is_place(*place),
            Version::Main { k } => *k >= 1 && *k as usize <= ACTION_LIMIT,
        }
    }
}

impl Fitting for FinalNote {
    fn fits(&self) -> bool {
        let _name = self.name;
        self.version.fits() && is_len(self.len)
    }
}

impl Fitting for Action {
    fn fits(&self) -> bool {
        match self {
            Action::Call {
                n,
                op,
                reads,
                writes,
            } => is_task(*n) && is_operation(*op) && are_files(reads) && are_files(writes),
            Action::Use { n, place } => is_task(*n) && is_place(*place),
            Action::Result { n } => is_task(*n),
            Action::Read { name } | Action::Write { name } => {
                let _name = *name;
                true
            }
            Action::Barrier | Action::End => true,
        }
    }
}

/// What a run printed is no longer than it may be.
fn is_printed(text: &Blob) -> bool
    ensures { result ≡ printed.fits text.now }
{
    text.bytes().len() <= PRINTED_LIMIT
}

/// Each part of the note is within its limits.
fn parts_fit(g: &GateNote) -> bool
    ensures { result ≡ gate_fields.fits g.now }
{
    list_fits(&g.names, NAME_LIMIT)
        && list_fits(&g.finals, NAME_LIMIT)
        && is_printed(&g.text)
        && list_fits(&g.vars, VARIABLE_LIMIT)
        && list_fits(&g.actions, ACTION_LIMIT + 1)
}

/// Whether the entry that a gate is made of this note is within the limits, so that it has a
/// spelling.
#[tactic(auto, unfolding(crate::specs::Entries::entry))]
pub fn is_gate_entry(alloc: Global, g: &GateNote) -> Result<bool, NoMemory>
    ensures { IfOk result (λ b. b ≡ entry.fits (made.Gate g.now)) }
{
    if !parts_fit(g) {
        return Ok(false);
    }
    is_gate(alloc, g)
}
