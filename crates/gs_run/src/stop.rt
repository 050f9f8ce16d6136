// Why a call of `gs` stops.
ghost use Rattle.std.specs.Prelude.{◌≡◌, ◌≤◌, ◌++◌, OnOk, OnErr, Err, decimal, codes, ◌∷◌, []};
ghost use Rattle.gs_run.specs.Kinds.{kind_text, fault_kind_text};
ghost use Rattle.gs_run.specs.Stop.{found_text, what_text, bad_store_line};
ghost use Rattle.gs_store.specs.Names.{version_name};
ghost use Rattle.gs_types.specs.Counts.{Rises};

use crate::kinds::{TextKind, fault_kind_text, kind_text};
use gs_store::{What, version_file};
use gs_types::{FaultKind, Name, Sink, SinkFailed, Version, put_all};
use gs_verbs::BadStore;
use itoa::Buffer;

/// Why a call of `gs` stops before it is done: the words have no reading, from the word at this
/// place on; a text is absent; a text goes wrong, on a line, from 1, or as a whole, on line 0; the
/// store of the folder is of a run of other texts, or is none, or isn't used; the program met a
/// fault on a line, or its fuel ran out; a task failed too often, or each worker that takes it; the
/// store's results may not be in the user's files yet; no run has ended; the disk failed; the output
/// failed; memory was wanting.
#[derive(Drop)]
pub enum Stop {
    Usage {
        word: u32,
    },
    NoText {
        name: Name,
    },
    BadText {
        name: Name,
        line: u32,
        kind: TextKind,
    },
    OtherRun {
        what: What,
    },
    BadStore {
        bad: BadStore,
    },
    Fault {
        line: u32,
        kind: FaultKind,
    },
    FuelOut {
        fuel: u64,
    },
    TaskLost {
        n: u32,
    },
    WorkersLost {
        n: u32,
    },
    Gated,
    NoRun,
    Disk,
    Sink,
    Memory,
}

impl Stop {
    ghost use Rattle.gs_run.specs.Stop.{status_of, line_of};

    /// The exit status.
    pub(crate) fn status(&self) -> u8
        ensures { result ≡ status_of (Err self.now) }
    {
        match self {
            Stop::Usage { word: _ } => 2,
            Stop::NoText { name: _ } => 3,
            Stop::BadText {
                name: _,
                line: _,
                kind: _,
            } => 4,
            Stop::Fault { line: _, kind: _ } => 7,
            Stop::FuelOut { fuel: _ } => 8,
            Stop::OtherRun { what: _ } => 5,
            Stop::BadStore { bad: _ } => 6,
            Stop::TaskLost { n: _ } => 9,
            Stop::WorkersLost { n: _ } => 9,
            Stop::Disk => 10,
            Stop::Sink => 11,
            Stop::Memory => 12,
            Stop::Gated => 13,
            Stop::NoRun => 15,
        }
    }

    /// Writes the line of this stop. It takes no memory.
    pub(crate) fn tell<E: Sink>(&self, err: &mut E) -> Result<(), SinkFailed>
        ensures all { E.tells
            → OnOk result (E.written err.new ≡ E.written err.old ++ line_of self.now) }
        ensures rise { E.faults err.old ≤ E.faults err.new }
        ensures cause { OnErr result (Rises (E.faults err.old) (E.faults err.new)) }
    {
        let mut buffer = Buffer::new();
        match self {
            Stop::Usage { word } => tell_parts(
                err,
                b"gs: usage: word ",
                buffer.format(*word).as_bytes(),
                b"\n",
            ),
            Stop::NoText { name } => tell_parts(err, b"gs: no text: ", name.bytes(), b"\n"),
            Stop::BadText { name, line, kind } => tell_bad_text(err, name, *line, *kind),
            Stop::Fault { line, kind } => tell_fault(err, *line, *kind),
            Stop::FuelOut { fuel } => tell_parts(
                err,
                b"gs: fuel out: ",
                buffer.format(*fuel).as_bytes(),
                b"\n",
            ),
            Stop::TaskLost { n } => tell_parts(
                err,
                b"gs: task lost: ",
                buffer.format(*n).as_bytes(),
                b"\n",
            ),
            Stop::WorkersLost { n } => tell_parts(
                err,
                b"gs: workers lost: ",
                buffer.format(*n).as_bytes(),
                b"\n",
            ),
            Stop::OtherRun { what } => tell_parts(err, b"gs: other run: ", what_text(*what), b"\n"),
            Stop::BadStore { bad } => tell_bad_store(err, bad),
            Stop::Gated => put_all(err, b"gs: gated\n"),
            Stop::NoRun => put_all(err, b"gs: no run\n"),
            Stop::Disk => put_all(err, b"gs: disk fault\n"),
            Stop::Sink => put_all(err, b"gs: sink fault\n"),
            Stop::Memory => put_all(err, b"gs: no memory\n"),
        }
    }
}

fn what_text(what: What) -> &'static [u8]
    ensures { result.now ≡ what_text what }
{
    match what {
        What::IdlName => b"idl name",
        What::IdlText => b"idl text",
        What::ProgramName => b"program name",
        What::ProgramText => b"program text",
    }
}

fn tell_parts<E: Sink>(
    err: &mut E,
    front: &[u8],
    middle: &[u8],
    back: &[u8],
) -> Result<(), SinkFailed>
    ensures all { E.tells → OnOk result (E.written err.new
        ≡ E.written err.old ++ (front.now ++ (middle.now ++ back.now))) }
    ensures rise { E.faults err.old ≤ E.faults err.new }
    ensures cause { OnErr result (Rises (E.faults err.old) (E.faults err.new)) }
{
    put_all(err, front)?;
    put_all(err, middle)?;
    put_all(err, back)?;
    Ok(())
}

fn tell_bad_text<E: Sink>(
    err: &mut E,
    name: &Name,
    line: u32,
    kind: TextKind,
) -> Result<(), SinkFailed>
    ensures all { E.tells → OnOk result (E.written err.new ≡ E.written err.old
        ++ (codes "gs: bad text: " ++ (name.now ++ (codes ":" ++ (decimal line
        ++ (codes ": " ++ (kind_text kind ++ 10 ∷ []))))))) }
    ensures rise { E.faults err.old ≤ E.faults err.new }
    ensures cause { OnErr result (Rises (E.faults err.old) (E.faults err.new)) }
{
    let mut buffer = Buffer::new();
    tell_parts(err, b"gs: bad text: ", name.bytes(), b":")?;
    tell_parts(err, buffer.format(line).as_bytes(), b": ", kind_text(kind))?;
    put_all(err, b"\n")
}

fn tell_fault<E: Sink>(err: &mut E, line: u32, kind: FaultKind) -> Result<(), SinkFailed>
    ensures all { E.tells → OnOk result (E.written err.new ≡ E.written err.old
        ++ (codes "gs: program fault: line " ++ (decimal line ++ (codes ": "
        ++ (fault_kind_text kind ++ 10 ∷ []))))) }
    ensures rise { E.faults err.old ≤ E.faults err.new }
    ensures cause { OnErr result (Rises (E.faults err.old) (E.faults err.new)) }
{
    let mut buffer = Buffer::new();
    put_all(err, b"gs: program fault: line ")?;
    tell_parts(
        err,
        buffer.format(line).as_bytes(),
        b": ",
        fault_kind_text(kind),
    )?;
    put_all(err, b"\n")
}

fn tell_found<E: Sink>(err: &mut E, found: Option<u64>) -> Result<(), SinkFailed>
    ensures all { E.tells → OnOk result (E.written err.new
        ≡ E.written err.old ++ (codes " found " ++ (found_text found ++ 10 ∷ []))) }
    ensures rise { E.faults err.old ≤ E.faults err.new }
    ensures cause { OnErr result (Rises (E.faults err.old) (E.faults err.new)) }
{
    let mut buffer = Buffer::new();
    match found {
        None => tell_parts(err, b" found ", b"none", b"\n"),
        Some(len) => tell_parts(err, b" found ", buffer.format(len).as_bytes(), b"\n"),
    }
}

fn tell_lost<E: Sink>(
    err: &mut E,
    version: &Version,
    kept: u64,
    found: Option<u64>,
) -> Result<(), SinkFailed>
    ensures all { E.tells → OnOk result (E.written err.new ≡ E.written err.old
        ++ (codes "gs: bad store: file " ++ (version_name version.now ++ (codes " kept "
        ++ (decimal kept ++ (codes " found " ++ (found_text found ++ 10 ∷ []))))))) }
    ensures rise { E.faults err.old ≤ E.faults err.new }
    ensures cause { OnErr result (Rises (E.faults err.old) (E.faults err.new)) }
{
    let mut buffer = Buffer::new();
    let name = version_file(version);
    tell_parts(err, b"gs: bad store: file ", name.bytes(), b" kept ")?;
    put_all(err, buffer.format(kept).as_bytes())?;
    tell_found(err, found)
}

fn tell_bad_store<E: Sink>(err: &mut E, bad: &BadStore) -> Result<(), SinkFailed>
    ensures all { E.tells → OnOk result (E.written err.new
        ≡ E.written err.old ++ bad_store_line bad.now) }
    ensures rise { E.faults err.old ≤ E.faults err.new }
    ensures cause { OnErr result (Rises (E.faults err.old) (E.faults err.new)) }
{
    let mut buffer = Buffer::new();
    match bad {
        BadStore::Log { at } => tell_parts(
            err,
            b"gs: bad store: log at ",
            buffer.format(*at).as_bytes(),
            b"\n",
        ),
        BadStore::Record { index } => tell_parts(
            err,
            b"gs: bad store: record ",
            buffer.format(*index).as_bytes(),
            b"\n",
        ),
        BadStore::Lost {
            version,
            kept,
            found,
        } => tell_lost(err, version, *kept, *found),
    }
}
