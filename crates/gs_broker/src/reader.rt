// The reader of worker lists.
#![tactic(auto, unfolding(crate::specs::Listed::entries_in))]

ghost use Rattle.std.specs.Prelude.{◌≡◌, ◌+◌, ◌-◌, ◌<◌, ◌≤◌, ◌^◌, [], length, IfOk, MatchResult};
ghost use Rattle.gs_broker.specs.Text.{is_feed, AreLines, LineSays, IsLineFault, LinesSay, Says};
ghost use Rattle.gs_broker.specs.Reading.{spelled, err_at, IsStop, IsLinesStop};
ghost use Rattle.gs_broker.specs.Listed.{entries_in};
ghost use Rattle.gs_broker.specs.Answer.{IsUnread};

use crate::kind::{WorkersErr, WorkersKind};
use crate::line::{Stop, fields_of, read_worker};
use crate::words::{before_comment, may_all_stand, words_of};
use crate::workers::Workers;
use gs_idl::Idl;
use gs_types::TEXT_LIMIT;
use std::alloc::{AllocError, Global};

// The lines of a text.
fn lines_of(alloc: Global, bytes: &[u8]) -> Result<Vec<&[u8]>, AllocError>
    ensures lines { IfOk result (λ v. AreLines bytes.now (spelled v.items)) }
    ensures few { IfOk result (λ v. length v.items ≤ length bytes.now + 1) }
{
    bytes.split(|b| *b == b'\n').collect(alloc)
}

// Reads a line behind the workers of the lines before it.
fn read_line(alloc: Global, line: &[u8], idl: &Idl, workers: &mut Workers) -> Result<(), Stop>
    ensures { MatchResult result
        (λ _. LineSays idl.now.ops line.now (entries_in workers.old) (entries_in workers.new))
        (IsStop (IsLineFault idl.now.ops line.now (entries_in workers.old))) }
{
    let content = before_comment(line);
    if !may_all_stand(content) {
        return Err(Stop::Fault {
            kind: WorkersKind::BadByte,
        });
    }
    let words = words_of(alloc, content)?;
    if words.is_empty() {
        return Ok(());
    }
    let Some(fields) = fields_of(words.as_slice()) else {
        return Err(Stop::Fault {
            kind: WorkersKind::BadLine,
        });
    };
    match read_worker(alloc, &fields, idl, workers.list.as_slice()) {
        Ok(worker) => {
            workers.push(worker)?;
            Ok(())
        }
        Err(stop) => Err(stop),
    }
}

// The same as an answer of the whole reader.
fn at_line(stop: Stop, line: u32) -> WorkersErr
    ensures { result ≡ err_at stop line }
{
    match stop {
        Stop::Fault { kind } => WorkersErr::At { line, kind },
        Stop::Memory => WorkersErr::NoMemory,
    }
}

// Reads the lines, of which there are few enough, behind no worker.
fn read_lines(
    alloc: Global,
    lines: &[&[u8]],
    idl: &Idl,
    workers: &mut Workers,
) -> Result<(), WorkersErr>
    requires none { entries_in workers.old ≡ [] }
    requires few { length lines.now < 2 ^ 32 - 1 }
    ensures { MatchResult result
        (λ _. LinesSay idl.now.ops (spelled lines.now) [] (entries_in workers.new))
        (IsLinesStop idl.now.ops (spelled lines.now)) }
{
    for (place, line) in lines.iter().enumerate() {
        match read_line(alloc, line, idl, workers) {
            Ok(()) => {}
            Err(stop) => return Err(at_line(stop, place as u32 + 1)),
        }
    }
    Ok(())
}

impl Workers {
    /// Reads a worker list, of at most 65,536 bytes, with the operations of an interface. Each line
    /// is empty or `NAME SLOTS PROGRAM OP ..`, or `NAME SLOTS PROGRAM *` for each operation; a `#`
    /// begins a comment. On a fault the answer is its line and kind, exactly where the text says
    /// no list; line 0 for `TooLong` and `Empty`.
    pub fn read(alloc: Global, bytes: &[u8], idl: &Idl) -> Result<Workers, WorkersErr>
        ensures { MatchResult result
            (λ ws. Says idl.now.ops bytes.now (entries_in ws))
            (IsUnread idl.now.ops bytes.now) }
    {
        if bytes.len() > TEXT_LIMIT {
            return Err(WorkersErr::At {
                line: 0,
                kind: WorkersKind::TooLong,
            });
        }
        let lines = lines_of(alloc, bytes)?;
        let mut workers = Workers::empty(alloc);
        if let Err(e) = read_lines(alloc, lines.as_slice(), idl, &mut workers) {
            return Err(e);
        }
        if workers.count() == 0 {
            return Err(WorkersErr::At {
                line: 0,
                kind: WorkersKind::Empty,
            });
        }
        Ok(workers)
    }
}
