// Assignments and prints.
use crate::waits::Pause;
use crate::work::Work;
use gs_pieces::{append, opened_at, writes};
use gs_talk::{Formula, format_bytes};
use gs_types::{Blob, FILE_LIMIT, FaultKind, PRINTED_LIMIT, Text, TextErr, Value};

impl Work {
    ghost use Rattle.std.specs.Prelude.{[], true, false};
    ghost use Rattle.gs_talk.specs.View.{placed_of, all_placed_of};
    ghost use Rattle.gs_talk.specs.Talk.{printing, printing_str};
    ghost use Rattle.gs_main.specs.Meanings.{assigning, showing, showing_to, showing_in, writing_at};
    ghost use Rattle.gs_main.specs.Seen.{Does};

    pub(crate) fn assign(&mut self, line: u32, to: usize, value: &Formula) -> Result<(), Pause>
        ensures { Does true false (assigning line to (placed_of value.now)) line []
            self.old result self.new }
    {
        let v = match self.value(line, value) {
            Ok(v) => v,
            Err(pause) => return Err(pause),
        };
        self.put(to, v);
        Ok(())
    }

    /// Puts these bytes behind the text, within its limit.
    fn show_bytes(&mut self, line: u32, out: &[u8]) -> Result<(), Pause>
        ensures { Does false false (printing line out.now) line [] self.old result self.new }
    {
        if self.text.len().saturating_add(out.len()) > PRINTED_LIMIT {
            return Err(self.fault(line, FaultKind::TextTooLong));
        }
        match self.text.extend_from_slice(out) {
            Ok(_) => Ok(()),
            Err(_) => Err(Pause::NoMemory),
        }
    }

    pub(crate) fn show(&mut self, line: u32, format: &Blob, args: &[Formula]) -> Result<(), Pause>
        ensures { Does true false (showing line format.now (all_placed_of args.now)) line []
            self.old result self.new }
    {
        let vs = match self.values(line, args) {
            Ok(vs) => vs,
            Err(pause) => return Err(pause),
        };
        let out = match format_bytes(self.alloc, format.bytes(), &vs) {
            Ok(out) => out,
            Err(_) => return Err(Pause::NoMemory),
        };
        self.show_bytes(line, &out)
    }

    // A variable is set to a string of these bytes, within its limit.
    fn put_bytes(&mut self, line: u32, to: usize, out: &[u8]) -> Result<(), Pause>
        ensures { Does false false (printing_str line to out.now) line [] self.old result self.new }
    {
        match Text::read(self.alloc, out) {
            Ok(s) => {
                self.put(to, Value::Str { s });
                Ok(())
            }
            Err(TextErr::Long { len: _ }) => Err(self.fault(line, FaultKind::StringTooLong)),
            Err(_) => Err(Pause::NoMemory),
        }
    }

    /// Want of memory comes also where a byte is none of a string; the reader of programs gives no
    /// such format.
    pub(crate) fn show_to(
        &mut self,
        line: u32,
        to: usize,
        format: &Blob,
        args: &[Formula],
    ) -> Result<(), Pause>
        ensures { Does true false (showing_to line to format.now (all_placed_of args.now)) line []
            self.old result self.new }
    {
        let vs = match self.values(line, args) {
            Ok(vs) => vs,
            Err(pause) => return Err(pause),
        };
        let out = match format_bytes(self.alloc, format.bytes(), &vs) {
            Ok(out) => out,
            Err(_) => return Err(Pause::NoMemory),
        };
        self.put_bytes(line, to, &out)
    }

    // Puts these bytes behind a file's content, within its limit.
    fn write_bytes(&mut self, line: u32, i: usize, out: &[u8]) -> Result<(), Pause>
        ensures { Does false false (writing_at line i out.now) line [] self.old result self.new }
    {
        match opened_at(&self.handles, i) {
            None => Err(self.fault(line, FaultKind::HandleClosed)),
            Some(h) => {
                if !writes(h.mode()) {
                    return Err(self.fault(line, FaultKind::WrongMode));
                }
                if h.len().saturating_add(out.len()) > FILE_LIMIT {
                    return Err(self.fault(line, FaultKind::FileTooLong));
                }
                match append(&mut self.handles, i, out) {
                    Ok(_) => Ok(()),
                    Err(_) => Err(Pause::NoMemory),
                }
            }
        }
    }

    pub(crate) fn show_in(
        &mut self,
        line: u32,
        i: usize,
        format: &Blob,
        args: &[Formula],
    ) -> Result<(), Pause>
        ensures { Does true false (showing_in line i format.now (all_placed_of args.now)) line []
            self.old result self.new }
    {
        let vs = match self.values(line, args) {
            Ok(vs) => vs,
            Err(pause) => return Err(pause),
        };
        let out = match format_bytes(self.alloc, format.bytes(), &vs) {
            Ok(out) => out,
            Err(_) => return Err(Pause::NoMemory),
        };
        self.write_bytes(line, i, &out)
    }
}
