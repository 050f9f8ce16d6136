// Files of the main program.
ghost use Rattle.std.specs.Prelude.{◌≡◌};
ghost use Rattle.gs_main.specs.Parts.{first_due};

use crate::script::Script;
use crate::waits::{Last, Pause, Waits};
use crate::work::Work;
use gs_pieces::{
    Opened, ReadErr, change, go_to, is_any_open, is_open, is_written, name_in, note, open_count,
    opened_at, writes,
};
use gs_talk::{Formula, Line, Question, Slot, TalkErr, Trouble, text_of};
use gs_tree::Mode;
use gs_types::{Blob, FaultKind, HANDLE_LIMIT, NAME_LIMIT, Name, Value};

// The first variable that waits, in the order of declaration.
fn first_due(vars: &[Slot]) -> Option<(usize, u32, u8)>
    ensures { result ≡ first_due 0 vars.now }
{
    for (i, slot) in vars.iter().enumerate() {
        if let Slot::Due { n, place } = slot {
            return Some((i, *n, *place));
        }
    }
    None
}

impl Work {
    ghost use Rattle.std.specs.Prelude.{◌≡◌, [], true, false, Some, Err};
    ghost use Rattle.gs_talk.specs.Talk as talk;
    ghost use Rattle.gs_talk.specs.View.{placed_of};
    ghost use Rattle.gs_main.specs.Meanings.{loading, loading_named, fetching, saving, pausing, leaving_all};
    ghost use Rattle.gs_main.specs.Seen.{given_of, state_of, Does, Leaves};
    ghost use Rattle.gs_main.specs.Parts.{Opens, NextLine, names_fault};

    // The name, or what stands against opening a file, in this order; but for the number of names.
    fn open_name(
        &self,
        script: &Script,
        to: usize,
        text: &[u8],
        mode: Mode,
    ) -> Result<Name, FaultKind>
        ensures { Opens (talk.open_fault (given_of script.now) (state_of self.now) to text.now mode)
            (names_fault (state_of self.now) text.now) text.now result }
    {
        if is_open(&self.handles, to) {
            return Err(FaultKind::HandleOpen);
        }
        let name = match name_in(text) {
            Some(name) => name,
            None => return Err(FaultKind::BadName),
        };
        if script.writes_own(mode, &name) {
            return Err(FaultKind::OwnText);
        }
        if is_written(&self.handles, &name) {
            return Err(FaultKind::FileOpen);
        }
        if open_count(&self.handles) >= HANDLE_LIMIT {
            return Err(FaultKind::TooManyOpen);
        }
        Ok(name)
    }

    /// A file is open at a handle, with this content.
    pub(crate) fn show_file(&mut self, to: usize, name: Name, mode: Mode, content: Blob)
        ensures state { state_of self.new
            ≡ talk.with_handle to (Some (talk.fresh name mode content)) (state_of self.old) }
        ensures waits { self.new.waits ≡ self.old.waits }
    {
        change(
            &mut self.handles,
            to,
            Some(Opened::new(name, mode, content)),
        );
    }

    // A file's content is asked for, where an action may be.
    fn ask_content(&mut self, line: u32, to: usize, name: Name, mode: Mode) -> Pause
        ensures { Does false false (talk.asks_to_open line to name mode) line []
            self.old (Err result) self.new }
    {
        if !self.may_act() {
            return self.fault(line, FaultKind::TooManyActions);
        }
        self.actions += 1;
        let q = Question::OpenFile {
            name: name.copy(),
            mode,
            line,
        };
        self.waits = Waits::Content {
            line,
            to,
            name,
            mode,
        };
        Pause::Asks { q }
    }

    fn open_named(
        &mut self,
        script: &Script,
        line: u32,
        to: usize,
        text: &[u8],
        mode: Mode,
    ) -> Result<(), Pause>
        ensures { Does false false
            (loading_named (given_of script.now) line to mode text.now) line [] self.old result self.new }
    {
        let name = match self.open_name(script, to, text, mode) {
            Ok(name) => name,
            Err(kind) => return Err(self.fault(line, kind)),
        };
        let count = self.names.len();
        match note(&mut self.names, name.copy()) {
            Ok(_) => {}
            Err(_) => return Err(Pause::NoMemory),
        }
        if self.names.len() > NAME_LIMIT {
            self.names.truncate(count);
            return Err(self.fault(line, FaultKind::TooManyNames));
        }
        match mode {
            Mode::W => {
                self.show_file(to, name, mode, Blob::of(Vec::new(self.alloc)));
                Ok(())
            }
            Mode::R => Err(self.ask_content(line, to, name, mode)),
            Mode::A => Err(self.ask_content(line, to, name, mode)),
        }
    }

    pub(crate) fn open(
        &mut self,
        script: &Script,
        line: u32,
        to: usize,
        path: &Formula,
        mode: Mode,
    ) -> Result<(), Pause>
        ensures { Does true false
            (loading (given_of script.now) line to (placed_of path.now) mode) line [] self.old result self.new }
    {
        let v = match self.value(line, path) {
            Ok(v) => v,
            Err(pause) => return Err(pause),
        };
        self.open_named(script, line, to, text_of(&v), mode)
    }

    fn next_line(&self, handle: usize) -> Result<Line, ReadErr>
        ensures { NextLine (talk.opened_at (state_of self.now) handle) result }
    {
        let h = match opened_at(&self.handles, handle) {
            Some(h) => h,
            None => {
                return Err(ReadErr::Kind {
                    kind: FaultKind::HandleClosed,
                });
            }
        };
        if writes(h.mode()) {
            return Err(ReadErr::Kind {
                kind: FaultKind::WrongMode,
            });
        }
        match h.next_line(self.alloc) {
            Ok(line) => Ok(line),
            Err(TalkErr::Kind { kind }) => Err(ReadErr::Kind { kind }),
            Err(TalkErr::Need { n: _, place: _ }) => unreachable!(),
            Err(TalkErr::NoMemory) => Err(ReadErr::NoMemory),
        }
    }

    pub(crate) fn fetch(
        &mut self,
        line: u32,
        got: usize,
        handle: usize,
        to: usize,
    ) -> Result<(), Pause>
        ensures { Does true false (fetching line got handle to) line [] self.old result self.new }
    {
        match self.next_line(handle) {
            Err(ReadErr::Kind { kind }) => Err(self.fault(line, kind)),
            Err(ReadErr::NoMemory) => Err(Pause::NoMemory),
            Ok(Line::End) => {
                self.put(got, Value::Int { v: 0 });
                Ok(())
            }
            Ok(Line::Got { s, next }) => {
                go_to(&mut self.handles, handle, next);
                self.put(to, Value::Str { s });
                self.put(got, Value::Int { v: 1 });
                Ok(())
            }
        }
    }

    pub(crate) fn save(&mut self, line: u32, handle: usize) -> Result<(), Pause>
        ensures { Does true false (saving line handle) line [] self.old result self.new }
    {
        let mode = match opened_at(&self.handles, handle) {
            None => return Err(self.fault(line, FaultKind::HandleClosed)),
            Some(h) => h.mode(),
        };
        if writes(mode) && !self.may_act() {
            return Err(self.fault(line, FaultKind::TooManyActions));
        }
        let h = match change(&mut self.handles, handle, None) {
            None => unreachable!(),
            Some(h) => h,
        };
        if !writes(mode) {
            return Ok(());
        }
        self.actions += 1;
        self.waits = Waits::Word;
        let (name, bytes) = h.into_parts();
        Err(Pause::Asks {
            q: Question::CloseFile { name, bytes },
        })
    }

    pub(crate) fn pause(&mut self, line: u32) -> Pause
        ensures { Does true false (pausing line) line [] self.old (Err result) self.new }
    {
        if !self.may_act() {
            return self.fault(line, FaultKind::TooManyActions);
        }
        self.actions += 1;
        self.waits = Waits::Word;
        Pause::Asks {
            q: Question::Barrier,
        }
    }

    /// GS_Off: each variable that waits is asked for, in the order of declaration.
    pub(crate) fn leave(&mut self, line: u32) -> Pause
        ensures { Leaves (leaving_all line) self.old result self.new }
    {
        if is_any_open(&self.handles) {
            return self.fault(line, FaultKind::StillOpen);
        }
        match first_due(&self.vars) {
            None => self.stop(Last::End),
            Some((i, n, place)) => self.trouble(line, Trouble::Need { i, n, place }),
        }
    }
}
