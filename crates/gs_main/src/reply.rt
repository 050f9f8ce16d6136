// How it goes on by an answer.
ghost use Rattle.std.specs.Prelude.{◌≡◌};
ghost use Rattle.gs_talk.specs.Talk.{taken};

use crate::run::Run;
use crate::script::Script;
use crate::waits::{Last, Waits};
use gs_orders::Handed;
use gs_pieces::pend;
use gs_talk::Answer;
use gs_tree::Mode;
use gs_types::{Blob, FaultKind, Name, Value};

// The value in an answer; 0 for an answer of another kind.
fn taken(a: Answer) -> Value
    ensures { result ≡ taken a }
{
    match a {
        Answer::Val { v } => v,
        _ => Value::Int { v: 0 },
    }
}

impl Run {
    ghost use Rattle.std.specs.Prelude.{◌≡◌, ◌<◌, length, map};
    ghost use Rattle.gs_talk.specs.declared.question.Answer as answer;
    ghost use Rattle.gs_talk.specs.Talk as talk;
    ghost use Rattle.gs_orders.specs.Steps.{handed_of};
    ghost use Rattle.gs_main.specs.Seen.{given_of, state_of, IsWaiting, next_of, WentOn, Replies};

    fn end(&mut self, line: u32, kind: FaultKind)
        ensures { self.new ≡ record self.old {
          work = record self.old.work { waits = Waits.Ended (Last.Fault line kind) };
        } }
    {
        self.work.waits = Waits::Ended {
            last: Last::Fault { line, kind },
        };
    }

    // A call was ended.
    fn end_call(&mut self, line: u32, args: &[Handed], next: usize, a: &Answer)
        requires { length args.now < 255 }
        ensures { WentOn next self.new (talk.went a.now line (map handed_of args.now)
            self.old.steps (state_of self.old.work)) }
    {
        match a {
            Answer::Absent => self.end(line, FaultKind::NoFile),
            Answer::TooLong => self.end(line, FaultKind::FileTooLong),
            _ => {
                pend(&mut self.work.vars, self.work.tasks, args);
                self.at = next;
                self.work.waits = Waits::Nothing;
            }
        }
    }

    // The file of an answer is open.
    fn show_file(&mut self, to: usize, name: Name, mode: Mode, content: Blob)
        ensures { WentOn self.old.at self.new (talk.shows to name mode content
            self.old.steps (state_of self.old.work)) }
    {
        self.work.show_file(to, name, mode, content);
        self.work.waits = Waits::Nothing;
    }

    // A file was opened.
    fn end_open(&mut self, line: u32, to: usize, name: Name, mode: Mode, a: Answer)
        ensures { WentOn self.old.at self.new (talk.opened a line to name mode
            self.old.steps (state_of self.old.work)) }
    {
        let none = Blob::of(Vec::new(self.work.alloc));
        match a {
            Answer::Bytes { bytes } => self.show_file(to, name, mode, bytes),
            Answer::TooLong => self.end(line, FaultKind::FileTooLong),
            Answer::Absent => match mode {
                Mode::R => self.end(line, FaultKind::NoFile),
                Mode::W => self.show_file(to, name, mode, none),
                Mode::A => self.show_file(to, name, mode, none),
            },
            Answer::Went => self.show_file(to, name, mode, none),
            Answer::Val { v: _ } => self.show_file(to, name, mode, none),
        }
    }

    // The call at which it stands was ended.
    fn end_called(&mut self, script: &Script, a: &Answer)
        requires { self.old.work.waits ≡ Waits.Nothing }
        ensures { Replies (given_of script.now) script.now.orders.items
            Waits.Call self.old a.now self.new }
    {
        match script.call_at(self.at) {
            Some((line, args, next)) => self.end_call(line, args, next, a),
            None => {
                self.work.waits = Waits::Ended {
                    last: Last::FuelOut,
                };
            }
        }
    }

    /// Takes the answer to the last question.
    pub(crate) fn answer(&mut self, script: &Script, a: Answer)
        requires { IsWaiting self.old.work.waits }
        ensures { Replies (given_of script.now) script.now.orders.items
            self.old.work.waits self.old a self.new }
    {
        match std::mem::replace(&mut self.work.waits, Waits::Nothing) {
            Waits::Nothing => {}
            Waits::Ended { last: _ } => {}
            Waits::Word => {}
            Waits::Value { i } => self.work.put(i, taken(a)),
            Waits::Content {
                line,
                to,
                name,
                mode,
            } => self.end_open(line, to, name, mode, a),
            Waits::Call => self.end_called(script, &a),
        }
    }
}
