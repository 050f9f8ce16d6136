// The same programs one statement after the other: each task at once, over plain files.
ghost use Rattle.std.specs.Prelude.{◌≡◌, IfOk};
ghost use Rattle.gs_main.specs.Shown.{talking};
ghost use Rattle.gs_main.specs.Talking.{Fits, IsFree, a_content, a_value, an_end};
ghost use Rattle.gs_rows_core.specs.Replies.{IsReply};

use crate::case::{Case, File, main_of};
use crate::law::{Place, digits, file, give, places};
use crate::left::{put_end, put_file, put_vars};
use gs_main::Main;
use gs_talk::{Answer, CallArg, Question};
use gs_types::{Blob, FILE_LIMIT, NoMemory, Value};
use std::alloc::Global;

#[derive(Drop)]
struct Entry {
    name: Vec<u8>,
    bytes: Vec<u8>,
}

// The user's files, those that were written, in the order of their first writing, how much each
// task was given, and how many actions there were.
#[derive(Drop)]
struct Plain<'a> {
    alloc: Global,
    files: &'a [File<'a>],
    written: Vec<Entry>,
    given: Vec<i64>,
    actions: usize,
}

impl<'a> Plain<'a> {
    fn original(&self, name: &[u8]) -> Option<&[u8]> {
        for (known, bytes) in self.files {
            if *known == name {
                return Some(*bytes);
            }
        }
        None
    }

    fn read(&self, name: &[u8]) -> Option<&[u8]> {
        for entry in self.written.iter() {
            if entry.name.as_slice() == name {
                return Some(entry.bytes.as_slice());
            }
        }
        self.original(name)
    }

    fn write(&mut self, name: &[u8], bytes: Vec<u8>) -> Result<(), NoMemory> {
        for i in 0..self.written.len() {
            if self.written[i].name.as_slice() == name {
                self.written[i].bytes = bytes;
                return Ok(());
            }
        }
        self.written.push(Entry {
            name: Vec::from_slice(self.alloc, name)?,
            bytes,
        })?;
        Ok(())
    }

    // What a task is given; nothing where a file isn't there.
    fn gather(&self, op: u8, args: &[CallArg]) -> Result<Option<Vec<u8>>, NoMemory> {
        let mut given = Vec::new(self.alloc);
        for (arg, place) in args.iter().zip(places(op)) {
            match arg {
                CallArg::File { name } if *place != Place::File => match self.read(name.bytes()) {
                    None => return Ok(None),
                    Some(bytes) => give(self.alloc, &mut given, bytes, *place)?,
                },
                CallArg::Int { v } => digits(self.alloc, &mut given, *v)?,
                CallArg::Str { s } => given.extend_from_slice(s.bytes())?,
                _ => {}
            }
        }
        Ok(Some(given))
    }

    fn call(&mut self, op: u8, args: &[CallArg]) -> Result<Answer, NoMemory>
        ensures { IfOk result (Fits an_end) }
    {
        let Some(given) = self.gather(op, args)? else {
            return Ok(Answer::Absent);
        };
        for (arg, place) in args.iter().zip(places(op)) {
            match arg {
                CallArg::File { name } if *place != Place::Given => {
                    let bytes = file(self.alloc, op, &given)?;
                    self.write(name.bytes(), bytes)?;
                }
                _ => {}
            }
        }
        self.given.push(given.len() as i64)?;
        Ok(Answer::Went)
    }

    // The number that a task gave.
    fn value(&self, n: u32) -> Result<Answer, NoMemory>
        ensures { IfOk result (Fits a_value) }
    {
        let Some(given) = self.given.get((n as usize).wrapping_sub(1)) else {
            return Err(NoMemory);
        };
        Ok(Answer::Val {
            v: Value::Int { v: *given },
        })
    }

    fn content(&self, name: &[u8]) -> Result<Answer, NoMemory>
        ensures { IfOk result (Fits a_content) }
    {
        match self.read(name) {
            None => Ok(Answer::Absent),
            Some(bytes) if bytes.len() > FILE_LIMIT => Ok(Answer::TooLong),
            Some(bytes) => Ok(Answer::Bytes {
                bytes: Blob::copy(self.alloc, bytes)?,
            }),
        }
    }

    fn reply(&mut self, question: &Question) -> Result<Option<Answer>, NoMemory>
        ensures { IfOk result (IsReply question.now) }
    {
        match question {
            Question::Call { op, line: _, args } => Ok(Some(self.call(*op, args.items())?)),
            Question::Use { n, place: _ } => Ok(Some(self.value(*n)?)),
            Question::OpenFile { name, .. } => Ok(Some(self.content(name.bytes())?)),
            Question::CloseFile { name, bytes } => {
                self.write(name.bytes(), Vec::from_slice(self.alloc, bytes.bytes())?)?;
                Ok(Some(Answer::Went))
            }
            Question::Barrier => Ok(Some(Answer::Went)),
            Question::End => Ok(None),
            Question::Fault { .. } => Ok(None),
            Question::FuelOut => Ok(None),
        }
    }

    // Carries a program out to its end.
    fn carry(&mut self, main: &mut Main) -> Result<(), NoMemory>
        requires { IsFree (talking main.old).next }
    {
        for _i in 0..u32::MAX {
            let question = main.ask()?;
            self.actions = self.actions.wrapping_add(1);
            match self.reply(&question)? {
                None => return Ok(()),
                Some(answer) => main.answer(answer),
            }
        }
        Err(NoMemory)
    }

    fn put_files(&self, words: &mut Vec<u8>) -> Result<(), NoMemory> {
        for entry in self.written.iter() {
            put_file(words, &entry.name, &entry.bytes)?;
        }
        Ok(())
    }
}

/// What the program of a case leaves, one statement after the other.
pub fn serial(alloc: Global, case: &Case<'_>) -> Result<Vec<u8>, NoMemory> {
    let mut plain = Plain {
        alloc,
        files: case.files,
        written: Vec::new(alloc),
        given: Vec::new(alloc),
        actions: 0,
    };
    let mut main = main_of(alloc, case.text)?;
    plain.carry(&mut main)?;
    let mut words = Vec::new(alloc);
    plain.put_files(&mut words)?;
    put_vars(alloc, &mut words, &main.vars(alloc)?)?;
    put_end(alloc, &mut words, main.text(), plain.actions)?;
    Ok(words)
}
