// Open files.
ghost use Rattle.std.specs.Prelude.{◌≡◌};
ghost use Rattle.gs_talk.specs.Talk as talk;

use gs_talk::{Line, TalkErr, line};
use gs_tree::Mode;
use gs_types::{Blob, Name, NoMemory};
use std::alloc::Global;
use std::marker::Model;

/// An open file: its content, and how far it was read.
#[derive(Drop)]
pub struct Opened {
    name: Name,
    mode: Mode,
    content: Blob,
    at: usize,
}

impl Model for Opened {
    ghost Value = { talk.Opened };

    ghost view = { λ o. record { name = o.name; mode = o.mode; content = o.content; at = o.at } };
}

/// A file that is opened so is written when it is closed.
pub fn writes(mode: Mode) -> bool
    ensures { result ≡ talk.writes mode }
{
    match mode {
        Mode::R => false,
        Mode::W => true,
        Mode::A => true,
    }
}

impl Opened {
    ghost use Rattle.std.specs.Prelude.{◌≡◌, ◌&&◌, ◌++◌, length, bytes_eq, OnOk, OnErr};
    ghost use Rattle.gs_talk.specs.Texts.{read_line_at};
    ghost use Rattle.gs_talk.specs.Found.{TakesLine};

    /// A file that was opened so, with this content, of which nothing was read.
    pub fn new(name: Name, mode: Mode, content: Blob) -> Opened
        ensures { result ≡ talk.fresh name mode content }
    {
        Opened {
            name,
            mode,
            content,
            at: 0,
        }
    }

    /// How it was opened.
    pub fn mode(&self) -> Mode
        ensures { result ≡ self.now.mode }
    {
        self.mode
    }

    /// It is the file of this name, open to be written.
    pub fn is_written_as(&self, name: &Name) -> bool
        ensures { result ≡ (talk.writes self.now.mode && bytes_eq self.now.name name.now) }
    {
        writes(self.mode) && self.name == *name
    }

    /// The bytes of the content.
    pub fn len(&self) -> usize
        ensures { result ≡ length self.now.content }
    {
        self.content.bytes().len()
    }

    /// The next line, or the end, or the fault of a line; or want of memory.
    pub fn next_line(&self, alloc: Global) -> Result<Line, TalkErr>
        ensures { TakesLine (read_line_at self.now.content self.now.at) result }
    {
        line(alloc, self.content.bytes(), self.at)
    }

    /// It was read as far as this place.
    pub fn go_to(&mut self, next: usize)
        ensures { self.new ≡ talk.read_to next self.old }
    {
        self.at = next;
    }

    /// Puts these bytes at the end of the content. On want of memory nothing changes.
    pub fn append(&mut self, out: &[u8]) -> Result<(), NoMemory>
        ensures ok { OnOk result (self.new ≡ talk.appended out.now self.old) }
        ensures err { OnErr result (self.new ≡ self.old) }
    {
        self.content.push_all(out)
    }

    /// The name and the content.
    pub fn into_parts(self) -> (Name, Blob)
        ensures name { result.0 ≡ self.name }
        ensures content { result.1 ≡ self.content }
    {
        (self.name, self.content)
    }
}
