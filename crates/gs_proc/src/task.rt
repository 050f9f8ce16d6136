// A job in flight and its child.
ghost use Rattle.std.specs.Prelude.{◌≡◌, ◌<◌, length, vec_len, IfOk, IfSome};
ghost use Rattle.gs_proc.specs.Tasks.{calls};
ghost use Rattle.gs_proc.specs.Ends.{EndedAs, IsEnd};

use crate::call::Call;
use gs_types::NoMemory;
use std::io;
use std::io::ErrorKind;
use std::process::{Child, OpenProcess};

/// A job in flight and the child that does it.
#[derive(Drop)]
pub(crate) struct Task<C> {
    pub(crate) call: Call,
    pub(crate) child: C,
}

/// How a child has ended: with status 0, or otherwise.
#[derive(Clone, Copy, Debug, PartialEq, Eq)]
pub(crate) enum Ending {
    Well,
    Badly,
}

/// The place of a task, in the order of starts, whose child has ended, and how.
#[derive(Clone, Copy, Debug, PartialEq, Eq)]
pub(crate) struct End {
    pub(crate) place: usize,
    pub(crate) ending: Ending,
}

// What a failed question tells: want of memory, or else a child that can't be asked, which ended
// badly.
fn unasked(error: &io::Error) -> Result<Ending, NoMemory>
    ensures { IfOk result (λ ending. ending ≡ Ending.Badly) }
{
    if error.kind() == ErrorKind::OutOfMemory {
        Err(NoMemory)
    } else {
        Ok(Ending::Badly)
    }
}

impl<P: OpenProcess> Task<Child<P>> {
    // How the child has ended, where it has.
    fn ask(&mut self) -> Result<Option<Ending>, NoMemory>
        ensures call { self.new.call ≡ self.old.call }
        ensures well { IfOk result (λ end. IfSome end (EndedAs self.new)) }
    {
        match self.child.try_wait() {
            Ok(None) => Ok(None),
            Ok(Some(status)) if status.success() => Ok(Some(Ending::Well)),
            Ok(Some(_)) => Ok(Some(Ending::Badly)),
            Err(error) => Ok(Some(unasked(&error)?)),
        }
    }

    // Sleeps until the child has ended, and tells how.
    fn await_end(&mut self) -> Result<Ending, NoMemory>
        ensures call { self.new.call ≡ self.old.call }
        ensures well { IfOk result (EndedAs self.new) }
    {
        match self.child.wait() {
            Ok(status) if status.success() => Ok(Ending::Well),
            Ok(_) => Ok(Ending::Badly),
            Err(error) => unasked(&error),
        }
    }
}

/// The end of the task at a place, where its child has ended.
pub(crate) fn end_at<P: OpenProcess>(
    tasks: &mut Vec<Task<Child<P>>>,
    place: usize,
) -> Result<Option<End>, NoMemory>
    requires { place < length tasks.old.items }
    ensures calls { calls tasks.new.items ≡ calls tasks.old.items }
    ensures len { vec_len tasks.new ≡ vec_len tasks.old }
    ensures end { IfOk result (λ end. IfSome end (IsEnd tasks.new.items)) }
{
    match tasks[place].ask()? {
        Some(ending) => Ok(Some(End { place, ending })),
        None => Ok(None),
    }
}

/// Sleeps until the child of the task at a place has ended.
pub(crate) fn await_at<P: OpenProcess>(
    tasks: &mut Vec<Task<Child<P>>>,
    place: usize,
) -> Result<End, NoMemory>
    requires { place < length tasks.old.items }
    ensures calls { calls tasks.new.items ≡ calls tasks.old.items }
    ensures end { IfOk result (IsEnd tasks.new.items) }
{
    let ending = tasks[place].await_end()?;
    Ok(End { place, ending })
}
