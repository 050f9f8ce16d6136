// A program as a core.
ghost use Rattle.std.specs.Prelude.{◌≡◌, ◌≤◌, ℕ, None, IfOk};
ghost use Rattle.gs_broker.specs.Broker.{job_in};
ghost use Rattle.gs_main.specs.Shown.{talking};
ghost use Rattle.gs_main.specs.Talking.{IsFree};
ghost use Rattle.gs_rows_core.specs.Due.{IsDue};

use crate::law::{IDL, name};
use gs_broker::{Broker, Workers};
use gs_check::check;
use gs_core::{Core, DoneNote};
use gs_main::Main;
use gs_parse::parse;
use gs_types::{FUEL_DEFAULT, NoMemory, TRIES_DEFAULT, TRIES_LIMIT, WINDOW_DEFAULT};
use std::alloc::Global;

/// A file of the user's: its name and its content.
pub type File<'a> = (&'a [u8], &'a [u8]);

/// The user's files, a program, a list of workers, how many calls may be unfinished at once, and at
/// how many failures a task is lost.
#[derive(Clone, Copy)]
pub struct Case<'a> {
    pub files: &'a [File<'a>],
    pub text: &'a [u8],
    pub list: &'a [u8],
    pub window: u32,
    pub tries: u32,
}

/// `A` is `a` and `B` is `b`.
pub const A_AND_B: [File<'static>; 2] = [(b"A", b"a"), (b"B", b"b")];

/// Two tasks that write `C`.
pub const TWICE: &[u8] =
    b"main() { GS_On(); join(\"A\", \"B\", \"C\"); join(\"B\", \"A\", \"C\"); GS_Off(0); }";

/// This program over these files, on one worker of two slots.
pub fn over<'a>(files: &'a [File<'a>], text: &'a [u8]) -> Case<'a> {
    Case {
        files,
        text,
        list: b"w1 2 p *\n",
        window: WINDOW_DEFAULT,
        tries: TRIES_DEFAULT,
    }
}

/// A text as a program at its beginning. Those of the examples are right.
pub fn main_of(alloc: Global, text: &[u8]) -> Result<Main, NoMemory>
    ensures { IfOk result (λ m. IsFree (talking m).next) }
{
    let Ok(idl) = gs_idl::read(alloc, IDL) else {
        return Err(NoMemory);
    };
    let Ok(tree) = parse(alloc, text) else {
        return Err(NoMemory);
    };
    let Ok(checked) = check(alloc, tree, idl) else {
        return Err(NoMemory);
    };
    Main::new(alloc, checked, name(b"k.idl")?, name(b"p.c")?, FUEL_DEFAULT)
}

// The workers of a case, with nothing in flight.
fn broker_of(alloc: Global, case: &Case<'_>, main: &Main) -> Result<Broker, NoMemory>
    ensures { IfOk result (λ b. (n : ℕ) → job_in b n ≡ None) }
{
    let Ok(workers) = Workers::read(alloc, case.list, main.idl()) else {
        return Err(NoMemory);
    };
    if case.tries < 1 || case.tries > TRIES_LIMIT {
        return Err(NoMemory);
    }
    Broker::new(alloc, workers, case.tries)
}

/// The core of a case, with what was recorded before.
pub fn core_of(alloc: Global, case: &Case<'_>, notes: Vec<DoneNote>) -> Result<Core, NoMemory>
    ensures { IfOk result IsDue }
{
    let main = main_of(alloc, case.text)?;
    let broker = broker_of(alloc, case, &main)?;
    Core::new(alloc, main, notes, broker, case.window)
}
