// What a machine waits for.
use gs_talk::Question;
use gs_tree::Mode;
use gs_types::{FaultKind, Name, NoMemory};
use std::alloc::AllocError;

/// How a program ended.
#[derive(Clone, Copy, Debug, PartialEq, Eq)]
pub(crate) enum Last {
    End,
    Fault { line: u32, kind: FaultKind },
    FuelOut,
}

/// What it waits for: nothing; the value of the variable at a place; the end of the call at which
/// it stands; the content of a file that is opened; a word that a file was closed or all tasks are done. Or it has ended.
#[derive(Drop)]
pub(crate) enum Waits {
    Nothing,
    Value {
        i: usize,
    },
    Call,
    Content {
        line: u32,
        to: usize,
        name: Name,
        mode: Mode,
    },
    Word,
    Ended {
        last: Last,
    },
}

impl Last {
    ghost use Rattle.std.specs.Prelude.{◌≡◌};
    ghost use Rattle.gs_main.specs.Lasts.{last_question};

    /// The question that it ended with.
    pub(crate) fn question(self) -> Question
        ensures { result ≡ last_question self }
    {
        match self {
            Last::End => Question::End,
            Last::Fault { line, kind } => Question::Fault { line, kind },
            Last::FuelOut => Question::FuelOut,
        }
    }
}

/// Why it goes no further for now: a question, or want of memory.
#[derive(Drop)]
pub(crate) enum Pause {
    NoMemory,
    Asks { q: Question },
}

impl From<NoMemory> for Pause {
    ghost use Rattle.std.specs.Prelude.{◌≡◌};
    ghost use Rattle.gs_main.specs.declared.waits.Pause.TheVariants as pause;

    ghost from_gives = { λ _ p. p ≡ pause.NoMemory };

    fn from(_e: NoMemory) -> Pause {
        Pause::NoMemory
    }
}

impl From<AllocError> for Pause {
    ghost use Rattle.std.specs.Prelude.{◌≡◌};
    ghost use Rattle.gs_main.specs.declared.waits.Pause.TheVariants as pause;

    ghost from_gives = { λ _ p. p ≡ pause.NoMemory };

    fn from(_e: AllocError) -> Pause {
        Pause::NoMemory
    }
}
