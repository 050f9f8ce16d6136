// How a text goes wrong.
ghost use Rattle.std.specs.Prelude.{◌≡◌};
ghost use Rattle.gs_run.specs.Kinds.{idl_kind_text, parse_kind_text, check_kind_text, duration_kind_text, workers_kind_text, fault_kind_text, kind_text};

use gs_broker::WorkersKind;
use gs_check::CheckKind;
use gs_idl::IdlKind;
use gs_parse::ParseKind;
use gs_plan::DurKind;
use gs_types::FaultKind;

/// How a text goes wrong: an IDL by its grammar, a program by its grammar or its checks, a list of
/// durations or of workers; or a program by a call of an operation that no worker takes.
#[derive(Clone, Copy, PartialEq, Eq, Debug)]
pub enum TextKind {
    Idl { kind: IdlKind },
    Program { kind: ParseKind },
    Check { kind: CheckKind },
    Durations { kind: DurKind },
    Workers { kind: WorkersKind },
    NoWorker,
}

fn idl_kind_text(kind: IdlKind) -> &'static [u8]
    ensures { result.now ≡ idl_kind_text kind }
{
    match kind {
        IdlKind::TooLong => b"TooLong",
        IdlKind::BadByte => b"BadByte",
        IdlKind::OpenComment => b"OpenComment",
        IdlKind::LongName => b"LongName",
        IdlKind::Unexpected => b"Unexpected",
        IdlKind::BadCombination => b"BadCombination",
        IdlKind::TooMany => b"TooMany",
        IdlKind::Twice => b"Twice",
        IdlKind::Reserved => b"Reserved",
    }
}

fn parse_kind_text(kind: ParseKind) -> &'static [u8]
    ensures { result.now ≡ parse_kind_text kind }
{
    match kind {
        ParseKind::TooLong => b"TooLong",
        ParseKind::BadByte => b"BadByte",
        ParseKind::OpenComment => b"OpenComment",
        ParseKind::OpenString => b"OpenString",
        ParseKind::BadEscape => b"BadEscape",
        ParseKind::StringTooLong => b"StringTooLong",
        ParseKind::LongName => b"LongName",
        ParseKind::BadNumber => b"BadNumber",
        ParseKind::WideNumber => b"WideNumber",
        ParseKind::TooDeep => b"TooDeep",
        ParseKind::Unexpected => b"Unexpected",
    }
}

fn check_kind_text(kind: CheckKind) -> &'static [u8]
    ensures { result.now ≡ check_kind_text kind }
{
    match kind {
        CheckKind::Twice => b"Twice",
        CheckKind::TooMany => b"TooMany",
        CheckKind::Unknown => b"Unknown",
        CheckKind::WrongKind => b"WrongKind",
        CheckKind::WrongCount => b"WrongCount",
        CheckKind::NotVariable => b"NotVariable",
        CheckKind::BadFormat => b"BadFormat",
    }
}

fn duration_kind_text(kind: DurKind) -> &'static [u8]
    ensures { result.now ≡ duration_kind_text kind }
{
    match kind {
        DurKind::TooLong => b"TooLong",
        DurKind::BadByte => b"BadByte",
        DurKind::BadLine => b"BadLine",
        DurKind::UnknownOp => b"UnknownOp",
        DurKind::BadNumber => b"BadNumber",
        DurKind::Twice => b"Twice",
    }
}

fn workers_kind_text(kind: WorkersKind) -> &'static [u8]
    ensures { result.now ≡ workers_kind_text kind }
{
    match kind {
        WorkersKind::TooLong => b"TooLong",
        WorkersKind::BadByte => b"BadByte",
        WorkersKind::BadLine => b"BadLine",
        WorkersKind::BadName => b"BadName",
        WorkersKind::BadSlots => b"BadSlots",
        WorkersKind::UnknownOp => b"UnknownOp",
        WorkersKind::Twice => b"Twice",
        WorkersKind::TooMany => b"TooMany",
        WorkersKind::Empty => b"Empty",
    }
}

/// The word for a kind.
pub(crate) fn kind_text(kind: TextKind) -> &'static [u8]
    ensures { result.now ≡ kind_text kind }
{
    match kind {
        TextKind::Idl { kind } => idl_kind_text(kind),
        TextKind::Program { kind } => parse_kind_text(kind),
        TextKind::Check { kind } => check_kind_text(kind),
        TextKind::Durations { kind } => duration_kind_text(kind),
        TextKind::Workers { kind } => workers_kind_text(kind),
        TextKind::NoWorker => b"NoWorker",
    }
}

/// The word for a fault of a program that runs.
pub(crate) fn fault_kind_text(kind: FaultKind) -> &'static [u8]
    ensures { result.now ≡ fault_kind_text kind }
{
    match kind {
        FaultKind::Overflow => b"Overflow",
        FaultKind::ZeroDivisor => b"ZeroDivisor",
        FaultKind::StringTooLong => b"StringTooLong",
        FaultKind::TextTooLong => b"TextTooLong",
        FaultKind::FileTooLong => b"FileTooLong",
        FaultKind::BadName => b"BadName",
        FaultKind::NoFile => b"NoFile",
        FaultKind::OwnText => b"OwnText",
        FaultKind::SameOut => b"SameOut",
        FaultKind::FileOpen => b"FileOpen",
        FaultKind::HandleOpen => b"HandleOpen",
        FaultKind::HandleClosed => b"HandleClosed",
        FaultKind::WrongMode => b"WrongMode",
        FaultKind::TooManyOpen => b"TooManyOpen",
        FaultKind::TooManyTasks => b"TooManyTasks",
        FaultKind::TooManyActions => b"TooManyActions",
        FaultKind::TooManyNames => b"TooManyNames",
        FaultKind::BadByte => b"BadByte",
        FaultKind::StillOpen => b"StillOpen",
    }
}
