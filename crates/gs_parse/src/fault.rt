//! The faults of a main program's text.

ghost use Rattle.std.specs.Prelude.{◌≡◌};
ghost use Rattle.gs_tree.specs.Cut.{text_of};
ghost use Rattle.gs_tree.specs.Shown.{sign_shown};
ghost use Rattle.gs_parse.specs.Faulty.{lexical_kind, kind_of_sign, kind_from, line_from};
ghost use Rattle.gs_parse.specs.Reads.{left};

use crate::marks::look;
use gs_tree::sign::Sign;
use gs_tree::{LexKind, Tokens};

/// How a text goes wrong.
#[derive(Clone, Copy, PartialEq, Eq, Debug)]
pub enum ParseKind {
    /// More than 65,536 bytes.
    TooLong,
    BadByte,
    OpenComment,
    OpenString,
    BadEscape,
    StringTooLong,
    LongName,
    BadNumber,
    WideNumber,
    /// A sign that only a limit of depth refuses.
    TooDeep,
    Unexpected,
}

/// Why a text was not read: its first fault, with the line, which is 0 of a text that is too long; or want of memory.
#[derive(Clone, Copy, PartialEq, Eq, Debug)]
pub enum ParseErr {
    At { line: u32, kind: ParseKind },
    NoMemory,
}

fn kind_of_lexical(kind: LexKind) -> ParseKind
    ensures { result ≡ lexical_kind kind }
{
    match kind {
        LexKind::BadByte => ParseKind::BadByte,
        LexKind::OpenComment => ParseKind::OpenComment,
        LexKind::OpenString => ParseKind::OpenString,
        LexKind::BadEscape => ParseKind::BadEscape,
        LexKind::StringTooLong => ParseKind::StringTooLong,
        LexKind::LongName => ParseKind::LongName,
        LexKind::BadNumber => ParseKind::BadNumber,
        LexKind::WideNumber => ParseKind::WideNumber,
    }
}

fn kind_of_place(sign: &Sign) -> ParseKind
    ensures { result ≡ kind_of_sign (sign_shown sign.now) }
{
    match sign {
        Sign::Keyword(_) => ParseKind::Unexpected,
        Sign::Name(_) => ParseKind::Unexpected,
        Sign::Number(_) => ParseKind::Unexpected,
        Sign::Text(_) => ParseKind::Unexpected,
        Sign::Symbol(_) => ParseKind::Unexpected,
        Sign::Bad(kind) => kind_of_lexical(*kind),
    }
}

/// The kind of the fault at a token that no reading allows.
pub(crate) fn kind_at(tokens: &Tokens, at: usize) -> ParseKind
    ensures { result ≡ kind_from (left tokens.now at) }
{
    match look(tokens, at) {
        Some(mark) => kind_of_place(&mark.sign),
        None => ParseKind::Unexpected,
    }
}

/// The line of a token, or that on which the text ends.
pub(crate) fn line_of_place(tokens: &Tokens, at: usize) -> u32
    ensures { result ≡ line_from (text_of tokens.now) (left tokens.now at) }
{
    match look(tokens, at) {
        Some(mark) => mark.line,
        None => tokens.last_line(),
    }
}
