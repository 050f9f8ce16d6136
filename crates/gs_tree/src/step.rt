//! What stands first in the rest of a text.

ghost use Rattle.std.specs.Prelude.{◌≡◌, ◌<◌, length, slice_index, IfOk, true};
ghost use Rattle.gs_tree.specs.Bytes.{is_blank, is_letter, is_digit};
ghost use Rattle.gs_tree.specs.Found.{IsStep, IsOther};

use crate::NoMemory;
use crate::bytes::{
    byte_at, comment_end, decimal, digits_len, is_blank, is_digit, is_double, is_include,
    is_letter, is_single, line_feeds, line_len, name_len,
};
use crate::string::{Reading, read_string};
use crate::token::{LexKind, TokenKind};
use std::alloc::Global;

/// The most bytes that a name has.
const MAX_NAME: usize = 64;

/// What stands first: what parts tokens, with the bytes that it takes, the lines that it begins, and whether after it
/// only blanks stand on its line; a token with the bytes that it takes; or a fault.
#[derive(Drop)]
pub(crate) enum Step {
    Gap {
        count: usize,
        lines: usize,
        stays_fresh: bool,
    },
    Token {
        kind: TokenKind,
        count: usize,
    },
    Fault {
        kind: LexKind,
    },
}

fn blank(rest: &[u8], is_fresh: bool) -> Step
    requires { is_blank (slice_index rest.now 0) ≡ true }
    ensures { IsStep is_fresh rest.now result }
{
    if byte_at(rest, 0) == b'\n' {
        return Step::Gap {
            count: 1,
            lines: 1,
            stays_fresh: true,
        };
    }
    Step::Gap {
        count: 1,
        lines: 0,
        stays_fresh: is_fresh,
    }
}

fn line_comment(rest: &[u8], is_fresh: bool) -> Step
    requires first { slice_index rest.now 0 ≡ 47 }
    requires second { slice_index rest.now 1 ≡ 47 }
    ensures { IsStep is_fresh rest.now result }
{
    Step::Gap {
        count: 2 + line_len(&rest[2..]),
        lines: 0,
        stays_fresh: false,
    }
}

fn block_comment(rest: &[u8], is_fresh: bool) -> Step
    requires first { slice_index rest.now 0 ≡ 47 }
    requires second { slice_index rest.now 1 ≡ 42 }
    ensures { IsStep is_fresh rest.now result }
{
    let body = &rest[2..];
    match comment_end(body) {
        Some(end) => Step::Gap {
            count: 2 + end + 2,
            lines: line_feeds(&body[..end]),
            stays_fresh: false,
        },
        None => Step::Fault {
            kind: LexKind::OpenComment,
        },
    }
}

fn word(rest: &[u8], is_fresh: bool) -> Step
    requires { is_letter (slice_index rest.now 0) ≡ true }
    ensures { IsStep is_fresh rest.now result }
{
    let count = name_len(rest);
    if count > MAX_NAME {
        return Step::Fault {
            kind: LexKind::LongName,
        };
    }
    Step::Token {
        kind: TokenKind::Word,
        count,
    }
}

fn number(rest: &[u8], is_fresh: bool) -> Step
    requires { is_digit (slice_index rest.now 0) ≡ true }
    ensures { IsStep is_fresh rest.now result }
{
    if byte_at(rest, 0) == b'0' && is_digit(byte_at(rest, 1)) {
        return Step::Fault {
            kind: LexKind::BadNumber,
        };
    }
    let count = digits_len(rest);
    let value = decimal(&rest[..count]);
    if value > i64::MAX as u64 {
        return Step::Fault {
            kind: LexKind::WideNumber,
        };
    }
    Step::Token {
        kind: TokenKind::Number { v: value as i64 },
        count,
    }
}

fn string(alloc: Global, rest: &[u8], is_fresh: bool) -> Result<Step, NoMemory>
    requires { slice_index rest.now 0 ≡ 34 }
    ensures { IfOk result (λ s. IsStep is_fresh rest.now s) }
{
    match read_string(alloc, &rest[1..])? {
        Reading::Closed { value, count } => Ok(Step::Token {
            kind: TokenKind::Str { s: value },
            count: 1 + count,
        }),
        Reading::Broken { kind } => Ok(Step::Fault { kind }),
    }
}

fn symbol(rest: &[u8], is_fresh: bool) -> Step
    requires { IsOther rest.now }
    ensures { IsStep is_fresh rest.now result }
{
    let (a, b) = (byte_at(rest, 0), byte_at(rest, 1));
    if is_double(a, b) {
        return Step::Token {
            kind: TokenKind::Symbol,
            count: 2,
        };
    }
    if is_single(a) {
        return Step::Token {
            kind: TokenKind::Symbol,
            count: 1,
        };
    }
    if is_include(rest, is_fresh) {
        return Step::Gap {
            count: line_len(rest),
            lines: 0,
            stays_fresh: false,
        };
    }
    Step::Fault {
        kind: LexKind::BadByte,
    }
}

/// What stands first.
pub(crate) fn first_step(alloc: Global, rest: &[u8], is_fresh: bool) -> Result<Step, NoMemory>
    requires { 0 < length rest.now }
    ensures { IfOk result (λ s. IsStep is_fresh rest.now s) }
{
    let (a, b) = (byte_at(rest, 0), byte_at(rest, 1));
    if is_blank(a) {
        return Ok(blank(rest, is_fresh));
    }
    if is_letter(a) {
        return Ok(word(rest, is_fresh));
    }
    if is_digit(a) {
        return Ok(number(rest, is_fresh));
    }
    if a == b'"' {
        return string(alloc, rest, is_fresh);
    }
    if a == b'/' && b == b'/' {
        return Ok(line_comment(rest, is_fresh));
    }
    if a == b'/' && b == b'*' {
        return Ok(block_comment(rest, is_fresh));
    }
    Ok(symbol(rest, is_fresh))
}
