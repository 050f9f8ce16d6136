//! Strings between their quotes.

ghost use Rattle.std.specs.Prelude.{◌≡◌, ◌<◌, length, slice_index, IfOk};
ghost use Rattle.gs_tree.specs.Quoted.{Quotes};
ghost use Rattle.gs_tree.specs.Steps.{IsPiece, quoted_of, IsWithin};

use crate::NoMemory;
use crate::bytes::{byte_at, escape_value, is_plain};
use crate::token::LexKind;
use std::alloc::Global;

/// The most bytes that a string's value has.
const MAX_STRING: usize = 1024;

// What stands first in the rest of a string.
pub(crate) enum Piece {
    Byte { value: u8, count: usize },
    End,
    Fault { kind: LexKind },
}

/// A string's value and the bytes that it takes with its closing quote, or its fault.
#[derive(Drop)]
pub(crate) enum Reading {
    Closed { value: Vec<u8>, count: usize },
    Broken { kind: LexKind },
}

// An escape, where its value has room.
fn escape(rest: &[u8], room: usize) -> Piece
    requires begins { slice_index rest.now 0 ≡ 92 }
    requires room { 0 < room }
    ensures { IsPiece room rest.now result }
{
    let e = byte_at(rest, 1);
    if rest.len() == 1 || e == b'\n' {
        return Piece::Fault {
            kind: LexKind::OpenString,
        };
    }
    match escape_value(e) {
        Some(value) => Piece::Byte { value, count: 2 },
        None => Piece::Fault {
            kind: LexKind::BadEscape,
        },
    }
}

fn first_piece(rest: &[u8], room: usize) -> Piece
    ensures { IsPiece room rest.now result }
{
    let b = byte_at(rest, 0);
    if rest.is_empty() || b == b'\n' {
        return Piece::Fault {
            kind: LexKind::OpenString,
        };
    }
    if b == b'"' {
        return Piece::End;
    }
    let plain = is_plain(b);
    if !plain && b != b'\\' {
        return Piece::Fault {
            kind: LexKind::BadByte,
        };
    }
    if room == 0 {
        return Piece::Fault {
            kind: LexKind::StringTooLong,
        };
    }
    if plain {
        return Piece::Byte { value: b, count: 1 };
    }
    escape(rest, room)
}

/// Reads what follows an opening quote.
pub(crate) fn read_string(alloc: Global, rest: &[u8]) -> Result<Reading, NoMemory>
    ensures reads { IfOk result (λ r. Quotes 1024 rest.now (quoted_of r)) }
    ensures within { IfOk result (λ r. IsWithin (length rest.now) r) }
{
    let mut value = Vec::new(alloc);
    let mut at = 0;
    'pieces: loop {
        match first_piece(&rest[at..], MAX_STRING - value.len()) {
            Piece::Byte { value: b, count } => {
                value.push(b)?;
                at += count;
            }
            Piece::End => {
                return Ok(Reading::Closed {
                    value,
                    count: at + 1,
                });
            }
            Piece::Fault { kind } => return Ok(Reading::Broken { kind }),
        }
    }
}
