// What formats give.
ghost use Rattle.std.specs.Prelude.{◌≡◌, ◌<◌, ◌++◌, length, slice_index, OnOk, IfOk};
ghost use Rattle.gs_talk.specs.Texts.{signed_decimal, formatted};
ghost use Rattle.gs_talk.specs.Pieces.{Begins, Puts};

use crate::evaluate::{int_of, text_of};
use gs_tree::Format;
use gs_types::{Blob, NoMemory, Value};
use itoa::Buffer;
use std::alloc::Global;

/// What stands in a format: a byte that stands for itself, a number's place or a string's.
#[derive(Clone, Copy)]
pub(crate) enum Piece {
    Byte { byte: u8 },
    Number,
    Text,
}

/// How a format begins: it ends; with a piece, and the rest; or with a `%` that is in no format.
#[derive(Clone, Copy)]
pub(crate) enum Beginning<'a> {
    End,
    Piece { piece: Piece, rest: &'a [u8] },
    Bad,
}

fn after_percent(format: &[u8]) -> Beginning<'_>
    requires some { 0 < length format.now }
    requires percent { slice_index format.now 0 ≡ 37 }
    ensures { Begins format.now result }
{
    if format.len() == 1 {
        return Beginning::Bad;
    }
    let rest = &format[2..];
    match format[1] {
        b'd' => Beginning::Piece {
            piece: Piece::Number,
            rest,
        },
        b's' => Beginning::Piece {
            piece: Piece::Text,
            rest,
        },
        b'%' => Beginning::Piece {
            piece: Piece::Byte { byte: b'%' },
            rest,
        },
        _ => Beginning::Bad,
    }
}

fn first_of(format: &[u8]) -> Beginning<'_>
    ensures { Begins format.now result }
{
    if format.is_empty() {
        return Beginning::End;
    }
    if format[0] == b'%' {
        return after_percent(format);
    }
    Beginning::Piece {
        piece: Piece::Byte { byte: format[0] },
        rest: &format[1..],
    }
}

fn put_number(v: i64, out: &mut Vec<u8>) -> Result<(), NoMemory>
    ensures { OnOk result (out.new.items ≡ out.old.items ++ signed_decimal v) }
{
    let mut buffer = Buffer::new();
    out.extend_from_slice(buffer.format(v).as_bytes())?;
    Ok(())
}

// Puts a piece with its value, and gives the values that are left.
fn put_piece<'a>(
    piece: Piece,
    values: &'a [Value],
    out: &mut Vec<u8>,
) -> Result<&'a [Value], NoMemory>
    ensures { IfOk result (λ left. Puts piece values.now left.now out.old.items out.new.items) }
{
    match (piece, values) {
        (Piece::Byte { byte }, _) => {
            out.push(byte)?;
            Ok(values)
        }
        (Piece::Number, [v, left @ ..]) => {
            put_number(int_of(v), out)?;
            Ok(left)
        }
        (Piece::Text, [v, left @ ..]) => {
            out.extend_from_slice(text_of(v))?;
            Ok(left)
        }
        (_, _) => Ok(values),
    }
}

/// What a format gives for these values, in order. Where it is no format, or a value lacks, the
/// checks of programs have refused it; then the rest is no bytes.
#[tactic(auto, unfolding(crate::specs::Texts::formatted))]
pub fn format_bytes(alloc: Global, format: &[u8], args: &[Value]) -> Result<Vec<u8>, NoMemory>
    ensures { IfOk result (λ out. out.items ≡ formatted format.now args.now) }
{
    let mut out = Vec::new(alloc);
    let mut format_left = format;
    let mut values_left = args;
    'pieces: loop {
        match first_of(format_left) {
            Beginning::End => return Ok(out),
            Beginning::Bad => return Ok(Vec::new(alloc)),
            Beginning::Piece { piece, rest } => {
                values_left = put_piece(piece, values_left, &mut out)?;
                format_left = rest;
            }
        }
    }
}

/// What a format of a program gives for these values, in order.
pub fn format(alloc: Global, f: &Format, args: &[Value]) -> Result<Blob, NoMemory>
    ensures { IfOk result (λ b. b ≡ formatted f.now.s.items args.now) }
{
    Ok(Blob::of(format_bytes(alloc, &f.s, args)?))
}
