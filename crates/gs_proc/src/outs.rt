// What tasks give, read back from their files.
ghost use Rattle.std.specs.Prelude.{◌≡◌, ◌++◌, ℤ, IfOk, OnOk, MatchResult};
ghost use Rattle.std.specs.Option.{option_to_list};
ghost use Rattle.gs_types.specs.Job.{IsFile, IsInt, IsStr};
ghost use Rattle.gs_types.specs.Bytes.{IsText};
ghost use Rattle.gs_proc.specs.Line.{without_end};
ghost use Rattle.gs_proc.specs.Number.{IsNumber};
ghost use Rattle.gs_proc.specs.Outs.{IsNumberOf, IsTextOf};
ghost use Rattle.gs_proc.specs.Places.{GivesAt, GiveAll};

use crate::call::Place;
use crate::number::{number_of, without_line_feed};
use crate::stage::{path_of, take};
use crate::trouble::Trouble;
use gs_types::{Blob, FILE_LIMIT, STRING_LIMIT, Text, TextErr, Value};
use std::alloc::Global;
use std::rt::Files;

// Bytes of the files in which tasks give numbers and strings, each with a line feed.
const NUMBER_LIMIT: usize = 21;

const LINE_LIMIT: usize = STRING_LIMIT + 1;

fn take_file<R: Files>(rt: &R, alloc: Global, path: &str) -> Result<Value, Trouble>
    ensures { IfOk result IsFile }
{
    let bytes = take(rt, alloc, path, FILE_LIMIT)?;
    Ok(Value::File {
        bytes: Blob::of(bytes),
    })
}

// The number that a file's bytes are. Anything else is a failure.
fn number_in(bytes: &[u8]) -> Result<Value, Trouble>
    ensures { MatchResult result (IsNumberOf bytes.now) (λ e. (e ≡ Trouble.Failed)
        × ((v : ℤ) → IsNumber bytes.now v → ⊥)) }
{
    match number_of(bytes) {
        Some(v) => Ok(Value::Int { v }),
        None => Err(Trouble::Failed),
    }
}

// The string that a file's bytes are, without one line feed at their end. Anything else is a
// failure.
fn text_in(alloc: Global, bytes: &[u8]) -> Result<Value, Trouble>
    ensures { MatchResult result (IsTextOf (without_end bytes.now)) (λ e. e ≡ Trouble.Failed
        → IsText (without_end bytes.now) → ⊥) }
{
    match Text::read(alloc, without_line_feed(bytes)) {
        Ok(s) => Ok(Value::Str { s }),
        Err(TextErr::NoMemory) => Err(Trouble::NoMemory),
        Err(TextErr::Long { .. } | TextErr::BadByte { .. }) => Err(Trouble::Failed),
    }
}

fn take_number<R: Files>(rt: &R, alloc: Global, path: &str) -> Result<Value, Trouble>
    ensures { IfOk result IsInt }
{
    let bytes = take(rt, alloc, path, NUMBER_LIMIT)?;
    number_in(&bytes)
}

fn take_text<R: Files>(rt: &R, alloc: Global, path: &str) -> Result<Value, Trouble>
    ensures { IfOk result IsStr }
{
    let bytes = take(rt, alloc, path, LINE_LIMIT)?;
    text_in(alloc, &bytes)
}

// What a place of task `n` gives.
fn out_at<R: Files>(
    rt: &R,
    alloc: Global,
    n: u32,
    number: usize,
    place: Place,
) -> Result<Option<Value>, Trouble>
    ensures { IfOk result (GivesAt place) }
{
    let path = path_of(alloc, n, number)?;
    Ok(match place {
        Place::Word | Place::Input => None,
        Place::File => Some(take_file(rt, alloc, path.as_str())?),
        Place::Int => Some(take_number(rt, alloc, path.as_str())?),
        Place::Text => Some(take_text(rt, alloc, path.as_str())?),
    })
}

fn add_out(outs: &mut Vec<Value>, out: Option<Value>) -> Result<(), Trouble>
    ensures { OnOk result (outs.new.items ≡ outs.old.items ++ option_to_list out) }
{
    if let Some(value) = out {
        outs.push(value)?;
    }
    Ok(())
}

/// What task `n` gave at its places. A file that is absent, malformed or too long is a failure.
pub(crate) fn outs_of<R: Files>(
    rt: &R,
    alloc: Global,
    n: u32,
    places: &[Place],
) -> Result<Vec<Value>, Trouble>
    ensures { IfOk result (λ outs. GiveAll places.now outs.items) }
{
    let mut outs = Vec::new(alloc);
    for (i, place) in places.iter().enumerate() {
        let out = out_at(rt, alloc, n, i + 1, *place)?;
        add_out(&mut outs, out)?;
    }
    Ok(outs)
}
