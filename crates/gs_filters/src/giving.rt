// Outputs within their limits.
ghost use Rattle.std.specs.Prelude.{◌≡◌, ℕ, pos, ◌<◌, ◌≤◌, ◌^◌, [], ◌∷◌, ◌++◌, length, option_map, option_and_then, Some, IfOk};
ghost use Rattle.gs_filters.specs.Filters.{is_within, kept};
ghost use Rattle.gs_types.specs.declared.value.Value.TheVariants.{Int, Str, File};

use gs_types::{Blob, FILE_LIMIT, NoMemory, Text, TextErr, Value};
use std::alloc::Global;

/// What an operation gives: its outputs, or none.
pub(crate) type Given = Result<Option<Vec<Value>>, NoMemory>;

// A file within its limit.
fn file(bytes: Vec<u8>) -> Option<Value>
    ensures { option_map (λ v. v ∷ []) result ≡ kept (File bytes.items ∷ []) }
{
    if bytes.len() <= FILE_LIMIT {
        Some(Value::File {
            bytes: Blob::of(bytes),
        })
    } else {
        None
    }
}

fn one(alloc: Global, value: Option<Value>) -> Given
    ensures { IfOk result (λ outs. option_map (λ v. v.items) outs
        ≡ option_map (λ v. v ∷ []) value) }
{
    match value {
        Some(value) => {
            let mut outs = Vec::new(alloc);
            outs.push(value)?;
            Ok(Some(outs))
        }
        None => Ok(None),
    }
}

/// One file.
pub(crate) fn give_file(alloc: Global, bytes: Vec<u8>) -> Given
    ensures { IfOk result (λ outs. option_map (λ v. v.items) outs
        ≡ kept (File bytes.items ∷ [])) }
{
    one(alloc, file(bytes))
}

/// Two files.
pub(crate) fn give_files(alloc: Global, first: Vec<u8>, second: Vec<u8>) -> Given
    ensures { IfOk result (λ outs. option_map (λ v. v.items) outs
        ≡ kept (File first.items ∷ File second.items ∷ [])) }
{
    match (file(first), file(second)) {
        (Some(first), Some(second)) => {
            let mut outs = Vec::new(alloc);
            outs.push(first)?;
            outs.push(second)?;
            Ok(Some(outs))
        }
        _ => Ok(None),
    }
}

fn number(n: usize) -> Option<Value>
    ensures { option_map (λ v. v ∷ []) result ≡ kept (Int (pos n) ∷ []) }
{
    match i64::try_from(n) {
        Ok(v) => Some(Value::Int { v }),
        Err(_) => None,
    }
}

/// Two numbers.
pub(crate) fn give_numbers(alloc: Global, first: usize, second: usize) -> Given
    ensures { IfOk result (λ outs. option_map (λ v. v.items) outs
        ≡ kept (Int (pos first) ∷ Int (pos second) ∷ [])) }
{
    match (number(first), number(second)) {
        (Some(first), Some(second)) => {
            let mut outs = Vec::new(alloc);
            outs.push(first)?;
            outs.push(second)?;
            Ok(Some(outs))
        }
        _ => Ok(None),
    }
}

/// A number, where there is one.
pub(crate) fn give_sum(alloc: Global, sum: Option<i64>) -> Given
    ensures { IfOk result (λ outs. option_map (λ v. v.items) outs
        ≡ option_and_then kept (option_map (λ v. Int v ∷ []) sum)) }
{
    one(alloc, sum.map(|v| Value::Int { v }))
}

/// A string, where these bytes are one.
pub(crate) fn give_text(alloc: Global, bytes: &[u8]) -> Given
    ensures { IfOk result (λ outs. option_map (λ v. v.items) outs
        ≡ kept (Str bytes.now ∷ [])) }
{
    match Text::read(alloc, bytes) {
        Ok(s) => one(alloc, Some(Value::Str { s })),
        Err(TextErr::NoMemory) => Err(NoMemory),
        Err(TextErr::Long { .. } | TextErr::BadByte { .. }) => Ok(None),
    }
}
