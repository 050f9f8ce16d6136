// The law of the kit of small operations on files.
ghost use Rattle.std.specs.Prelude.{◌≡◌, [], ◌∷◌, option_map, IfOk};
ghost use Rattle.gs_site.specs.Kit.{file, joined, grown, counted, kit};

use gs_types::{Blob, FILE_LIMIT, Law, NoMemory, Value};
use std::alloc::Global;

/// The law of three operations: `join` gives a file followed by another, `grow` a file followed by
/// a string and a line feed, `count` a file's number of bytes. Any other name, other inputs in
/// number or kind, and an output that would pass a limit (16,777,216 bytes of a file, 2^63 - 1 of a
/// number) give none.
#[derive(Clone, Copy, Debug, PartialEq, Eq)]
pub struct KitLaw;

impl Law for KitLaw {
    ghost meaning = { λ law. kit };

    fn apply(
        &self,
        alloc: Global,
        op: &[u8],
        ins: &[Value],
    ) -> Result<Option<Vec<Value>>, NoMemory> {
        if op == b"join".as_slice() {
            join(alloc, ins)
        } else if op == b"grow".as_slice() {
            grow(alloc, ins)
        } else if op == b"count".as_slice() {
            count(alloc, ins)
        } else {
            Ok(None)
        }
    }
}

fn one(alloc: Global, value: Value) -> Result<Option<Vec<Value>>, NoMemory>
    ensures { IfOk result (λ outs. option_map (λ v. v.items) outs ≡ Some (value ∷ [])) }
{
    let mut outs = Vec::new(alloc);
    outs.push(value)?;
    Ok(Some(outs))
}

// These bytes as the one output, within the limit of a file.
fn file_of(alloc: Global, bytes: Blob) -> Result<Option<Vec<Value>>, NoMemory>
    ensures { IfOk result (λ outs. option_map (λ v. v.items) outs ≡ file bytes) }
{
    if bytes.bytes().len() <= FILE_LIMIT {
        one(alloc, Value::File { bytes })
    } else {
        Ok(None)
    }
}

fn join(alloc: Global, ins: &[Value]) -> Result<Option<Vec<Value>>, NoMemory>
    ensures { IfOk result (λ outs. option_map (λ v. v.items) outs ≡ joined ins.now) }
{
    match ins {
        [Value::File { bytes: first }, Value::File { bytes: then }] => {
            let mut bytes = Blob::copy(alloc, first.bytes())?;
            bytes.push_all(then.bytes())?;
            file_of(alloc, bytes)
        }
        _ => Ok(None),
    }
}

fn grow(alloc: Global, ins: &[Value]) -> Result<Option<Vec<Value>>, NoMemory>
    ensures { IfOk result (λ outs. option_map (λ v. v.items) outs ≡ grown ins.now) }
{
    match ins {
        [Value::File { bytes: first }, Value::Str { s: then }] => {
            let mut bytes = Blob::copy(alloc, first.bytes())?;
            bytes.push_all(then.bytes())?;
            bytes.push_all(b"\n")?;
            file_of(alloc, bytes)
        }
        _ => Ok(None),
    }
}

fn count(alloc: Global, ins: &[Value]) -> Result<Option<Vec<Value>>, NoMemory>
    ensures { IfOk result (λ outs. option_map (λ v. v.items) outs ≡ counted ins.now) }
{
    match ins {
        [Value::File { bytes }] => match i64::try_from(bytes.bytes().len()) {
            Ok(v) => one(alloc, Value::Int { v }),
            Err(_) => Ok(None),
        },
        _ => Ok(None),
    }
}
