// What the operations of a program that is made give.
ghost use Rattle.std.specs.Prelude.{◌≡◌, ◌++◌, ◌∷◌, [], Some, IfOk, option_map};
ghost use Rattle.std.specs.Fmt.{signed_decimal};
ghost use Rattle.sha2.specs.Sha256.{sha256};
ghost use Rattle.gs_types.specs.declared.value.Value.TheVariants as values;
ghost use Rattle.gs_report.specs.Generator.{hash_gives, mark_gives, self_gives};

use gs_types::{Blob, Law, NoMemory, Value};
use sha2::{Digest, Sha256};
use std::alloc::Global;

/// `hash` gives the digest of one file followed by the other, and `mark` that of a file followed by
/// the decimal of a number.
#[derive(Clone, Copy, Debug, PartialEq, Eq)]
pub struct SelfLaw;

// One file: the digest of two pieces.
fn digest_of(alloc: Global, first: &[u8], second: &[u8]) -> Result<Vec<Value>, NoMemory>
    ensures { IfOk result (λ v. v.items ≡ values.File (sha256 (first.now ++ second.now)) ∷ []) }
{
    let mut hasher = Sha256::new();
    hasher.update(first);
    hasher.update(second);
    let digest = hasher.finalize();
    let mut outs = Vec::new(alloc);
    let bytes = Blob::copy(alloc, &digest)?;
    outs.push(Value::File { bytes })?;
    Ok(outs)
}

fn hash(alloc: Global, ins: &[Value]) -> Result<Option<Vec<Value>>, NoMemory>
    ensures { IfOk result (λ outs. option_map (λ v. v.items) outs ≡ hash_gives ins.now) }
{
    match ins {
        [Value::File { bytes: a }, Value::File { bytes: b }] => {
            Ok(Some(digest_of(alloc, a.bytes(), b.bytes())?))
        }
        _ => Ok(None),
    }
}

fn mark(alloc: Global, ins: &[Value]) -> Result<Option<Vec<Value>>, NoMemory>
    ensures { IfOk result (λ outs. option_map (λ v. v.items) outs ≡ mark_gives ins.now) }
{
    match ins {
        [Value::File { bytes }, Value::Int { v }] => {
            let number = format!(in alloc; "{v}")?;
            Ok(Some(digest_of(alloc, bytes.bytes(), number.as_bytes())?))
        }
        _ => Ok(None),
    }
}

impl Law for SelfLaw {
    ghost meaning = { λ law op ins. self_gives op ins };

    fn apply(
        &self,
        alloc: Global,
        op: &[u8],
        ins: &[Value],
    ) -> Result<Option<Vec<Value>>, NoMemory> {
        if op == b"hash".as_slice() {
            hash(alloc, ins)
        } else if op == b"mark".as_slice() {
            mark(alloc, ins)
        } else {
            Ok(None)
        }
    }
}
