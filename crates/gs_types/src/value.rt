// Values that tasks take and give.
ghost use Rattle.std.specs.Prelude.{◌≡◌, IfOk};

use crate::{Blob, NoMemory, Text};
use std::alloc::Global;

/// A value of a place of an operation: a number, a string or a file's bytes.
#[derive(Debug, Drop)]
pub enum Value {
    Int { v: i64 },
    Str { s: Text },
    File { bytes: Blob },
}

impl Value {
    /// The same value again.
    pub fn copy(&self, alloc: Global) -> Result<Value, NoMemory>
        ensures { IfOk result (λ v. v ≡ self.now) }
    {
        Ok(match self {
            Value::Int { v } => Value::Int { v: *v },
            Value::Str { s } => Value::Str { s: s.copy(alloc)? },
            Value::File { bytes } => Value::File {
                bytes: Blob::copy(alloc, bytes.bytes())?,
            },
        })
    }
}
