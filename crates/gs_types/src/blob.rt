// Bytes.
ghost use Rattle.std.specs.Prelude.{◌≡◌, ◌++◌, OnOk, OnErr, IfOk};
ghost use Rattle.gs_types.specs.Bytes.{IsBytes};

use crate::NoMemory;
use std::alloc::Global;
use std::marker::Model;

/// A list of bytes.
#[derive(Debug, Drop)]
pub struct Blob {
    items: Vec<u8>,
}

impl Model for Blob {
    ghost use Rattle.std.specs.Prelude.{ℕ, List};
    ghost use Rattle.gs_types.specs.Bytes.{IsBytes};

    ghost Value = { List ℕ };

    ghost view = { λ b. b.items.items };

    ghost invariant = { λ b. IsBytes b.items.items };
}

impl Blob {
    /// A copy of these bytes.
    pub fn copy(alloc: Global, bytes: &[u8]) -> Result<Blob, NoMemory>
        ensures { IfOk result (λ b. b ≡ bytes.now) }
    {
        Ok(Blob {
            items: Vec::from_slice(alloc, bytes)?,
        })
    }

    /// The bytes of a vector, without a copy.
    pub fn of(items: Vec<u8>) -> Blob
        ensures { result ≡ items.items }
    {
        Blob { items }
    }

    /// The bytes, each below 256.
    pub fn bytes(&self) -> &[u8]
        ensures value { result.now ≡ self.now }
        ensures bytes { IsBytes self.now }
    {
        self.items.as_slice()
    }

    /// Puts these bytes at the end. On want of memory nothing changes.
    pub fn push_all(&mut self, bytes: &[u8]) -> Result<(), NoMemory>
        ensures ok { OnOk result (self.new ≡ self.old ++ bytes.now) }
        ensures err { OnErr result (self.new ≡ self.old) }
    {
        self.items.extend_from_slice(bytes)?;
        Ok(())
    }
}
