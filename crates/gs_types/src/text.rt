// Strings of the main program.
ghost use Rattle.std.specs.Prelude.{◌≡◌, IfOk, MatchResult};
ghost use Rattle.gs_types.specs.Bytes.{is_text_byte};

use crate::{NoMemory, STRING_LIMIT};
use std::alloc::Global;
use std::marker::Model;

/// At most 1,024 bytes, each 9, 10, 13 or from 32 to 126.
#[derive(Debug, Drop)]
pub struct Text {
    items: Vec<u8>,
}

impl Model for Text {
    ghost use Rattle.std.specs.Prelude.{ℕ, List};

    ghost Value = { List ℕ };

    ghost use Rattle.gs_types.specs.Bytes.{IsText};

    ghost view = { λ t. t.items.items };

    ghost invariant = { λ t. IsText t.items.items };
}

/// Why bytes are no string.
#[derive(Clone, Copy, Debug, PartialEq, Eq)]
pub enum TextErr {
    Long { len: usize },
    BadByte { at: usize },
    NoMemory,
}

fn is_text_byte(b: u8) -> bool
    ensures { result ≡ is_text_byte b }
{
    matches!(b, 9 | 10 | 13 | 32..=126)
}

impl Text {
    ghost use Rattle.gs_types.specs.Bytes.{IsBytes, IsText};
    ghost use Rattle.gs_types.specs.Text.{IsTextErr};

    /// Reads a string. `Long` exactly where there are more than 1,024 bytes; else `BadByte` exactly
    /// at the first byte that is none of a string; else want of memory.
    pub fn read(alloc: Global, bytes: &[u8]) -> Result<Text, TextErr>
        ensures { MatchResult result (λ t. (t ≡ bytes.now) × IsText bytes.now)
            (λ e. IsTextErr bytes.now e) }
    {
        if bytes.len() > STRING_LIMIT {
            return Err(TextErr::Long { len: bytes.len() });
        }
        for (at, b) in bytes.iter().enumerate() {
            if !is_text_byte(*b) {
                return Err(TextErr::BadByte { at });
            }
        }
        match Vec::from_slice(alloc, bytes) {
            Ok(items) => Ok(Text { items }),
            Err(_) => Err(TextErr::NoMemory),
        }
    }

    pub fn bytes(&self) -> &[u8]
        ensures value { result.now ≡ self.now }
        ensures text { IsText self.now }
        ensures bytes { IsBytes self.now }
    {
        self.items.as_slice()
    }

    /// The same string again.
    pub fn copy(&self, alloc: Global) -> Result<Text, NoMemory>
        ensures { IfOk result (λ t. t ≡ self.now) }
    {
        Ok(Text {
            items: Vec::from_slice(alloc, &self.items)?,
        })
    }
}
