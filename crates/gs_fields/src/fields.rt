// Reading fields.
ghost use Rattle.std.specs.Prelude.{◌≡◌, ◌<◌, ◌^◌, ◌+◌, [], length, IsTrue, ◌↔◌};
ghost use Rattle.std.specs.Int.{w32, w64};
ghost use Rattle.gs_fields.specs.Fields.{front_at, number_at, signed_at, blob_at};
ghost use Rattle.gs_fields.specs.Format.{byte, four, eight, eight_signed, bytes};
ghost use Rattle.gs_fields.specs.Steps.{Steps, ReadsField};

use std::marker::Model;

/// The rest doesn't hold the field. `at` is the reader's place in bytes, from 0, at which it stays.
#[derive(Clone, Copy, Debug, PartialEq, Eq)]
pub struct Short {
    pub at: usize,
}

/// A reader of fields, from left to right. Each call answers `Short` exactly where the rest doesn't
/// hold its field, and reads exactly what the call of the same name in `put_` appends, whatever
/// follows.
#[derive(Drop)]
pub struct Fields<'a> {
    at: usize,
    rest: &'a [u8],
}

impl<'a> Model for Fields<'a> {
    ghost use Rattle.std.specs.Prelude.{◌+◌, ◌<◌, ◌^◌, length};
    ghost use Rattle.gs_types.specs.Bytes.{IsBytes};
    ghost use Rattle.gs_fields.specs.Fields.{Reader};

    ghost Value = { Reader };

    ghost view = { λ f. record { at = f.at; rest = f.rest.now } };

    ghost invariant = { λ f. (f.at + length f.rest.now < 2 ^ 64) × IsBytes f.rest.now };
}

impl<'a> Fields<'a> {
    /// A reader at the first of these bytes.
    pub fn new(bytes: &'a [u8]) -> Fields<'a>
        ensures { result ≡ record { at = 0; rest = bytes.now } }
    {
        Fields { at: 0, rest: bytes }
    }

    /// All bytes were read.
    pub fn at_end(&self) -> bool
        ensures { IsTrue result ↔ (self.now.rest ≡ []) }
    {
        self.rest.is_empty()
    }

    fn front(&mut self, len: usize) -> Result<&'a [u8], Short>
        ensures { Steps (λ x. x.now) self.old self.new result (front_at len self.old.rest) }
    {
        if self.rest.len() < len {
            return Err(Short { at: self.at });
        }
        let (front, rest) = self.rest.split_at(len);
        self.rest = rest;
        self.at += len;
        Ok(front)
    }

    fn read_u8(&mut self) -> Result<u8, Short>
        ensures { Steps (λ x. x) self.old self.new result (byte.read self.old.rest) }
    {
        match self.rest {
            [] => Err(Short { at: self.at }),
            [b, rest @ ..] => {
                self.rest = rest;
                self.at += 1;
                Ok(*b)
            }
        }
    }

    /// The next byte.
    pub fn next_u8(&mut self) -> Result<u8, Short>
        ensures { ReadsField byte (λ x. x) self.old self.new result }
    {
        let _ = &self.rest;
        self.read_u8()
    }

    fn read_u32(&mut self) -> Result<u32, Short>
        ensures { Steps (λ x. x) self.old self.new result (number_at w32 self.old.rest) }
    {
        let b = self.front(4)?;
        Ok(u32::from_le_bytes([b[0], b[1], b[2], b[3]]))
    }

    /// The next number of four bytes.
    pub fn next_u32(&mut self) -> Result<u32, Short>
        ensures { ReadsField four (λ x. x) self.old self.new result }
    {
        let _ = &self.rest;
        self.read_u32()
    }

    fn read_u64(&mut self) -> Result<u64, Short>
        ensures { Steps (λ x. x) self.old self.new result (number_at w64 self.old.rest) }
    {
        let b = self.front(8)?;
        Ok(u64::from_le_bytes([b[0], b[1], b[2], b[3], b[4], b[5], b[6], b[7]]))
    }

    /// The next number of eight bytes.
    pub fn next_u64(&mut self) -> Result<u64, Short>
        ensures { ReadsField eight (λ x. x) self.old self.new result }
    {
        let _ = &self.rest;
        self.read_u64()
    }

    fn read_i64(&mut self) -> Result<i64, Short>
        ensures { Steps (λ x. x) self.old self.new result (signed_at self.old.rest) }
    {
        let b = self.front(8)?;
        Ok(i64::from_le_bytes([b[0], b[1], b[2], b[3], b[4], b[5], b[6], b[7]]))
    }

    /// The next signed number of eight bytes.
    pub fn next_i64(&mut self) -> Result<i64, Short>
        ensures { ReadsField eight_signed (λ x. x) self.old self.new result }
    {
        let _ = &self.rest;
        self.read_i64()
    }

    fn read_blob(&mut self) -> Result<&'a [u8], Short>
        ensures { Steps (λ x. x.now) self.old self.new result (blob_at self.old.rest) }
    {
        let at = self.at;
        let rest = self.rest;
        let len = self.read_u32()?;
        let found = self.front(len as usize);
        if found.is_err() {
            self.at = at;
            self.rest = rest;
            return Err(Short { at });
        }
        found
    }

    /// The next byte string, by its length.
    pub fn next_blob(&mut self) -> Result<&'a [u8], Short>
        ensures { ReadsField bytes (λ x. x.now) self.old self.new result }
    {
        let _ = &self.rest;
        self.read_blob()
    }
}
