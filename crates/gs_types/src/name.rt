// Names of files, as users write them.
ghost use Rattle.std.specs.Prelude.{◌≡◌, IfOk, IfErr, MatchResult};
ghost use Rattle.gs_types.specs.Bytes.{IsBytes};
ghost use Rattle.gs_types.specs.Name.{is_name_byte, may_stand, IsName, IsBadAt};

use crate::NAME_LENGTH;
use std::fmt::{self, Debug, Formatter, Write};
use std::hash::{Hash, Hasher};
use std::marker::Model;
use std::str;

/// 1 to 200 letters, digits, `.`, `_` and `-`, of which the first is no `.`.
#[derive(Drop)]
pub struct Name {
    size: usize,
    text: [u8; NAME_LENGTH],
}

impl Model for Name {
    ghost use Rattle.std.specs.Prelude.{ℕ, List, ◌≤◌, take};
    ghost use Rattle.gs_types.specs.declared.limits.TheConstants.{NAME_LENGTH};
    ghost use Rattle.gs_types.specs.Name.{IsName};

    ghost Value = { List ℕ };

    ghost view = { λ n. take n.size n.text };

    ghost invariant = { λ n. (n.size ≤ NAME_LENGTH) × IsName (take n.size n.text) };
}

/// The first place at which bytes are no name.
#[derive(Clone, Copy, Debug, PartialEq, Eq)]
pub struct BadName {
    pub at: usize,
}

fn is_name_byte(b: u8) -> bool
    ensures { result ≡ is_name_byte b }
{
    matches!(b, b'0'..=b'9' | b'A'..=b'Z' | b'a'..=b'z' | b'.' | b'_' | b'-')
}

fn may_stand(at: usize, b: u8) -> bool
    ensures { result ≡ may_stand at b }
{
    is_name_byte(b) && !(at == 0 && b == b'.')
}

impl Name {
    /// Reads a name. `BadName` exactly where the bytes are none, with the first place that is
    /// wrong: 0 for no bytes, 200 for more than 200.
    pub fn read(bytes: &[u8]) -> Result<Name, BadName>
        ensures { MatchResult result (λ n. (n ≡ bytes.now) × IsName n)
            (λ e. IsBadAt bytes.now e.at) }
    {
        for (at, b) in bytes.iter().enumerate() {
            if at == NAME_LENGTH || !may_stand(at, *b) {
                return Err(BadName { at });
            }
        }
        if bytes.is_empty() {
            return Err(BadName { at: 0 });
        }
        let mut text = [0u8; NAME_LENGTH];
        text[..bytes.len()].copy_from_slice(bytes);
        Ok(Name {
            size: bytes.len(),
            text,
        })
    }

    pub fn bytes(&self) -> &[u8]
        ensures value { result.now ≡ self.now }
        ensures name { IsName self.now }
        ensures bytes { IsBytes self.now }
    {
        &self.text[..self.size]
    }

    /// The same name again.
    pub fn copy(&self) -> Name
        ensures { result ≡ self.now }
    {
        Name {
            size: self.size,
            text: self.text,
        }
    }
}

impl PartialEq for Name {
    ghost use Rattle.std.specs.Prelude.{bytes_eq};
    ghost use Rattle.std.specs.Cmp.{partial_equiv_from_equiv};
    ghost use Rattle.std.proofs.lemmas.Cmp.{nat_list_eq_equiv};

    ghost eq = { bytes_eq };

    ghost laws = { partial_equiv_from_equiv nat_list_eq_equiv };

    fn eq(&self, other: &Name) -> bool {
        self.bytes() == other.bytes()
    }
}

impl Eq for Name {
    ghost use Rattle.std.proofs.lemmas.Cmp.{nat_list_eq_equiv};

    ghost laws = { nat_list_eq_equiv };
}

impl Hash for Name {
    ghost use Rattle.std.proofs.Common.{rules};
    ghost use Rattle.std.specs.Hash as fed;
    ghost use Rattle.std.specs.Cmp.Rules.{hashing};

    ghost hash_input = { fed.slice fed.u8 };

    ghost respects_eq = { Prim.search (hashing, rules) };

    fn hash<H: Hasher>(&self, state: &mut H) {
        self.bytes().hash(state);
    }
}

impl Debug for Name {
    fn fmt<W: Write>(&self, f: &mut Formatter<W>) -> fmt::Result {
        match str::from_utf8(self.bytes()) {
            Ok(text) => f.debug_tuple("Name").field(&text).finish(),
            Err(_) => f.write_str("Name"),
        }
    }
}
