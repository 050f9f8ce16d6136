// Names of files on the disk.
ghost use Rattle.std.specs.Prelude.{◌≡◌, ◌==◌, ◌↔◌, IsTrue};
ghost use Rattle.std.specs.Cmp.{partial_order_from_own_ties};
ghost use Rattle.std.specs.Cmp.Rules.{comparing};
ghost use Rattle.std.specs.Cmp.Lexicographic.{slice_cmp, pointwise};
ghost use Rattle.std.specs.Ordering.{nat_cmp, as_partial_cmp};
ghost use Rattle.std.proofs.Common.{rules};
ghost use Rattle.gs_disk.specs.Name.{is_name_byte, IsDiskName};

use std::alloc::AllocError;
use std::cmp::Ordering;
use std::marker::Model;

/// 1 to 200 letters, digits, `.`, `_` and `-`.
#[derive(Drop)]
pub struct DiskName {
    size: usize,
    text: [u8; 200],
}

impl Model for DiskName {
    ghost use Rattle.std.specs.Prelude.{ℕ, List, ◌≤◌, take};
    ghost use Rattle.gs_disk.specs.Name.{IsDiskName};

    ghost Value = { List ℕ };

    ghost view = { λ n. take n.size n.text };

    ghost invariant = { λ n. (n.size ≤ 200) × IsDiskName (take n.size n.text) };
}

fn is_name_byte(b: u8) -> bool
    ensures { result ≡ is_name_byte b }
{
    matches!(b, b'0'..=b'9' | b'A'..=b'Z' | b'a'..=b'z' | b'.' | b'_' | b'-')
}

/// The bytes are a name on the disk.
pub fn is_disk_name(bytes: &[u8]) -> bool
    ensures { IsTrue result ↔ IsDiskName bytes.now }
{
    if bytes.is_empty() || bytes.len() > 200 {
        return false;
    }
    for b in bytes {
        if !is_name_byte(*b) {
            return false;
        }
    }
    true
}

impl DiskName {
    /// The name with these bytes.
    pub fn of(bytes: &[u8]) -> DiskName
        requires { IsDiskName bytes.now }
        ensures { result ≡ bytes.now }
    {
        let mut text = [0u8; 200];
        text[..bytes.len()].copy_from_slice(bytes);
        DiskName {
            size: bytes.len(),
            text,
        }
    }

    pub fn bytes(&self) -> &[u8]
        ensures value { result.now ≡ self.now }
        ensures name { IsDiskName self.now }
    {
        &self.text[..self.size]
    }

    /// The same name again.
    pub fn copy(&self) -> DiskName
        ensures { result ≡ self.now }
    {
        DiskName {
            size: self.size,
            text: self.text,
        }
    }
}

impl PartialEq for DiskName {
    ghost eq = { pointwise ◌==◌ };

    ghost laws = { Prim.search (comparing, rules) };

    fn eq(&self, other: &DiskName) -> bool {
        self.bytes() == other.bytes()
    }
}

impl Eq for DiskName {
    ghost laws = { Prim.search (comparing, rules) };
}

impl PartialOrd for DiskName {
    ghost partial_cmp = { as_partial_cmp (slice_cmp nat_cmp) };

    ghost laws = { partial_order_from_own_ties (Prim.search (comparing, rules))
        (Prim.search (comparing, rules)) };

    fn partial_cmp(&self, other: &DiskName) -> Option<Ordering> {
        Some(self.cmp(other))
    }
}

impl Ord for DiskName {
    ghost cmp = { slice_cmp nat_cmp };

    ghost total = { Prim.search (comparing, rules) };

    ghost matches_partial_cmp = { Prim.search (comparing, rules) };

    ghost matches_eq = { Prim.search (comparing, rules) };

    fn cmp(&self, other: &DiskName) -> Ordering {
        self.bytes().cmp(other.bytes())
    }
}

impl Clone for DiskName {
    ghost is_clone = { λ a b. b ≡ a };

    fn clone(&self) -> Result<DiskName, AllocError> {
        Ok(self.copy())
    }
}
