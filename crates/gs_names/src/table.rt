// The table of names.
#![tactic(auto, unfolding(crate::specs::Table::names_in, crate::specs::Table::writes_in, crate::specs::Table::spare_in))]

ghost use Rattle.std.specs.Prelude.{◌≡◌, ◌<◌, ◌-◌, ◌^◌, length, IfOk};
ghost use Rattle.gs_names.specs.Writes.{listed, finals_of};

use crate::writes::{Writes, copy_of, tell};
use gs_types::{Name, NoMemory, Version};
use indexmap::{IndexMap, IndexSet};
use std::alloc::Global;
use std::snapshot::Snapshot;

/// Names with their numbers, from 0 in the order of first numbering, and their versions.
#[derive(Drop)]
pub struct NameTable {
    names: IndexSet<Name>,
    // The written names in the order of their first writing, with their current versions.
    finals: IndexMap<Name, Version>,
    writes: Snapshot<Writes>,
    ghost few: { length names.keys < 2 ^ 32 },
    ghost told: { finals.entries ≡ finals_of (listed writes.value) },
}

// Each entry again, in order.
fn copies_of(
    alloc: Global,
    finals: &IndexMap<Name, Version>,
) -> Result<Vec<(Name, Version)>, NoMemory>
    ensures { IfOk result (λ v. v.items ≡ finals.now.entries) }
{
    let mut copies = Vec::new(alloc);
    for (name, version) in finals.iter() {
        copies.push((name.copy(), copy_of(version)))?;
    }
    Ok(copies)
}

impl NameTable {
    ghost use Rattle.std.specs.Prelude.{◌≡◌, ◌<◌, ◌≤◌, ◌+◌, ◌-◌, ◌^◌, ◌∷◌, [], length, slice_get, OnOk, OnErr, IfOk, Some};
    ghost use Rattle.gs_names.specs.Writes.{latest, finals_of, first_written, names_of, number_of, with_name, IsNumberOf};
    ghost use Rattle.gs_names.specs.Table.{names_in, writes_in, spare_in};

    /// A table without names. It takes no memory.
    pub fn new(alloc: Global) -> NameTable
        ensures names { names_in result ≡ [] }
        ensures writes { writes_in result ≡ [] }
    {
        NameTable {
            names: IndexSet::new(alloc),
            finals: IndexMap::new(alloc),
            writes: Snapshot::of(&Writes::Start),
        }
    }

    /// The name's number: its own where it has one, else the next. On want of memory nothing
    /// changes.
    pub fn number(&mut self, name: Name) -> Result<u32, NoMemory>
        requires { length (names_in self.old) < 2 ^ 32 - 1 }
        ensures names { OnOk result (names_in self.new ≡ with_name (names_in self.old) name) }
        ensures number { IfOk result (λ i. i ≡ number_of name (names_in self.old)) }
        ensures at { IfOk result (λ i. slice_get (names_in self.new) i ≡ Some name) }
        ensures err { OnErr result (names_in self.new ≡ names_in self.old) }
        ensures writes { writes_in self.new ≡ writes_in self.old }
        ensures spare { spare_in self.new ≡ spare_in self.old }
    {
        let (i, _) = self.names.insert_full(name)?;
        Ok(i as u32)
    }

    /// The name's number; `None` exactly where it has none.
    pub fn number_of(&self, name: &Name) -> Option<u32>
        ensures { IsNumberOf (names_in self.now) name.now result }
    {
        match self.names.get_index_of(name) {
            Some(i) => Some(i as u32),
            None => None,
        }
    }

    /// The name of a number that was given.
    pub fn name(&self, i: u32) -> &Name
        requires { i < length (names_in self.now) }
        ensures { slice_get (names_in self.now) i ≡ Some result.now }
    {
        match self.names.get_index(i as usize) {
            Some(name) => name,
            None => unreachable!(),
        }
    }

    /// How many numbers were given.
    pub fn count(&self) -> u32
        ensures { result ≡ length (names_in self.now) }
    {
        self.names.len() as u32
    }

    /// Takes room for so many writes more. On want of memory nothing changes.
    pub fn reserve(&mut self, more: u32) -> Result<(), NoMemory>
        ensures ok { OnOk result (more ≤ spare_in self.new) }
        ensures spare { spare_in self.old ≤ spare_in self.new }
        ensures names { names_in self.new ≡ names_in self.old }
        ensures writes { writes_in self.new ≡ writes_in self.old }
    {
        self.finals.reserve(more as usize)?;
        Ok(())
    }

    /// The last version that the name was given, else the user's own file.
    pub fn current(&self, name: &Name) -> Version
        ensures { result ≡ latest name.now (writes_in self.now) }
    {
        match self.finals.get(name) {
            Some(version) => copy_of(version),
            None => Version::Original { name: name.copy() },
        }
    }

    /// Gives the name a version. It uses up at most one of the room that `reserve` took.
    pub fn write(&mut self, name: &Name, v: Version)
        requires { 0 < spare_in self.old }
        ensures writes { writes_in self.new ≡ (name.now, v) ∷ writes_in self.old }
        ensures names { names_in self.new ≡ names_in self.old }
        ensures spare { spare_in self.old ≤ spare_in self.new + 1 }
    {
        tell(&mut self.writes, name, &v);
        match self.finals.insert(name.copy(), v) {
            Ok(_) => {}
            Err(_) => unreachable!(),
        }
    }

    /// The written names in the order of their first writing, each with its last version.
    pub fn finals(&self, alloc: Global) -> Result<Vec<(Name, Version)>, NoMemory>
        ensures finals { IfOk result (λ v. v.items ≡ finals_of (writes_in self.now)) }
        ensures names { IfOk result (λ v. names_of v.items ≡ first_written (writes_in self.now)) }
    {
        let finals = copies_of(alloc, &self.finals)?;
        Ok(finals)
    }
}
