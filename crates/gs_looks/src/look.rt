// Looks at the user's files.
#![tactic(auto, unfolding(crate::specs::Looked::looks_in))]

ghost use Rattle.std.specs.Prelude.{◌≡◌};
ghost use Rattle.gs_looks.specs.Looked.{seen_of};

use gs_types::{Name, NoMemory};
use std::alloc::Global;

/// What was seen of a file of the user's: it is absent, longer than a file may be, or has so many
/// bytes.
#[derive(Clone, Copy, Debug, PartialEq, Eq)]
pub enum Seen {
    Absent,
    TooLong,
    Len { len: u64 },
}

/// A file that was looked at.
#[derive(Drop)]
pub(crate) struct Look {
    pub name: Name,
    pub seen: Seen,
}

/// The files that were looked at for one call, at most one for each of its places.
#[derive(Drop)]
pub struct Looks {
    pub(crate) list: Vec<Look>,
}

fn seen_in(list: &[Look], name: &Name) -> Option<Seen>
    ensures { result ≡ seen_of list.now name.now }
{
    for i in 0..list.len() {
        if list[i].name == *name {
            return Some(list[i].seen);
        }
    }
    None
}

impl Looks {
    ghost use Rattle.std.specs.Prelude.{◌≡◌, ◌++◌, ◌∷◌, [], OnOk, OnErr};
    ghost use Rattle.gs_looks.specs.Looked.{looks_in, looked};

    /// Nothing was looked at. It takes no memory.
    pub fn new(alloc: Global) -> Looks
        ensures { looks_in result ≡ [] }
    {
        Looks {
            list: Vec::new(alloc),
        }
    }

    /// A file was looked at. On want of memory nothing changes.
    pub fn add(&mut self, name: Name, seen: Seen) -> Result<(), NoMemory>
        ensures ok { OnOk result (looks_in self.new ≡ looks_in self.old ++ looked name seen ∷ []) }
        ensures err { OnErr result (looks_in self.new ≡ looks_in self.old) }
    {
        self.list.push(Look { name, seen })?;
        Ok(())
    }

    /// What was looked at counts no more.
    pub fn clear(&mut self)
        ensures { looks_in self.new ≡ [] }
    {
        self.list.clear();
    }

    /// What was seen of a file first; `None` exactly where it wasn't looked at.
    pub fn seen(&self, name: &Name) -> Option<Seen>
        ensures { result ≡ seen_of (looks_in self.now) name.now }
    {
        seen_in(&self.list, name)
    }
}
