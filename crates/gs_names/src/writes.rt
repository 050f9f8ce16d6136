// The writes so far, which clauses alone see.
ghost use Rattle.std.specs.Prelude.{◌≡◌, ◌∷◌};
ghost use Rattle.gs_names.specs.Writes.{listed};

use gs_types::{Name, Version};
use std::mem;
use std::snapshot::Snapshot;

/// What was written, the newest write first.
#[derive(Drop)]
pub(crate) enum Writes {
    Start,
    Then(Snapshot<Name>, Snapshot<Version>, Snapshot<Writes>),
}

/// Puts a write in front.
pub(crate) fn tell(writes: &mut Snapshot<Writes>, name: &Name, version: &Version)
    ensures { listed writes.new.value ≡ (name.now, version.now) ∷ listed writes.old.value }
{
    let before = mem::replace(writes, Snapshot::of(&Writes::Start));
    *writes = Snapshot::of(&Writes::Then(Snapshot::of(name), Snapshot::of(version), before));
}

/// The same version again.
pub(crate) fn copy_of(version: &Version) -> Version
    ensures { result ≡ version.now }
{
    match version {
        Version::Original { name } => Version::Original { name: name.copy() },
        Version::Out { n, place } => Version::Out {
            n: *n,
            place: *place,
        },
        Version::Main { k } => Version::Main { k: *k },
    }
}
