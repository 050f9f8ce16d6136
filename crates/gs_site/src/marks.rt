// The marks that a site set, which clauses alone see.
ghost use Rattle.std.specs.Prelude.{◌≡◌, ◌∷◌};
ghost use Rattle.gs_site.specs.Marks.{listed};

use std::mem;
use std::snapshot::Snapshot;

/// Places in a link's history, the newest first.
#[derive(Drop)]
pub(crate) enum Marks {
    Start,
    Then(Snapshot<u64>, Snapshot<Marks>),
}

/// Puts a mark in front.
pub(crate) fn set_mark(marks: &mut Snapshot<Marks>, mark: u64)
    ensures { listed marks.new.value ≡ mark ∷ listed marks.old.value }
{
    let before = mem::replace(marks, Snapshot::of(&Marks::Start));
    *marks = Snapshot::of(&Marks::Then(Snapshot::of(&mark), before));
}
