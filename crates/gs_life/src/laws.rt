//! Laws, as contracts of functions that do nothing.
ghost use Rattle.std.specs.Prelude.{List, ◌∷◌};
ghost use Rattle.gs_life.specs.Origin.{Origin};
ghost use Rattle.gs_life.specs.Lives.{IsLife, AllStand};

use gs_disk::Disk;

/// Where each call keeps what stands, all images of all calls of a life stand, whatever crashes are
/// between them.
pub fn lives_stand<D: Disk>()
    ensures { (o : Origin) (first : D × D) (calls : List (D × D)) →
        IsLife D.state o first calls → AllStand D.state o (first ∷ calls) }
{}
