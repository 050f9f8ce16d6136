// Laws, as contracts of functions that do nothing.
ghost use Rattle.std.specs.Prelude.{ℕ, List, ◌∷◌};
ghost use Rattle.gs_life.specs.Origin.{Origin};
ghost use Rattle.gs_run.specs.Lives.{Seen, IsLife, AllKeep};

use gs_disk::Disk;
use gs_site::Link;
use gs_types::Sink;

/// Each call of a life of a run keeps what a run promises: over a disk that tells its folder, of
/// calls that begin with the same texts, each over the disk as the call before left it, or as a
/// crash within that call left it, whatever their settings and their lists of workers are.
pub fn lives_keep<D: Disk, K: Link, O: Sink>()
    ensures { D.tells → (o : Origin) (idl program : List ℕ) (first : Seen D K)
        (calls : List (Seen D K)) → IsLife D.state K.tells D.tells O.tells o idl program first calls
        → AllKeep D.state K.tells O.tells o idl program (first ∷ calls) }
{}
