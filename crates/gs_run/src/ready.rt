// Finds out whether a run may begin.
ghost use Rattle.std.specs.Prelude.{◌≡◌, ◌≤◌, true, false, IfOk, IfErr, OnOk};
ghost use Rattle.gs_disk.specs.Folder.{Same};
ghost use Rattle.gs_disk.specs.Moments.{Passes};
ghost use Rattle.gs_entries.specs.Order.{stage_of};
ghost use Rattle.gs_store.specs.Loading.{IsLoaded};
ghost use Rattle.gs_store.specs.Ordered.{HasEnded};
ghost use Rattle.gs_run.specs.Sources.{AreNamed};
ghost use Rattle.gs_run.specs.Ready.{IsOwn, IsOtherOf, HasLoaded, IsUnread, IsAtStage, IsGoing, GoingTold, IsReady, IsUnready, UnreadyEnds, store_in};

use crate::judge::{Plan, judge};
use crate::names::Words;
use crate::refusal::{Unready, unready_of};
use crate::sources::read_sources;
use gs_disk::Disk;
use gs_store::{OtherRun, Stage, Store, Texts};
use std::alloc::Global;

/// What the folder has: results, or a run that may begin or go on.
#[derive(Drop)]
pub(crate) enum Ready {
    Ended {
        store: Store,
    },
    Going {
        texts: Texts,
        store: Store,
        plan: Plan,
    },
}

// Whether nothing is recorded, or it is of these texts.
fn own(store: &Store, texts: &Texts) -> Result<(), OtherRun>
    ensures own { OnOk result (IsOwn store.now.entries texts.now) }
    ensures other { IfErr result (λ e. IsOtherOf store.now.entries texts.now e.what) }
{
    match store.stage() {
        Stage::Fresh => Ok(()),
        Stage::Running | Stage::Gated | Stage::Closed => store.same(texts),
    }
}

// Whether its program has ended.
fn has_ended(store: &Store) -> bool
    ensures yes { result ≡ true → HasEnded (stage_of store.now.entries) }
    ensures no { result ≡ false → HasEnded (stage_of store.now.entries) → ⊥ }
{
    match store.stage() {
        Stage::Fresh | Stage::Running => false,
        Stage::Gated | Stage::Closed => true,
    }
}

// Loads the store, which is to be of these texts.
fn load_own<D: Disk>(alloc: Global, disk: &mut D, texts: &Texts) -> Result<Store, Unready>
    ensures loaded { D.tells → IfOk result (HasLoaded texts.now (D.state disk.new)) }
    ensures refused { D.tells → IfErr result (IsUnread texts.now (D.state disk.new).folder) }
    ensures same { D.tells → (D.state disk.new).folder ≡ (D.state disk.old).folder }
    ensures images { D.tells → Passes Same (D.state disk.old) (D.state disk.new) }
    ensures rise { (D.state disk.old).faults ≤ (D.state disk.new).faults }
    ensures ends { UnreadyEnds (D.state disk.old).faults (D.state disk.new).faults result }
{
    let store = match Store::load(alloc, disk) {
        Ok(store) => store,
        Err(e) => return Err(unready_of(e)),
    };
    match own(&store, texts) {
        Ok(()) => Ok(store),
        Err(OtherRun { what }) => Err(Unready::Other { what }),
    }
}

// Judges the texts of a run that may begin or go on.
fn go_on<D: Disk>(
    alloc: Global,
    disk: &mut D,
    words: &Words,
    texts: Texts,
    store: Store,
) -> Result<Ready, Unready>
    requires goes_on { HasEnded (stage_of store.entries) → ⊥ }
    requires named { AreNamed texts }
    ensures stage { IfOk result IsAtStage }
    ensures goes { IfOk result (IsGoing texts store) }
    ensures judged { D.tells → GoingTold texts ((D.state disk.old).folder words.now.workers)
        words.now.idl words.now.program words.now.workers result }
    ensures same { D.tells → (D.state disk.new).folder ≡ (D.state disk.old).folder }
    ensures images { D.tells → Passes Same (D.state disk.old) (D.state disk.new) }
    ensures rise { (D.state disk.old).faults ≤ (D.state disk.new).faults }
    ensures ends { UnreadyEnds (D.state disk.old).faults (D.state disk.new).faults result }
{
    match judge(alloc, disk, words, &texts) {
        Ok(plan) => Ok(Ready::Going { texts, store, plan }),
        Err(refusal) => Err(Unready::Text { refusal }),
    }
}

/// Reads the texts and the store. Nothing is written. In this order it is refused: an IDL, then a
/// program, that is absent or too long; a folder that has no store; one of a run of other texts;
/// and, where no program has ended, a worker list that is absent, and the first fault of the texts.
pub(crate) fn prepare<D: Disk>(alloc: Global, disk: &mut D, words: &Words) -> Result<Ready, Unready>
    ensures stage { IfOk result IsAtStage }
    ensures ready { D.tells → IfOk result (IsReady (D.state disk.old).folder words.now.idl
        words.now.program words.now.workers) }
    ensures loaded { D.tells → IfOk result (λ r. IsLoaded (D.state disk.new) (store_in r)) }
    ensures unready { D.tells → IfErr result (IsUnready (D.state disk.old).folder words.now.idl
        words.now.program words.now.workers) }
    ensures same { D.tells → (D.state disk.new).folder ≡ (D.state disk.old).folder }
    ensures images { D.tells → Passes Same (D.state disk.old) (D.state disk.new) }
    ensures rise { (D.state disk.old).faults ≤ (D.state disk.new).faults }
    ensures ends { UnreadyEnds (D.state disk.old).faults (D.state disk.new).faults result }
{
    let texts = match read_sources(alloc, disk, &words.idl, &words.program) {
        Ok(texts) => texts,
        Err(refusal) => return Err(Unready::Text { refusal }),
    };
    let store = match load_own(alloc, disk, &texts) {
        Ok(store) => store,
        Err(unready) => return Err(unready),
    };
    if has_ended(&store) {
        return Ok(Ready::Ended { store });
    }
    go_on(alloc, disk, words, texts, store)
}
