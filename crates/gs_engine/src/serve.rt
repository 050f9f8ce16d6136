// What the core needs from the disk.
ghost use Rattle.std.specs.Prelude.{◌≡◌, IfErr, OnOk, length};
ghost use Rattle.gs_types.specs.declared.note.Version.TheVariants as versions;
ghost use Rattle.gs_entries.specs.Order.{stage_of};
ghost use Rattle.gs_entries.specs.declared.entry.Stage.TheVariants as stages;
ghost use Rattle.gs_store.specs.State.{IsDiskOf};
ghost use Rattle.gs_store.specs.Told.{FailsOutside, PutsVersion};
ghost use Rattle.gs_site.specs.Site.{disk_of, link_of, mark_of};
ghost use Rattle.gs_core.specs.Stages.{IsAnswered, IsStageOf};
ghost use Rattle.gs_core.specs.declared.stage.Stage.TheVariants as stage;
ghost use Rattle.gs_core.specs.declared.stage.Step.TheVariants as step;
ghost use Rattle.gs_finish.specs.Halting.{HaltCaused};
ghost use Rattle.gs_engine.specs.Joined.{Goes};
ghost use Rattle.gs_engine.specs.Reading.{LacksLength};
ghost use Rattle.gs_engine.specs.Sane.{Sane, moment_of};
ghost use Rattle.gs_engine.specs.Steps.{Needs, always, whatever};
ghost use Rattle.gs_engine.specs.Users.{UsersStay};

use crate::reading::{know_name, load, look};
use gs_core::{Core, Step};
use gs_disk::Disk;
use gs_finish::Halt;
use gs_site::{Link, Site};
use gs_store::{Store, StoreErr};
use gs_types::{Blob, FILE_LIMIT, Name, Version};
use std::alloc::Global;

// Keeps content `k` that the program closed.
fn save<D: Disk>(store: &mut Store, disk: &mut D, k: u32, bytes: &Blob) -> Result<(), StoreErr>
    requires running { stage_of store.old.entries ≡ stages.Running }
    requires disk_of_store { D.tells → IsDiskOf store.old (D.state disk.old) }
    ensures same { store.new ≡ store.old }
    ensures puts { D.tells → PutsVersion store.old (versions.Main k) bytes.now (D.state disk.old)
        (D.state disk.new) result }
    ensures users { D.tells → UsersStay (D.state disk.old) (D.state disk.new) }
    ensures fails { FailsOutside (D.state disk.old) (D.state disk.new) result }
{
    if bytes.bytes().len() > FILE_LIMIT {
        return Err(StoreErr::NoMemory);
    }
    store.put_main(disk, k, bytes.bytes())
}

// Looks at a file of the user's.
fn look_at<D: Disk, K: Link>(
    core: &mut Core,
    store: &Store,
    site: &mut Site<D, K>,
    name: &Name,
) -> Result<(), Halt>
    requires due { core.old.stage ≡ stage.Looking name.now }
    requires sane { Sane D.tells D.state K.jobs (moment_of core.old store.now site.old) }
    ensures answered { OnOk result (IsAnswered core.new.stage) }
    ensures sane { OnOk result
        (Sane D.tells D.state K.jobs (moment_of core.new store.now site.new)) }
    ensures link { link_of site.new ≡ link_of site.old }
    ensures mark { mark_of site.new ≡ mark_of site.old }
    ensures refused { D.tells → IfErr result (LacksLength (D.state (disk_of site.new)).folder) }
    ensures users { D.tells → UsersStay (D.state (disk_of site.old)) (D.state (disk_of site.new)) }
    ensures cause { HaltCaused (D.state (disk_of site.old)) (D.state (disk_of site.new)) result }
    ensures goes { D.tells → Goes D.state K.tells K.jobs (λ l. K.L.meaning (K.law l))
        (moment_of core.old store.now site.old) (moment_of core.new store.now site.new)
        (Needs core.old (step.Look name.now)) whatever result }
{
    match look(site.disk(), name) {
        Ok(seen) => {
            core.looked(seen);
            Ok(())
        }
        Err(halt) => Err(halt),
    }
}

// Reads a version that the program opens.
fn load_at<D: Disk, K: Link>(
    alloc: Global,
    core: &mut Core,
    store: &Store,
    site: &mut Site<D, K>,
    version: &Version,
    kept: Option<u64>,
) -> Result<(), Halt>
    requires due { core.old.stage ≡ stage.Loading }
    requires sane { Sane D.tells D.state K.jobs (moment_of core.old store.now site.old) }
    ensures answered { OnOk result (IsAnswered core.new.stage) }
    ensures sane { OnOk result
        (Sane D.tells D.state K.jobs (moment_of core.new store.now site.new)) }
    ensures link { link_of site.new ≡ link_of site.old }
    ensures mark { mark_of site.new ≡ mark_of site.old }
    ensures refused { D.tells → IfErr result (LacksLength (D.state (disk_of site.new)).folder) }
    ensures users { D.tells → UsersStay (D.state (disk_of site.old)) (D.state (disk_of site.new)) }
    ensures cause { HaltCaused (D.state (disk_of site.old)) (D.state (disk_of site.new)) result }
    ensures goes { D.tells → Goes D.state K.tells K.jobs (λ l. K.L.meaning (K.law l))
        (moment_of core.old store.now site.old) (moment_of core.new store.now site.new)
        (Needs core.old (step.Load version.now kept)) whatever result }
{
    know_name(version);
    match load(alloc, store, site.disk(), version, kept) {
        Ok(loaded) => {
            core.loaded(loaded);
            Ok(())
        }
        Err(halt) => Err(halt),
    }
}

// Keeps content `k` that the program closed, and says so.
fn save_at<D: Disk, K: Link>(
    core: &mut Core,
    store: &mut Store,
    site: &mut Site<D, K>,
    k: u32,
    bytes: &Blob,
) -> Result<(), Halt>
    requires due { core.old.stage ≡ stage.Saving (length bytes.now) }
    requires sane { Sane D.tells D.state K.jobs (moment_of core.old store.old site.old) }
    ensures answered { OnOk result (IsAnswered core.new.stage) }
    ensures sane { OnOk result
        (Sane D.tells D.state K.jobs (moment_of core.new store.new site.new)) }
    ensures store { store.new ≡ store.old }
    ensures link { link_of site.new ≡ link_of site.old }
    ensures mark { mark_of site.new ≡ mark_of site.old }
    ensures refused { D.tells → IfErr result (LacksLength (D.state (disk_of site.new)).folder) }
    ensures users { D.tells → UsersStay (D.state (disk_of site.old)) (D.state (disk_of site.new)) }
    ensures cause { HaltCaused (D.state (disk_of site.old)) (D.state (disk_of site.new)) result }
    ensures goes { D.tells → Goes D.state K.tells K.jobs (λ l. K.L.meaning (K.law l))
        (moment_of core.old store.old site.old) (moment_of core.new store.new site.new)
        (Needs core.old (step.Save k bytes.now)) whatever result }
{
    match save(store, site.disk(), k, bytes) {
        Ok(()) => {
            core.saved();
            Ok(())
        }
        Err(failure) => Err(Halt::from(failure)),
    }
}

// Does what the core needs next.
fn settle_one<D: Disk, K: Link>(
    alloc: Global,
    core: &mut Core,
    store: &mut Store,
    site: &mut Site<D, K>,
    step: &Step,
) -> Result<(), Halt>
    requires due { IsStageOf step.now core.old.stage }
    requires sane { Sane D.tells D.state K.jobs (moment_of core.old store.old site.old) }
    ensures answered { OnOk result (IsAnswered core.new.stage) }
    ensures sane { OnOk result
        (Sane D.tells D.state K.jobs (moment_of core.new store.new site.new)) }
    ensures store { store.new ≡ store.old }
    ensures link { link_of site.new ≡ link_of site.old }
    ensures mark { mark_of site.new ≡ mark_of site.old }
    ensures refused { D.tells → IfErr result (LacksLength (D.state (disk_of site.new)).folder) }
    ensures users { D.tells → UsersStay (D.state (disk_of site.old)) (D.state (disk_of site.new)) }
    ensures cause { HaltCaused (D.state (disk_of site.old)) (D.state (disk_of site.new)) result }
    ensures goes { D.tells → Goes D.state K.tells K.jobs (λ l. K.L.meaning (K.law l))
        (moment_of core.old store.old site.old) (moment_of core.new store.new site.new)
        (Needs core.old step.now) whatever result }
{
    match step {
        Step::Look { name } => look_at(core, store, site, name),
        Step::Load { version, kept } => load_at(alloc, core, store, site, version, *kept),
        Step::Save { k, bytes } => save_at(core, store, site, *k, bytes),
        Step::Settled => Ok(()),
    }
}

/// Asks and answers until the core has settled.
pub(crate) fn settle<D: Disk, K: Link>(
    alloc: Global,
    core: &mut Core,
    store: &mut Store,
    site: &mut Site<D, K>,
) -> Result<(), Halt>
    requires answered { IsAnswered core.old.stage }
    requires sane { Sane D.tells D.state K.jobs (moment_of core.old store.old site.old) }
    ensures settled { OnOk result (core.new.stage ≡ stage.Settled) }
    ensures sane { OnOk result
        (Sane D.tells D.state K.jobs (moment_of core.new store.new site.new)) }
    ensures store { store.new ≡ store.old }
    ensures link { link_of site.new ≡ link_of site.old }
    ensures mark { mark_of site.new ≡ mark_of site.old }
    ensures refused { D.tells → IfErr result (LacksLength (D.state (disk_of site.new)).folder) }
    ensures users { D.tells → UsersStay (D.state (disk_of site.old)) (D.state (disk_of site.new)) }
    ensures cause { HaltCaused (D.state (disk_of site.old)) (D.state (disk_of site.new)) result }
    ensures goes { D.tells → Goes D.state K.tells K.jobs (λ l. K.L.meaning (K.law l))
        (moment_of core.old store.old site.old) (moment_of core.new store.new site.new)
        always whatever result }
{
    for _i in 0..u64::MAX {
        let step = match core.advance() {
            Err(_) => return Err(Halt::NoMemory),
            Ok(Step::Settled) => return Ok(()),
            Ok(step) => step,
        };
        let Err(halt) = settle_one(alloc, core, store, site, &step) else {
            continue;
        };
        return Err(halt);
    }
    Err(Halt::NoMemory)
}
