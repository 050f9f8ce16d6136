// The store.
ghost use Rattle.std.specs.Prelude.{◌≡◌, ◌≤◌, ◌↔◌, true, false, OnOk, IsSome, IfSome, length, slice_get};
ghost use Rattle.std.specs.Option.{option_copied};
ghost use Rattle.gs_types.specs.declared.limits.TheConstants.{FILE_LIMIT};
ghost use Rattle.gs_entries.specs.Entries.{entry};
ghost use Rattle.gs_entries.specs.Order.{stage_of, has_done, follows};
ghost use Rattle.gs_entries.specs.declared.entry.Stage.TheVariants as stages;
ghost use Rattle.gs_entries.specs.declared.entry.Entry.TheVariants as made;
ghost use Rattle.gs_types.specs.declared.note.Version.TheVariants as versions;
ghost use Rattle.gs_store.specs.Ordered.{AreInOrder, gate_in, HasEnded};
ghost use Rattle.gs_store.specs.State.{IsDiskOf, with_entry};
ghost use Rattle.gs_store.specs.Versions.{AllStand, outs_kept, finals_kept};
ghost use Rattle.gs_store.specs.Told.{FailsOutside, PutsVersion, AddsEntry};

use crate::err::StoreErr;
use crate::files::{append, put_file};
use crate::names::{main_file, out_file};
use gs_disk::Disk;
use gs_entries::{Book, Entry, GateNote, Stage, encode};
use gs_log::Log;
use gs_types::{OutNote, Sequence};
use std::alloc::Global;
use std::marker::Model;

/// The record of a run on a disk. After a call has answered `DiskFault` or `NoMemory` the value
/// isn't used again, but loaded anew.
#[derive(Drop)]
pub struct Store {
    pub(crate) log: Option<Log>,
    pub(crate) book: Book,
}

impl Model for Store {
    ghost use Rattle.std.specs.Prelude.{is_some};
    ghost use Rattle.gs_store.specs.Ordered.{AreInOrder};
    ghost use Rattle.gs_store.specs.State.{StoreState, IsLogOf};

    ghost Value = { StoreState };

    ghost view = { λ s. record { marked = is_some s.log; entries = s.book } };

    ghost invariant = { λ s. IsLogOf s.log s.book × AreInOrder s.book };
}

impl Store {
    /// How far the record is.
    pub fn stage(&self) -> Stage
        ensures { result ≡ stage_of self.now.entries }
    {
        self.book.stage()
    }

    /// An entry says that task `n` is done.
    pub fn has_done(&self, n: u32) -> bool
        ensures { result ≡ has_done self.now.entries n }
    {
        self.book.has_done(n)
    }

    /// The entry of an index, from 0; `None` exactly where there are no more than `i`.
    pub fn entry(&self, i: u32) -> Option<&Entry>
        ensures value { option_copied result ≡ slice_get self.now.entries i }
        ensures in_order { AreInOrder self.now.entries }
    {
        self.book.entries().get(i as usize)
    }

    /// What the main program did and left; `None` exactly where it hasn't ended.
    pub fn gate_note(&self) -> Option<&GateNote>
        ensures value { option_copied result ≡ gate_in self.now.entries }
        ensures ended { IsSome result ↔ HasEnded (stage_of self.now.entries) }
        ensures fits { IfSome result (λ g. entry.fits (made.Gate g.now) ≡ true) }
    {
        for e in self.book.entries() {
            match e {
                Entry::Gate { g } => return Some(g),
                Entry::Header { .. } | Entry::Done { .. } | Entry::Closed => (),
            }
        }
        None
    }

    /// Writes what task `n`, which isn't done, gave at a place, of at most `FILE_LIMIT` bytes.
    /// Nothing is synced. It answers only `DiskFault` and `NoMemory`.
    pub fn put_out<D: Disk>(
        &mut self,
        disk: &mut D,
        n: u32,
        place: u8,
        bytes: &[u8],
    ) -> Result<(), StoreErr>
        requires running { stage_of self.old.entries ≡ stages.Running }
        requires not_done { has_done self.old.entries n ≡ false }
        requires small { length bytes.now ≤ FILE_LIMIT }
        requires disk_of_store { D.tells → IsDiskOf self.old (D.state disk.old) }
        ensures same { self.new ≡ self.old }
        ensures puts { D.tells → PutsVersion self.old (versions.Out n place) bytes.now
            (D.state disk.old) (D.state disk.new) result }
        ensures fails { FailsOutside (D.state disk.old) (D.state disk.new) result }
    {
        let _ = &self.book;
        put_file(disk, &out_file(n, place), bytes)?;
        Ok(())
    }

    /// Writes the content `k` that the main program wrote, of at most `FILE_LIMIT` bytes. Nothing
    /// is synced. It answers only `DiskFault` and `NoMemory`.
    pub fn put_main<D: Disk>(&mut self, disk: &mut D, k: u32, bytes: &[u8]) -> Result<(), StoreErr>
        requires running { stage_of self.old.entries ≡ stages.Running }
        requires small { length bytes.now ≤ FILE_LIMIT }
        requires disk_of_store { D.tells → IsDiskOf self.old (D.state disk.old) }
        ensures same { self.new ≡ self.old }
        ensures puts { D.tells → PutsVersion self.old (versions.Main k) bytes.now
            (D.state disk.old) (D.state disk.new) result }
        ensures fails { FailsOutside (D.state disk.old) (D.state disk.new) result }
    {
        let _ = &self.book;
        put_file(disk, &main_file(k), bytes)?;
        Ok(())
    }

    /// Adds an entry that is within the limits and may stand behind the others. A crash leaves the
    /// entries as they were, or with the new one.
    pub(crate) fn add<D: Disk>(
        &mut self,
        alloc: Global,
        disk: &mut D,
        e: Entry,
    ) -> Result<(), StoreErr>
        requires fits { entry.fits e ≡ true }
        requires order { follows self.old.entries e ≡ true }
        requires marked { self.old.marked ≡ true }
        requires disk_of_store { D.tells → IsDiskOf self.old (D.state disk.old) }
        ensures store { OnOk result (self.new ≡ with_entry self.old e) }
        ensures adds { D.tells
            → AddsEntry self.old e (D.state disk.old) (D.state disk.new) result }
        ensures fails { FailsOutside (D.state disk.old) (D.state disk.new) result }
    {
        let payload = encode(alloc, &e)?;
        let log = match &mut self.log {
            Some(log) => log,
            None => unreachable!(),
        };
        if let Err(failure) = append(log, disk, &payload) {
            return Err(failure);
        }
        match self.book.push(e) {
            Ok(()) => Ok(()),
            Err(_) => {
                self.log = None;
                self.book = Book::new(alloc);
                Err(StoreErr::NoMemory)
            }
        }
    }

    /// Records what task `n`, which isn't done, gave: its files stand with their lengths. Once this
    /// has answered `Ok`, every image has the entry, and the files as they read. It answers only
    /// `DiskFault` and `NoMemory`.
    pub fn done<D: Disk>(
        &mut self,
        alloc: Global,
        disk: &mut D,
        n: u32,
        op: u8,
        outs: Vec<OutNote>,
    ) -> Result<(), StoreErr>
        requires running { stage_of self.old.entries ≡ stages.Running }
        requires not_done { has_done self.old.entries n ≡ false }
        requires fits { entry.fits (made.Done n op outs.items) ≡ true }
        requires files_stand { D.tells
            → AllStand (D.state disk.old).folder (outs_kept n outs.items) }
        requires disk_of_store { D.tells → IsDiskOf self.old (D.state disk.old) }
        ensures store { OnOk result (self.new ≡ with_entry self.old (made.Done n op outs.items)) }
        ensures adds { D.tells → AddsEntry self.old (made.Done n op outs.items)
            (D.state disk.old) (D.state disk.new) result }
        ensures fails { FailsOutside (D.state disk.old) (D.state disk.new) result }
    {
        let _ = &self.book;
        let outs = Sequence::of(outs);
        self.add(alloc, disk, Entry::Done { n, op, outs })
    }

    /// Records what the main program did and left: the files of its finals stand with their
    /// lengths. It answers only `DiskFault` and `NoMemory`.
    pub fn gate<D: Disk>(
        &mut self,
        alloc: Global,
        disk: &mut D,
        g: GateNote,
    ) -> Result<(), StoreErr>
        requires running { stage_of self.old.entries ≡ stages.Running }
        requires fits { entry.fits (made.Gate g) ≡ true }
        requires files_stand { D.tells
            → AllStand (D.state disk.old).folder (finals_kept g.finals) }
        requires disk_of_store { D.tells → IsDiskOf self.old (D.state disk.old) }
        ensures store { OnOk result (self.new ≡ with_entry self.old (made.Gate g)) }
        ensures adds { D.tells
            → AddsEntry self.old (made.Gate g) (D.state disk.old) (D.state disk.new) result }
        ensures fails { FailsOutside (D.state disk.old) (D.state disk.new) result }
    {
        let _ = &self.book;
        self.add(alloc, disk, Entry::Gate { g })
    }

    /// Records that the results are in the user's files. It answers only `DiskFault` and
    /// `NoMemory`.
    pub fn close<D: Disk>(&mut self, alloc: Global, disk: &mut D) -> Result<(), StoreErr>
        requires gated { stage_of self.old.entries ≡ stages.Gated }
        requires disk_of_store { D.tells → IsDiskOf self.old (D.state disk.old) }
        ensures store { OnOk result (self.new ≡ with_entry self.old made.Closed) }
        ensures adds { D.tells
            → AddsEntry self.old made.Closed (D.state disk.old) (D.state disk.new) result }
        ensures fails { FailsOutside (D.state disk.old) (D.state disk.new) result }
    {
        let _ = &self.book;
        self.add(alloc, disk, Entry::Closed)
    }
}
