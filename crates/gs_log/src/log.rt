// The log: a list of payloads.
ghost use Rattle.std.specs.Prelude.{◌≡◌, ◌<◌, ◌≤◌, ◌++◌, ◌⊎◌, [], ◌∷◌, ℕ, List, None, IfOk, IfErr, OnOk, OnErr, length, slice_index_or};
ghost use Rattle.std.specs.Int.{w32, to_le_bytes};
ghost use Rattle.gs_disk.specs.Folder.{Folder, KeepsOthers, Same};
ghost use Rattle.gs_disk.specs.Moments.{Passes, LeavesOnly, EachNow, Always};
ghost use Rattle.gs_types.specs.Bytes.{IsBytes};
ghost use Rattle.gs_log.specs.declared.limits.TheConstants.{MAX_PAYLOAD, MAX_RECORDS};
ghost use Rattle.gs_log.specs.Fits.{Fits};
ghost use Rattle.gs_log.specs.Names.{log_name, mark_name};
ghost use Rattle.gs_log.specs.Holding.{Holds, IsBeforeOrAfter, IsNoneOrEmpty};
ghost use Rattle.gs_log.specs.declared.err.LogErr.TheVariants.{NoMemory};
ghost use Rattle.gs_log.specs.Told.{Refuses, IsOutside, HasCause};

use crate::LogErr;
use crate::bytes::{closed_record, part};
use crate::names::{log_file, mark_file};
use crate::place::Place;
use crate::reading::parse;
use crate::steps::{add_record, make_files};
use gs_disk::{Disk, Whole, read_whole};
use std::alloc::Global;
use std::marker::Model;

/// A log as it stands on a disk, with its payloads in memory. After a call has answered an error it
/// isn't used again, but loaded anew.
#[derive(Drop)]
pub struct Log {
    pub(crate) alloc: Global,
    // the bytes that were read, and then those of each record that was added
    pub(crate) pieces: Vec<Vec<u8>>,
    // where the payloads are in them
    pub(crate) places: Vec<Place>,
    // the place of the closed gate
    pub(crate) end: u64,
}

impl Model for Log {
    ghost use Rattle.std.specs.Prelude.{ℕ, List};
    ghost use Rattle.gs_log.specs.Kept.{pieces_of, payloads_in, IsKept};

    ghost Value = { List (List ℕ) };

    ghost view = { λ l. payloads_in (pieces_of l.pieces.items) l.places.items };

    ghost invariant = { λ l. IsKept (pieces_of l.pieces.items) l.places.items l.end };
}

impl Log {
    /// Makes an empty log on a disk that has none: `.gs.log` with one closed gate, and then its
    /// mark `.gs.on`. A crash leaves no mark or the empty list. It answers only `DiskFault` and
    /// `NoMemory`.
    pub fn create<D: Disk>(alloc: Global, disk: &mut D) -> Result<Log, LogErr>
        requires unmarked { D.tells → EachNow (λ image. image mark_name ≡ None) (D.state disk.old) }
        ensures empty { IfOk result (λ log. log ≡ []) }
        ensures any_moment { D.tells → Always (IsNoneOrEmpty (D.state disk.old).folder)
            (D.state disk.old) (D.state disk.new) }
        ensures images { D.tells → Passes (KeepsOthers (log_name ∷ mark_name ∷ []))
            (D.state disk.old) (D.state disk.new) }
        ensures only { D.tells → OnOk result
            (LeavesOnly (D.state disk.new).folder (D.state disk.new)) }
        ensures held { D.tells → OnOk result (Holds [] (D.state disk.new).folder) }
        ensures others { D.tells → KeepsOthers (log_name ∷ mark_name ∷ []) (D.state disk.old).folder
            (D.state disk.new).folder }
        ensures cause { HasCause (D.state disk.old) (D.state disk.new) result }
        ensures refused { IfErr result IsOutside }
    {
        make_files(disk)?;
        Ok(Log {
            alloc,
            pieces: Vec::new(alloc),
            places: Vec::new(alloc),
            end: 0,
        })
    }

    /// Reads the log of a disk. It begins with a sync, and changes nothing. `NoMark` comes exactly
    /// where there is no mark, and `BadLog` exactly where the file is no log, with the place of the
    /// gate of the first record that doesn't fit.
    pub fn load<D: Disk>(alloc: Global, disk: &mut D) -> Result<Log, LogErr>
        ensures list { D.tells → IfOk result (λ log. Holds log (D.state disk.new).folder) }
        ensures refused { D.tells → IfErr result (λ e. Refuses (D.state disk.new).folder e) }
        ensures same { D.tells → (D.state disk.new).folder ≡ (D.state disk.old).folder }
        ensures images { D.tells → Passes Same (D.state disk.old) (D.state disk.new) }
        ensures only { D.tells → OnOk result
            (LeavesOnly (D.state disk.new).folder (D.state disk.new)) }
        ensures only_refused { D.tells
            → IfErr result (λ e. IsOutside e
            ⊎ LeavesOnly (D.state disk.new).folder (D.state disk.new)) }
        ensures cause { HasCause (D.state disk.old) (D.state disk.new) result }
    {
        disk.sync()?;
        if disk.len(&mark_file())?.is_none() {
            return Err(LogErr::NoMark);
        }
        let mut bytes = Vec::new(alloc);
        match read_whole(alloc, disk, &log_file(), u64::MAX, &mut bytes)? {
            Whole::Read { .. } => (),
            Whole::Absent => return Err(LogErr::BadLog { at: 0 }),
            Whole::TooLong { .. } => return Err(LogErr::BadLog { at: 0 }),
        }
        let log = parse(alloc, bytes)?;
        Ok(log)
    }

    /// Adds a payload of at most `MAX_PAYLOAD` bytes to a log of fewer than `MAX_RECORDS` records.
    /// It writes the length, the payload and a closed gate behind the closed gate, syncs, opens
    /// that gate and syncs. A crash leaves the list as it was, or with the payload; once this has
    /// answered `Ok`, with the payload. It answers only `DiskFault` and `NoMemory`.
    pub fn append<D: Disk>(&mut self, disk: &mut D, payload: &[u8]) -> Result<(), LogErr>
        requires small { length payload.now ≤ MAX_PAYLOAD }
        requires room { length self.old < MAX_RECORDS }
        requires stands { D.tells → EachNow (Holds self.old) (D.state disk.old) }
        ensures list { OnOk result (self.new ≡ self.old ++ payload.now ∷ []) }
        ensures same { OnErr result (self.new ≡ self.old) }
        ensures any_moment { D.tells
            → Always (IsBeforeOrAfter self.old payload.now (D.state disk.old).folder)
            (D.state disk.old) (D.state disk.new) }
        ensures images { D.tells → Passes (KeepsOthers (log_name ∷ [])) (D.state disk.old)
            (D.state disk.new) }
        ensures only { D.tells → OnOk result
            (LeavesOnly (D.state disk.new).folder (D.state disk.new)) }
        ensures held { D.tells → OnOk result
            (Holds (self.old ++ payload.now ∷ []) (D.state disk.new).folder) }
        ensures others { D.tells → KeepsOthers (log_name ∷ []) (D.state disk.old).folder
            (D.state disk.new).folder }
        ensures cause { HasCause (D.state disk.old) (D.state disk.new) result }
        ensures refused { IfErr result IsOutside }
    {
        let closed = closed_record(self.alloc, payload)?;
        self.pieces.reserve(1)?;
        self.places.reserve(1)?;
        add_record(disk, self, payload, &closed)?;
        self.keep(closed, payload)?;
        Ok(())
    }

    /// Keeps a record of this payload that was added.
    fn keep(&mut self, closed: Vec<u8>, payload: &[u8]) -> Result<(), LogErr>
        requires small { length payload.now ≤ MAX_PAYLOAD }
        requires room { length self.old < MAX_RECORDS }
        requires spelled { closed.items ≡ (to_le_bytes w32 (length payload.now) ++ payload.now) ++ 0
            ∷ [] }
        ensures list { OnOk result (self.new ≡ self.old ++ payload.now ∷ []) }
        ensures same { OnErr result (self.new ≡ self.old) }
        ensures refused { IfErr result (λ e. e ≡ NoMemory) }
    {
        let place = Place {
            piece: self.pieces.len(),
            start: 4,
            len: payload.len(),
        };
        self.pieces.push(closed)?;
        self.places.push(place)?;
        self.end += 5 + payload.len() as u64;
        Ok(())
    }

    /// The place of the closed gate.
    pub(crate) fn end(&self) -> u64
        ensures { Fits self.now result }
    {
        self.end
    }

    /// The number of records, at most `MAX_RECORDS`.
    pub fn count(&self) -> u32
        ensures value { result ≡ length self.now }
        ensures few { result ≤ MAX_RECORDS }
    {
        self.places.len() as u32
    }

    /// The payload of a record, from 0 on.
    pub fn payload(&self, i: u32) -> &[u8]
        requires { i < length self.now }
        ensures value { result.now ≡ slice_index_or self.now i [] }
        ensures bytes { IsBytes result.now }
    {
        let place = self.places[i as usize];
        part(&self.pieces[place.piece], place.start, place.len)
    }
}
