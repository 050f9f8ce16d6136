// An entry as a payload.
ghost use Rattle.std.specs.Prelude.{◌≡◌, ◌++◌, ◌≤◌, ◌^◌, true, length, OnOk, IfOk, Some};
ghost use Rattle.gs_fields.specs.Format.{whole};
ghost use Rattle.gs_entries.specs.Gives.{Gives, Decodes};
ghost use Rattle.gs_entries.specs.Entries.{entry, entry_as, texts, Spells};
ghost use Rattle.gs_entries.specs.declared.entry.Entry.{Entry};

use crate::entry::{Entry, GateNote, Texts};
use crate::failure::Failure;
use crate::notes::{are_rising, read_name, read_operation, read_source, read_task};
use crate::spelled::{Spelled, put_all, read_times};
use gs_fields::{Fields, put_blob, put_u8, put_u32};
use gs_types::NoMemory;
use std::alloc::Global;

impl Spelled for Texts {
    ghost format = { texts };

    fn read(alloc: Global, f: &mut Fields) -> Result<Texts, Failure> {
        if f.next_u8()? != 1 {
            return Err(Failure::NotEntry);
        }
        let idl_name = read_name(f)?;
        let idl = read_source(alloc, f)?;
        let program_name = read_name(f)?;
        let program = read_source(alloc, f)?;
        Ok(Texts {
            idl_name,
            idl,
            program_name,
            program,
        })
    }

    fn put(&self, to: &mut Vec<u8>) -> Result<(), NoMemory> {
        put_u8(to, 1)?;
        self.idl_name.put(to)?;
        put_blob(to, self.idl.bytes())?;
        self.program_name.put(to)?;
        put_blob(to, self.program.bytes())
    }
}

fn read_done(alloc: Global, f: &mut Fields) -> Result<Entry, Failure>
    ensures { Gives f.new result ((entry_as 2).read f.old.rest) }
{
    let n = read_task(f)?;
    let op = read_operation(f)?;
    let count = f.next_u8()?;
    let outs = read_times(alloc, u32::from(count), f)?;
    if !are_rising(outs.items()) {
        return Err(Failure::NotEntry);
    }
    Ok(Entry::Done { n, op, outs })
}

#[tactic(auto, unfolding(crate::specs::Entries::entry))]
impl Spelled for Entry {
    ghost format = { entry };

    #[tactic(auto, unfolding(crate::specs::Entries::entry))]
    fn read(alloc: Global, f: &mut Fields) -> Result<Entry, Failure> {
        match f.next_u8()? {
            1 => {
                let t = Texts::read(alloc, f)?;
                Ok(Entry::Header { t })
            }
            2 => read_done(alloc, f),
            3 => {
                let g = GateNote::read(alloc, f)?;
                Ok(Entry::Gate { g })
            }
            4 => Ok(Entry::Closed),
            _ => Err(Failure::NotEntry),
        }
    }

    #[tactic(auto, unfolding(crate::specs::Entries::entry))]
    fn put(&self, to: &mut Vec<u8>) -> Result<(), NoMemory> {
        match self {
            Entry::Header { t } => {
                put_u8(to, 1)?;
                t.put(to)
            }
            Entry::Done { n, op, outs } => {
                put_u8(to, 2)?;
                put_u32(to, *n)?;
                put_u8(to, *op)?;
                put_u8(to, outs.len() as u8)?;
                put_all(outs.items(), to)
            }
            Entry::Gate { g } => {
                put_u8(to, 3)?;
                g.put(to)
            }
            Entry::Closed => put_u8(to, 4),
        }
    }
}

fn whole_of(alloc: Global, payload: &[u8]) -> Result<Entry, Failure>
    ensures { Decodes result (whole entry payload.now) }
{
    let mut f = Fields::new(payload);
    let e = Entry::read(alloc, &mut f)?;
    if !f.at_end() {
        return Err(Failure::NotEntry);
    }
    Ok(e)
}

/// The entry that all of the payload spells. `NotEntry` exactly where it spells none.
pub fn decode(alloc: Global, payload: &[u8]) -> Result<Entry, Failure>
    ensures found { IfOk result (λ e. Spells e payload.now) }
    ensures again { (e : Entry) → Spells e payload.now → Decodes result (Some e) }
    ensures exact { Decodes result (whole entry payload.now) }
{
    whole_of(alloc, payload)
}

fn spelling(alloc: Global, e: &Entry) -> Result<Vec<u8>, NoMemory>
    requires { entry.fits e.now ≡ true }
    ensures { IfOk result (λ bytes. Spells e.now bytes.items) }
{
    let mut to = Vec::new(alloc);
    e.put(&mut to)?;
    Ok(to)
}

/// The one spelling of an entry that is within the limits, of at most 2^25 bytes.
pub fn encode(alloc: Global, e: &Entry) -> Result<Vec<u8>, NoMemory>
    requires { entry.fits e.now ≡ true }
    ensures spelled { IfOk result (λ bytes. Spells e.now bytes.items) }
    ensures short { IfOk result (λ bytes. length bytes.items ≤ 2 ^ 25) }
{
    spelling(alloc, e)
}
