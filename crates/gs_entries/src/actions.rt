// Actions as fields.
ghost use Rattle.std.specs.Prelude.{◌≡◌, ◌++◌, true, OnOk};
ghost use Rattle.gs_entries.specs.Gives.{Gives};
ghost use Rattle.gs_entries.specs.Actions.{action, action_as, files};

use crate::failure::Failure;
use crate::notes::{read_operation, read_place, read_task};
use crate::spelled::{Spelled, put_all, read_times};
use gs_fields::{Fields, put_u8, put_u32};
use gs_types::{Action, NoMemory, PARAMETER_LIMIT, Sequence};
use std::alloc::Global;

fn read_files(alloc: Global, f: &mut Fields) -> Result<Sequence<u32>, Failure>
    ensures { Gives f.new result (files.read f.old.rest) }
{
    let count = f.next_u8()?;
    if count as usize > PARAMETER_LIMIT {
        return Err(Failure::NotEntry);
    }
    read_times(alloc, u32::from(count), f)
}

fn put_files(names: &Sequence<u32>, to: &mut Vec<u8>) -> Result<(), NoMemory>
    requires { files.fits names.now ≡ true }
    ensures { OnOk result (to.new.items ≡ to.old.items ++ files.spell names.now) }
{
    put_u8(to, names.len() as u8)?;
    put_all(names.items(), to)
}

fn read_call(alloc: Global, f: &mut Fields) -> Result<Action, Failure>
    ensures { Gives f.new result ((action_as 1).read f.old.rest) }
{
    let n = read_task(f)?;
    let op = read_operation(f)?;
    let reads = read_files(alloc, f)?;
    let writes = read_files(alloc, f)?;
    Ok(Action::Call {
        n,
        op,
        reads,
        writes,
    })
}

impl Spelled for Action {
    ghost format = { action };

    fn read(alloc: Global, f: &mut Fields) -> Result<Action, Failure> {
        match f.next_u8()? {
            1 => read_call(alloc, f),
            2 => {
                let n = read_task(f)?;
                Ok(Action::Result { n })
            }
            3 => {
                let name = f.next_u32()?;
                Ok(Action::Read { name })
            }
            4 => {
                let name = f.next_u32()?;
                Ok(Action::Write { name })
            }
            5 => Ok(Action::Barrier),
            6 => Ok(Action::End),
            7 => {
                let n = read_task(f)?;
                let place = read_place(f)?;
                Ok(Action::Use { n, place })
            }
            _ => Err(Failure::NotEntry),
        }
    }

    fn put(&self, to: &mut Vec<u8>) -> Result<(), NoMemory> {
        match self {
            Action::Call {
                n,
                op,
                reads,
                writes,
            } => {
                put_u8(to, 1)?;
                put_u32(to, *n)?;
                put_u8(to, *op)?;
                put_files(reads, to)?;
                put_files(writes, to)
            }
            Action::Use { n, place } => {
                put_u8(to, 7)?;
                put_u32(to, *n)?;
                put_u8(to, *place)
            }
            Action::Result { n } => {
                put_u8(to, 2)?;
                put_u32(to, *n)
            }
            Action::Read { name } => {
                put_u8(to, 3)?;
                put_u32(to, *name)
            }
            Action::Write { name } => {
                put_u8(to, 4)?;
                put_u32(to, *name)
            }
            Action::Barrier => put_u8(to, 5),
            Action::End => put_u8(to, 6),
        }
    }
}
