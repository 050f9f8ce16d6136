// The list of workers.
#![tactic(auto, using(crate::proofs::Totals::slots_push), unfolding(crate::specs::Listed::count_of, crate::specs::Listed::slots_of_list, crate::specs::Listed::takes_of_list, crate::specs::Listed::program_in))]

ghost use Rattle.std.specs.Prelude.{◌≡◌, ◌<◌, ◌≤◌, ◌+◌, ℕ, if◌then◌else◌, slice_index, slice_get, option_map, length, slice_set, true, Some};
ghost use Rattle.gs_types.specs.declared.limits.TheConstants.{WORKER_LIMIT, SLOT_LIMIT};
ghost use Rattle.gs_broker.specs.Workers.{slots_at, takes_at, program_of};

use gs_types::{Name, NoMemory};
use std::alloc::Global;

/// A worker: its name, how many jobs it takes at once, its program, and which operations it takes.
#[derive(Drop)]
pub(crate) struct Worker {
    pub name: Name,
    pub slots: usize,
    pub program: Vec<u8>,
    pub takes: Vec<bool>,
}

/// At most 64 workers, numbered from 0, each with at most 16 slots.
#[derive(Drop)]
pub struct Workers {
    pub(crate) list: Vec<Worker>,
    ghost few: { length list.items ≤ WORKER_LIMIT },
    ghost slots: { (w : ℕ) → slots_at list.items w ≤ SLOT_LIMIT },
}

pub(crate) fn slots_at(workers: &[Worker], w: usize) -> usize
    ensures { result ≡ slots_at workers.now w }
{
    match workers.get(w) {
        None => 0,
        Some(worker) => worker.slots,
    }
}

pub(crate) fn takes_at(workers: &[Worker], w: usize, op: usize) -> bool
    ensures { result ≡ takes_at workers.now w op }
{
    match workers.get(w) {
        None => false,
        Some(worker) => worker.takes.get(op).copied().unwrap_or(false),
    }
}

fn program_of(workers: &[Worker], w: usize) -> &[u8]
    requires { w < length workers.now }
    ensures { option_map program_of (slice_get workers.now w) ≡ Some result.now }
{
    workers[w].program.as_slice()
}

impl Workers {
    ghost use Rattle.std.specs.Prelude.{◌≡◌, ◌<◌, ◌≤◌, ◌++◌, ◌∷◌, [], length, OnOk, OnErr, Some};
    ghost use Rattle.gs_types.specs.declared.limits.TheConstants.{WORKER_LIMIT, SLOT_LIMIT};
    ghost use Rattle.gs_broker.specs.Listed.{count_of, slots_of_list, takes_of_list, program_in};

    // A list without workers, which takes no memory.
    pub(crate) fn empty(alloc: Global) -> Workers
        ensures { result.list.items ≡ [] }
    {
        Workers {
            list: Vec::new(alloc),
        }
    }

    // One worker more, behind the others. On want of memory the list stays.
    pub(crate) fn push(&mut self, worker: Worker) -> Result<(), NoMemory>
        requires few { length self.old.list.items < WORKER_LIMIT }
        requires slots { worker.slots ≤ SLOT_LIMIT }
        ensures ok { OnOk result (self.new.list.items ≡ self.old.list.items ++ worker ∷ []) }
        ensures err { OnErr result (self.new.list.items ≡ self.old.list.items) }
    {
        self.list.push(worker)?;
        Ok(())
    }

    /// How many workers the list has, at most 64.
    pub fn count(&self) -> u32
        ensures count { result ≡ count_of self.now }
        ensures few { result ≤ WORKER_LIMIT }
    {
        self.list.len() as u32
    }

    // How many jobs worker `w` takes at once; past the list none.
    pub(crate) fn slots(&self, w: usize) -> usize
        ensures { result ≡ slots_of_list self.now w }
    {
        slots_at(self.list.as_slice(), w)
    }

    /// Whether worker `w`, from 0, takes the operation at place `op`; past the list none does.
    pub fn takes(&self, w: u32, op: u8) -> bool
        ensures { result ≡ takes_of_list self.now w op }
    {
        takes_at(self.list.as_slice(), w as usize, op as usize)
    }

    /// The program of worker `w`, from 0, which stands in the list.
    pub fn program(&self, w: u32) -> &[u8]
        requires { w < count_of self.now }
        ensures { program_in self.now w ≡ Some result.now }
    {
        program_of(self.list.as_slice(), w as usize)
    }
}
