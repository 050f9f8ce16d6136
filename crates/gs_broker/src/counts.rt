// Counters of workers.
ghost use Rattle.std.specs.Prelude.{◌≡◌, ◌<◌, ◌≤◌, ◌+◌, ◌-◌, ℕ, length, slice_index, slice_set, min, replicate, IfOk, None, true, false};
ghost use Rattle.gs_broker.specs.Counts.{total, is_on, one, most};
ghost use Rattle.gs_broker.specs.Stranded.{live_in, scan_stranded};

use crate::choice::Ready;
use crate::outcome::lesser;
use crate::workers::{Worker, takes_at};
use gs_types::WORKER_FAILURES;
use std::alloc::{AllocError, Global};

// One job more.
pub(crate) fn take_slot(busy: &mut Vec<usize>, w: usize, limit: usize)
    requires within { w < length busy.old.items }
    requires room { slice_index busy.old.items w < limit }
    ensures jobs { (u : ℕ) →
        slice_index busy.new.items u ≡ slice_index busy.old.items u + is_on (Some w) u }
    ensures total { total busy.new.items ≡ total busy.old.items + 1 }
    ensures same { length busy.new.items ≡ length busy.old.items }
{
    busy[w] += 1;
}

// One job less.
pub(crate) fn leave_slot(busy: &mut Vec<usize>, worker: Option<u32>)
    ensures jobs { (u : ℕ) →
        slice_index busy.new.items u ≡ slice_index busy.old.items u - is_on worker u }
    ensures total { total busy.old.items ≤ total busy.new.items + one worker }
    ensures same { length busy.new.items ≡ length busy.old.items }
{
    if let Some(w) = worker {
        let w = w as usize;
        if w < busy.len() {
            busy[w] = busy[w].saturating_sub(1);
        }
    }
}

// One failure more.
pub(crate) fn add_lapse(lapses: &mut Vec<u32>, worker: Option<u32>)
    ensures lapses { (u : ℕ) → u < length lapses.old.items → slice_index lapses.new.items u
        ≡ min (slice_index lapses.old.items u + is_on worker u) most }
    ensures same { length lapses.new.items ≡ length lapses.old.items }
{
    if let Some(w) = worker {
        let w = w as usize;
        if w < lapses.len() {
            lapses[w] = lapses[w].saturating_add(1);
        }
    }
}

pub(crate) fn zeros(alloc: Global, count: usize) -> Result<Vec<usize>, AllocError>
    ensures { IfOk result (λ v. v.items ≡ replicate count 0) }
{
    vec![in alloc; 0; count]
}

pub(crate) fn no_failures(alloc: Global, count: usize) -> Result<Vec<u32>, AllocError>
    ensures { IfOk result (λ v. v.items ≡ replicate count 0) }
{
    vec![in alloc; 0; count]
}

// Whether a worker that takes the operation has not failed too often.
pub(crate) fn has_live(workers: &[Worker], lapses: &[u32], op: usize) -> bool
    requires { length lapses.now ≡ length workers.now }
    ensures { result ≡ live_in workers.now lapses.now op }
{
    for w in 0..workers.len() {
        if takes_at(workers, w, op) && lapses[w] < WORKER_FAILURES {
            return true;
        }
    }
    false
}

// The least listed task whose operation no worker can take any more.
pub(crate) fn least_stranded(workers: &[Worker], lapses: &[u32], ready: &[Ready]) -> Option<u32>
    requires { length lapses.now ≡ length workers.now }
    ensures { result ≡ scan_stranded (live_in workers.now lapses.now) ready.now None }
{
    let mut least = None;
    for r in ready {
        if !has_live(workers, lapses, r.op as usize) {
            least = lesser(least, r.n);
        }
    }
    least
}
