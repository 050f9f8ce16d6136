// The choice of a start.
ghost use Rattle.std.specs.Prelude.{◌≡◌, ◌<◌, ◌≤◌, ℕ, length, slice_get, Some, None, true, Option};
ghost use Rattle.gs_policy.specs.Cost.{IsInRange};
ghost use Rattle.gs_broker.specs.Workers.{takes_at};
ghost use Rattle.gs_broker.specs.Choice.{before, better, scan_tasks, AreInRange};

use crate::workers::{Worker, takes_at};
use gs_policy::{CostLaw, Policy, Prices};

/// A task that may be started: its operation, and how long the files are that it takes.
#[derive(Clone, Copy, PartialEq, Eq, Debug, Drop)]
pub struct Ready {
    pub n: u32,
    pub op: u8,
    pub bytes: u64,
}

/// A task and a worker, with what they cost.
#[derive(Clone, Copy, PartialEq, Eq, Debug, Drop)]
pub struct Pair {
    pub cost: u64,
    pub n: u32,
    pub worker: u32,
}

fn is_before(a: Pair, b: Pair) -> bool
    ensures { result ≡ before a b }
{
    a.cost < b.cost || (a.cost == b.cost && (a.n < b.n || (a.n == b.n && a.worker < b.worker)))
}

fn better(best: Option<Pair>, pair: Pair) -> Option<Pair>
    ensures { result ≡ better best pair }
{
    match best {
        None => Some(pair),
        Some(other) => {
            if is_before(pair, other) {
                Some(pair)
            } else {
                best
            }
        }
    }
}

// The best of `best` and what the worker may take.
pub(crate) fn scan_tasks<F: Prices, C: CostLaw>(
    workers: &[Worker],
    w: usize,
    p: &Policy<F, C>,
    ready: &[Ready],
    best: Option<Pair>,
) -> Option<Pair>
    requires worker { w < 64 }
    requires ready { AreInRange ready.now }
    ensures { result
        ≡ scan_tasks (C.cost p.now.law.value) (takes_at workers.now w) w ready.now best }
{
    let mut best = best;
    for r in ready {
        if takes_at(workers, w, r.op as usize) {
            let cost = p.cost(r.op as u32, w as u32, r.bytes);
            best = better(
                best,
                Pair {
                    cost,
                    n: r.n,
                    worker: w as u32,
                },
            );
        }
    }
    best
}
