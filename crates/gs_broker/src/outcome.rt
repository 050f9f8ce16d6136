// What a failure gives up, and other small choices.
ghost use Rattle.std.specs.Prelude.{◌≡◌, ◌≤◌, ◌<◌, ◌*◌, ◌+◌, ℕ, length, Some, None, Option};
ghost use Rattle.gs_broker.specs.Choice.{chosen};
ghost use Rattle.gs_broker.specs.Workers.{slots_at, all_slots};
ghost use Rattle.gs_broker.specs.Outcome.{IsLoss, lesser};

use crate::choice::Pair;
use crate::workers::Worker;

/// What a failure gives up.
#[derive(Clone, Copy, PartialEq, Eq, Debug, Drop)]
pub enum Loss {
    Keep,
    Task { n: u32 },
}

pub(crate) fn loss_at(failures: u32, tries: u32, n: u32) -> Loss
    ensures { IsLoss failures tries n result }
{
    if failures < tries && tries - failures == 1 {
        Loss::Task { n }
    } else {
        Loss::Keep
    }
}

pub(crate) fn lesser(least: Option<u32>, n: u32) -> Option<u32>
    ensures { result ≡ lesser least n }
{
    match least {
        None => Some(n),
        Some(m) => { if n < m { Some(n) } else { least } }
    }
}

pub(crate) fn chosen(best: Option<Pair>) -> Option<(u32, u32)>
    ensures { result ≡ chosen best }
{
    match best {
        None => None,
        Some(p) => Some((p.n, p.worker)),
    }
}

pub(crate) fn count_slots(workers: &[Worker]) -> usize
    requires few { length workers.now ≤ 64 }
    requires slots { (w : ℕ) → slots_at workers.now w ≤ 16 }
    ensures { result ≡ all_slots workers.now }
{
    let mut count = 0;
    for w in workers {
        count += w.slots;
    }
    count
}
