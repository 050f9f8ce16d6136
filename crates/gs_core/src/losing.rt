// What is given up.
ghost use Rattle.std.specs.Prelude.{◌≡◌};
ghost use Rattle.gs_core.specs.GivenUp.{next_loss, workers_lost};

use gs_broker::Loss;

/// What is given up: a task that has failed too often, the workers of a task, or the whole run,
/// since the entry with this index has a task of another form.
#[derive(Clone, Copy, Debug, PartialEq, Eq, Drop)]
pub(crate) enum Lost {
    Task { n: u32 },
    Workers { n: u32 },
    Misfit { index: u32 },
}

/// The workers of the least stranded task are lost.
pub(crate) fn workers_lost(stranded: Option<u32>) -> Option<Lost>
    ensures { result ≡ workers_lost stranded }
{
    match stranded {
        None => None,
        Some(n) => Some(Lost::Workers { n }),
    }
}

/// What is given up after a failure: what was given up before, else the task, else its workers.
pub(crate) fn next_loss(before: Option<Lost>, loss: Loss, stranded: Option<u32>) -> Option<Lost>
    ensures { result ≡ next_loss before loss stranded }
{
    match before {
        Some(lost) => Some(lost),
        None => match loss {
            Loss::Task { n } => Some(Lost::Task { n }),
            Loss::Keep => workers_lost(stranded),
        },
    }
}
