// The task that a question called.
ghost use Rattle.std.specs.Prelude.{◌≡◌, ◌≤◌, ℕ, suc, OnOk, IsSome};
ghost use Rattle.gs_types.specs.History.{History, worker_in};
ghost use Rattle.gs_queue.specs.Queue.{tasks_of, job_of, workers_of};
ghost use Rattle.gs_history.specs.Setup.{Setup, count_at};
ghost use Rattle.gs_tables.specs.Holds.{Holds};
ghost use Rattle.gs_tables.specs.Starts.{AreSmall};
ghost use Rattle.gs_works.specs.Works.{Works, Lists};
ghost use Rattle.gs_core.specs.Core.{Bears};

use gs_queue::Queue;
use gs_tables::Tables;
use gs_types::NoMemory;

/// The task that the last question called, if it called one, is one of the queue's from then on,
/// and is listed where it may start. The only error is want of memory.
pub(crate) fn list_called(queue: &mut Queue, tables: &Tables) -> Result<(), NoMemory>
    ensures jobs { OnOk result ((n : ℕ) → job_of queue.new n ≡ job_of queue.old n) }
    ensures workers { OnOk result (workers_of queue.new ≡ workers_of queue.old) }
    ensures bears { (s : Setup) (k : ℕ) (h : History) → Holds tables.now s (suc k) h → AreSmall s →
        Works queue.old s h → Lists queue.old s k h → tasks_of queue.old ≡ count_at s k →
        ((n : ℕ) → IsSome (worker_in h n) → n ≤ count_at s k) →
        OnOk result (Bears tables.now queue.new s (suc k) h) }
{
    let count = queue.count();
    if tables.count() <= count as usize {
        return Ok(());
    }
    let Some(n) = count.checked_add(1) else {
        return Err(NoMemory);
    };
    queue.grow()?;
    if tables.is_ready(n) {
        queue.list(tables.listed(n));
    }
    Ok(())
}
