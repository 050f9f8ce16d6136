// Arrays by the numbers of tasks, from 1.
ghost use Rattle.std.specs.Prelude.{◌≡◌, ◌≤◌, ◌<◌, ◌==◌, ◌++◌, ◌∷◌, [], ℕ, length, vec_len, vec_capacity, if◌then◌else◌};
ghost use Rattle.gs_queue.specs.Fronts.{task_at, last_at};

use gs_broker::Ready;

pub(crate) fn task_at(tasks: &[Option<Ready>], n: u32) -> Option<Ready>
    ensures { result ≡ task_at tasks.now n }
{
    if n == 0 {
        return None;
    }
    match tasks.get(n as usize - 1) {
        None => None,
        Some(task) => *task,
    }
}

pub(crate) fn set_task(tasks: &mut Vec<Option<Ready>>, n: u32, task: Option<Ready>)
    requires { (0 < n) × (n ≤ length tasks.old.items) }
    ensures tasks { (m : ℕ) → task_at tasks.new.items m
        ≡ (if n == m then task else task_at tasks.old.items m) }
    ensures len { length tasks.new.items ≡ length tasks.old.items }
{
    tasks[n as usize - 1] = task;
}

pub(crate) fn last_at(last: &[u32], n: u32) -> u32
    requires { (0 < n) × (n ≤ length last.now) }
    ensures { result ≡ last_at last.now n }
{
    last[n as usize - 1]
}

pub(crate) fn set_last(last: &mut Vec<u32>, n: u32, end: u32)
    requires { (0 < n) × (n ≤ length last.old.items) }
    ensures last { (m : ℕ) → 0 < m → last_at last.new.items m
        ≡ (if n == m then end else last_at last.old.items m) }
    ensures len { length last.new.items ≡ length last.old.items }
{
    last[n as usize - 1] = end;
}

// Puts an item at the end, where there is room.
pub(crate) fn push_last<T: Drop>(xs: &mut Vec<T>, x: T)
    requires { vec_len xs.old < vec_capacity xs.old }
    ensures { xs.new.items ≡ xs.old.items ++ x ∷ [] }
{
    match xs.push(x) {
        Ok(()) => {}
        Err(_) => unreachable!(),
    }
}
