// The tasks that wait for each task.
ghost use Rattle.std.specs.Prelude.{◌≡◌, ◌≤◌, ◌<◌, ◌++◌, ◌∷◌, [], ◌==◌, ℕ, List, length, slice_get, true, vec_len, vec_capacity, OnOk, OnErr, if◌then◌else◌};
ghost use Rattle.gs_graph.specs.Edges.{after, all_below, ends, open_in, done_at};

use crate::lower::is_done;
use crate::numbers::item_at;
use std::alloc::AllocError;

// Task `n` waits for `p` too. On want of memory nothing changes.
pub(crate) fn push_edge(next: &mut Vec<Vec<usize>>, p: usize, n: usize) -> Result<(), AllocError>
    requires { p < length next.old.items }
    ensures edges { OnOk result ((q : ℕ) → after next.new.items q
        ≡ (if p == q then after next.old.items q ++ n ∷ [] else after next.old.items q)) }
    ensures err { OnErr result ((q : ℕ) → after next.new.items q ≡ after next.old.items q) }
    ensures len { length next.new.items ≡ length next.old.items }
    ensures capacity { vec_capacity next.old ≤ vec_capacity next.new }
{
    let one = &mut next[p];
    match one.push(n) {
        Ok(()) => Ok(()),
        Err(_) => Err(AllocError),
    }
}

// The last task that waits for `p` no longer does.
pub(crate) fn pop_edge(next: &mut Vec<Vec<usize>>, p: usize)
    requires { p < length next.old.items }
    ensures edges { (q n : ℕ) (xs : List ℕ) →
        after next.old.items q ≡ (if p == q then xs ++ n ∷ [] else xs)
        → after next.new.items q ≡ xs }
    ensures len { length next.new.items ≡ length next.old.items }
    ensures capacity { vec_capacity next.old ≤ vec_capacity next.new }
{
    let one = &mut next[p];
    let _ = one.pop();
}

// The task that waits for these, behind all others, no longer does.
pub(crate) fn take_back(next: &mut Vec<Vec<usize>>, producers: &[usize])
    requires { all_below (length next.old.items) producers.now ≡ true }
    ensures edges { (q n : ℕ) (xs : List ℕ) →
        after next.old.items q ≡ ends n q producers.now xs → after next.new.items q ≡ xs }
    ensures len { length next.new.items ≡ length next.old.items }
    ensures capacity { vec_capacity next.old ≤ vec_capacity next.new }
{
    for p in producers {
        pop_edge(next, *p);
    }
}

// Task `n` waits for these. On want of memory nothing changes.
pub(crate) fn push_edges(
    next: &mut Vec<Vec<usize>>,
    producers: &[usize],
    n: usize,
) -> Result<(), AllocError>
    requires { all_below (length next.old.items) producers.now ≡ true }
    ensures edges { OnOk result ((q : ℕ) →
        after next.new.items q ≡ ends n q producers.now (after next.old.items q)) }
    ensures err { OnErr result ((q : ℕ) → after next.new.items q ≡ after next.old.items q) }
    ensures len { length next.new.items ≡ length next.old.items }
    ensures capacity { vec_capacity next.old ≤ vec_capacity next.new }
{
    for (i, p) in producers.iter().enumerate() {
        if let Err(e) = push_edge(next, *p, n) {
            take_back(next, &producers[..i]);
            return Err(e);
        }
    }
    Ok(())
}

// The `i`-th of the tasks that wait for `p`.
pub(crate) fn after_at(next: &[Vec<usize>], p: usize, i: usize) -> Option<usize>
    ensures { result ≡ slice_get (after next.now p) i }
{
    let one = next.get(p)?;
    item_at(one, i)
}

// How many of these have not finished.
pub(crate) fn open_count(done: &[bool], producers: &[usize]) -> usize
    ensures { result ≡ open_in (done_at done.now) producers.now }
{
    let mut open = 0;
    for p in producers {
        if !is_done(done, *p) {
            open += 1;
        }
    }
    open
}

// Puts an item at the end, where there is room.
pub(crate) fn push_last<T: Drop>(xs: &mut Vec<T>, x: T)
    requires { vec_len xs.old < vec_capacity xs.old }
    ensures { xs.new.items ≡ xs.old.items ++ x ∷ [] }
{
    match xs.push(x) {
        Ok(()) => {}
        Err(_) => unreachable!(),
    }
}
