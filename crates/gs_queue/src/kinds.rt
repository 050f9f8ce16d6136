// The fronts: the first listed task of each operation and length.
ghost use Rattle.std.specs.Prelude.{◌≡◌, ◌≤◌, ◌<◌, ℕ, length, Some, None, true, false, vec_capacity};
ghost use Rattle.gs_queue.specs.Fronts.{task_at, last_at, AreNumbered, AreFronts, with_task, without_task, are_alike, if_alike, stands_in, IsAlikeIn, IsNextAlike};

use crate::arrays::{last_at, set_last, task_at};
use crate::place::{put, take_out};
use gs_broker::Ready;

fn are_alike(r: Ready, s: Ready) -> bool
    ensures { result ≡ are_alike r s }
{
    r.op == s.op && r.bytes == s.bytes
}

// The front that is like the task.
fn alike_in(fronts: &[Ready], r: Ready) -> Option<Ready>
    ensures { IsAlikeIn fronts.now r result }
{
    for f in fronts {
        if are_alike(*f, r) {
            return Some(*f);
        }
    }
    None
}

fn if_alike(f: Ready, task: Option<Ready>) -> Option<Ready>
    ensures { result ≡ if_alike f task }
{
    match task {
        None => None,
        Some(r) => { if are_alike(f, r) { task } else { None } }
    }
}

// The next listed task behind the front that is like it, up to number `last`.
fn next_alike(tasks: &[Option<Ready>], f: Ready, last: u32) -> Option<Ready>
    requires { AreNumbered (task_at tasks.now) }
    ensures { IsNextAlike (task_at tasks.now) f last result }
{
    for place in f.n..last {
        let next = if_alike(f, task_at(tasks, place + 1));
        if next.is_some() {
            return next;
        }
    }
    None
}

// Whether the number stands among the fronts.
fn stands_in(fronts: &[Ready], n: u32) -> bool
    ensures { result ≡ stands_in n fronts.now }
{
    for f in fronts {
        if f.n == n {
            return true;
        }
    }
    false
}

// The fronts once the task, which is not listed, is listed.
pub(crate) fn enter(tasks: &[Option<Ready>], last: &mut Vec<u32>, fronts: &mut Vec<Ready>, r: Ready)
    requires numbered { (0 < r.n) × (r.n ≤ length tasks.now) }
    requires absent { task_at tasks.now r.n ≡ None }
    requires numbers { AreNumbered (task_at tasks.now) }
    requires same { length last.old.items ≡ length tasks.now }
    requires room { length tasks.now ≤ vec_capacity fronts.old }
    requires fronts { AreFronts (length tasks.now) (task_at tasks.now) (last_at last.old.items)
        fronts.old.items }
    ensures same { length last.new.items ≡ length last.old.items }
    ensures room { vec_capacity fronts.old ≤ vec_capacity fronts.new }
    ensures fronts { AreFronts (length tasks.now) (with_task r (task_at tasks.now))
        (last_at last.new.items) fronts.new.items }
{
    let Some(f) = alike_in(fronts, r) else {
        set_last(last, r.n, r.n);
        put(fronts, r);
        return;
    };
    let end = last_at(last, f.n).max(r.n);
    if f.n < r.n {
        set_last(last, f.n, end);
        return;
    }
    set_last(last, r.n, end);
    take_out(fronts, f.n);
    put(fronts, r);
}

// The fronts once the task is no longer listed.
pub(crate) fn leave(tasks: &[Option<Ready>], last: &mut Vec<u32>, fronts: &mut Vec<Ready>, r: Ready)
    requires listed { task_at tasks.now r.n ≡ Some r }
    requires numbers { AreNumbered (task_at tasks.now) }
    requires same { length last.old.items ≡ length tasks.now }
    requires room { length tasks.now ≤ vec_capacity fronts.old }
    requires fronts { AreFronts (length tasks.now) (task_at tasks.now) (last_at last.old.items)
        fronts.old.items }
    ensures same { length last.new.items ≡ length last.old.items }
    ensures room { vec_capacity fronts.old ≤ vec_capacity fronts.new }
    ensures fronts { AreFronts (length tasks.now) (without_task r.n (task_at tasks.now))
        (last_at last.new.items) fronts.new.items }
{
    if !stands_in(fronts, r.n) {
        return;
    }
    let end = last_at(last, r.n);
    take_out(fronts, r.n);
    let Some(next) = next_alike(tasks, r, end) else {
        return;
    };
    set_last(last, next.n, end);
    put(fronts, next);
}
