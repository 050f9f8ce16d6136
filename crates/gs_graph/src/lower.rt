// A producer has finished.
ghost use Rattle.std.specs.Prelude.{◌≡◌, ◌≤◌, ◌<◌, ◌+◌, ◌==◌, ◌&&◌, not, nat_eq, ℕ, length, slice_index, true, false, vec_capacity, if◌then◌else◌};
ghost use Rattle.gs_graph.specs.Numbers.{has, rises, put_in, one_if, count_of, IsRising};
ghost use Rattle.gs_graph.specs.Edges.{done_at, done_too, is_due, all_below};

use crate::numbers::put;

pub(crate) fn set_done(done: &mut Vec<bool>, n: usize)
    requires { n < length done.old.items }
    ensures done { (m : ℕ) → done_at done.new.items m ≡ done_too n (done_at done.old.items) m }
    ensures len { length done.new.items ≡ length done.old.items }
{
    done[n] = true;
}

pub(crate) fn is_done(done: &[bool], m: usize) -> bool
    ensures { result ≡ done_at done.now m }
{
    match done.get(m) {
        None => false,
        Some(b) => *b,
    }
}

fn take_one(missing: &mut Vec<usize>, s: usize)
    requires within { s < length missing.old.items }
    requires some { 0 < slice_index missing.old.items s }
    ensures counts { (m : ℕ) → slice_index missing.new.items m + one_if (s == m)
        ≡ slice_index missing.old.items m }
    ensures len { length missing.new.items ≡ length missing.old.items }
{
    missing[s] -= 1;
}

pub(crate) fn is_free(missing: &[usize], done: &[bool], s: usize) -> bool
    requires { s < length missing.now }
    ensures { result ≡ (not (done_at done.now s) && nat_eq (slice_index missing.now s) 0) }
{
    !is_done(done, s) && missing[s] == 0
}

pub(crate) fn put_if(ready: &mut Vec<usize>, s: usize, due: bool)
    requires rising { IsRising ready.old.items }
    requires room { due ≡ true → length ready.old.items < vec_capacity ready.old }
    ensures items { ready.new.items ≡ (if due then put_in s ready.old.items else ready.old.items) }
    ensures capacity { vec_capacity ready.old ≤ vec_capacity ready.new }
{
    if due {
        put(ready, s);
    }
}

// One producer of task `s` has finished.
fn lower(missing: &mut Vec<usize>, done: &[bool], ready: &mut Vec<usize>, s: usize)
    requires within { s < length missing.old.items }
    requires some { 0 < slice_index missing.old.items s }
    requires rising { rises 0 (length missing.old.items) ready.old.items ≡ true }
    requires listed { (m : ℕ) → has m ready.old.items
        ≡ is_due (length missing.old.items) (done_at done.now) (slice_index missing.old.items) m }
    requires room { length missing.old.items ≤ vec_capacity ready.old }
    ensures counts { (m : ℕ) → slice_index missing.new.items m + one_if (s == m)
        ≡ slice_index missing.old.items m }
    ensures len { length missing.new.items ≡ length missing.old.items }
    ensures rising { rises 0 (length missing.old.items) ready.new.items ≡ true }
    ensures listed { (m : ℕ) → has m ready.new.items
        ≡ is_due (length missing.old.items) (done_at done.now) (slice_index missing.new.items) m }
    ensures room { length missing.old.items ≤ vec_capacity ready.new }
{
    take_one(missing, s);
    put_if(ready, s, is_free(missing, done, s));
}

// A producer of these tasks has finished.
pub(crate) fn lower_all(
    missing: &mut Vec<usize>,
    done: &[bool],
    next: &[usize],
    ready: &mut Vec<usize>,
)
    requires within { all_below (length missing.old.items) next.now ≡ true }
    requires enough { (m : ℕ) → count_of m next.now ≤ slice_index missing.old.items m }
    requires rising { rises 0 (length missing.old.items) ready.old.items ≡ true }
    requires listed { (m : ℕ) → has m ready.old.items
        ≡ is_due (length missing.old.items) (done_at done.now) (slice_index missing.old.items) m }
    requires room { length missing.old.items ≤ vec_capacity ready.old }
    ensures counts { (m : ℕ) → slice_index missing.new.items m + count_of m next.now
        ≡ slice_index missing.old.items m }
    ensures len { length missing.new.items ≡ length missing.old.items }
    ensures rising { rises 0 (length missing.old.items) ready.new.items ≡ true }
    ensures listed { (m : ℕ) → has m ready.new.items
        ≡ is_due (length missing.old.items) (done_at done.now) (slice_index missing.new.items) m }
    ensures room { length missing.old.items ≤ vec_capacity ready.new }
{
    for s in next {
        lower(missing, done, ready, *s);
    }
}
