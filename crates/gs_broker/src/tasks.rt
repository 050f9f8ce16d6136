// What is known of each task that was started.
ghost use Rattle.std.specs.Prelude.{◌≡◌, ◌<◌, ◌≤◌, ◌+◌, ◌⊎◌, ℕ, nat_eq, IsSome, Some, None, if◌then◌else◌, ◌==◌};
ghost use Rattle.std.specs.HashMap.{get, spare};
ghost use Rattle.gs_broker.specs.Tasks.{key_of, failures_of};

use std::collections::HashMap;

/// The key of a task's job, and how often the task has failed.
#[derive(Clone, Copy, PartialEq, Eq, Debug, Drop)]
pub struct Line {
    pub key: Option<usize>,
    pub failures: u32,
}

/// A job in flight.
#[derive(Clone, Copy, PartialEq, Eq, Debug, Drop)]
pub struct Flight {
    pub n: u32,
    pub worker: u32,
}

pub(crate) fn key_at(tasks: &HashMap<u32, Line>, n: u32) -> Option<usize>
    ensures { result ≡ key_of (get nat_eq tasks.now n) }
{
    match tasks.get(&n) {
        None => None,
        Some(line) => line.key,
    }
}

pub(crate) fn failures_at(tasks: &HashMap<u32, Line>, n: u32) -> u32
    ensures { result ≡ failures_of (get nat_eq tasks.now n) }
{
    match tasks.get(&n) {
        None => 0,
        Some(line) => line.failures,
    }
}

pub(crate) fn put(tasks: &mut HashMap<u32, Line>, n: u32, line: Line)
    requires { (0 < spare tasks.old) ⊎ IsSome (get nat_eq tasks.old n) }
    ensures lines { (m : ℕ) →
        get nat_eq tasks.new m ≡ (if n == m then Some line else get nat_eq tasks.old m) }
    ensures spare { spare tasks.old ≤ spare tasks.new + 1 }
    ensures kept { IsSome (get nat_eq tasks.old n) → spare tasks.old ≤ spare tasks.new }
{
    if let Some(place) = tasks.get_mut(&n) {
        *place = line;
        return;
    }
    match tasks.insert(n, line) {
        Ok(_) => {}
        Err(_) => unreachable!(),
    }
}
