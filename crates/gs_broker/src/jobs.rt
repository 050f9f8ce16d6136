// The jobs in flight.
ghost use Rattle.std.specs.Prelude.{◌≡◌, ◌≢◌, ◌<◌, ◌≤◌, ◌+◌, ℕ, Some, None, Option};
ghost use Rattle.slab.specs.Slab.{get, slab_len, HasRoomFor};
ghost use Rattle.gs_broker.specs.Tasks.{worker_of, worker_at, OthersStay};
ghost use Rattle.gs_broker.specs.Counts.{one};

use crate::tasks::Flight;
use slab::Slab;

pub(crate) fn worker_of(jobs: &Slab<Flight>, n: u32, key: usize) -> Option<u32>
    ensures { result ≡ worker_of n (get jobs.now key) }
{
    match jobs.get(key) {
        None => None,
        Some(job) => { if job.n == n { Some(job.worker) } else { None } }
    }
}

pub(crate) fn worker_at(jobs: &Slab<Flight>, n: u32, key: Option<usize>) -> Option<u32>
    ensures { result ≡ worker_at (get jobs.now) n key }
{
    match key {
        None => None,
        Some(k) => worker_of(jobs, n, k),
    }
}

pub(crate) fn put_in(jobs: &mut Slab<Flight>, n: u32, worker: u32) -> usize
    requires { HasRoomFor jobs.old 1 }
    ensures mine { worker_at (get jobs.new) n (Some result) ≡ Some worker }
    ensures others { OthersStay n (get jobs.old) (get jobs.new) }
    ensures len { slab_len jobs.new ≡ slab_len jobs.old + 1 }
    ensures capacity { jobs.new.capacity ≡ jobs.old.capacity }
{
    jobs.insert_reserved(Flight { n, worker })
}

fn remove_at(jobs: &mut Slab<Flight>, n: u32, key: usize) -> Option<u32>
    ensures mine { result ≡ worker_of n (get jobs.old key) }
    ensures others { OthersStay n (get jobs.old) (get jobs.new) }
    ensures len { slab_len jobs.new + one result ≡ slab_len jobs.old }
    ensures capacity { jobs.new.capacity ≡ jobs.old.capacity }
{
    let worker = worker_of(jobs, n, key);
    if worker.is_some() {
        let _ = jobs.try_remove(key);
    }
    worker
}

pub(crate) fn take_out(jobs: &mut Slab<Flight>, n: u32, key: Option<usize>) -> Option<u32>
    ensures mine { result ≡ worker_at (get jobs.old) n key }
    ensures others { OthersStay n (get jobs.old) (get jobs.new) }
    ensures len { slab_len jobs.new + one result ≡ slab_len jobs.old }
    ensures capacity { jobs.new.capacity ≡ jobs.old.capacity }
{
    match key {
        None => None,
        Some(k) => remove_at(jobs, n, k),
    }
}
