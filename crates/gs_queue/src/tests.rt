// Ten thousand tasks over four workers of one slot.
ghost use Rattle.std.specs.Prelude.{◌≡◌, ◌<◌, ◌≤◌, ◌+◌, ◌^◌, ℕ, None};
ghost use Rattle.gs_policy.specs.Facts.{AreFacts, IsCallable, Answers};
ghost use Rattle.gs_broker.specs.Choice.{IsTaskInRange};
ghost use Rattle.gs_queue.specs.Queue.{tasks_of, listed_of, job_of};

use crate::Queue;
use gs_broker::{Broker, Loss, Ready, Workers};
use gs_policy::{CostLaw, Flat, Policy, Prices};
use gs_types::NoMemory;
use std::test::Fail;

const IDL: &[u8] = b"interface K { void join(in File a); }";

const LIST: &[u8] = b"a 1 p *\nb 1 p *\nc 1 p *\nd 1 p *\n";

const WORKERS: u32 = 4;

const KINDS: u32 = 7;

const TASKS: u32 = 10_000;

const FINISHED: u32 = 9_900;

// Tasks of a few lengths, side by side.
fn task(n: u32) -> Ready
    ensures range { IsTaskInRange result }
    ensures number { result.n ≡ n }
{
    Ready {
        n,
        op: 0,
        bytes: (n % KINDS) as u64,
    }
}

// So many tasks, each listed.
fn fill(queue: &mut Queue, count: u32) -> Result<(), NoMemory>
    requires tasks { tasks_of queue.old ≡ 0 }
{
    for n in 0..count {
        queue.grow()?;
        queue.list(task(n + 1));
    }
    Ok(())
}

// Starts and finishes so many tasks, each picked for the first worker. How many went so.
fn finish<F: Prices, C: CostLaw>(p: &Policy<F, C>, queue: &mut Queue, count: u32) -> u32 {
    for i in 0..count {
        match queue.pick(p) {
            Some((n, w)) if n == i + 1 && w == 0 => {
                queue.started(n, w);
                queue.finished(n);
            }
            _ => return i,
        }
    }
    count
}

// Whether the next tasks start, one on each worker.
fn start_on_each<F: Prices, C: CostLaw>(p: &Policy<F, C>, queue: &mut Queue) -> bool {
    for i in 0..WORKERS {
        match queue.pick(p) {
            Some((n, w)) if n == FINISHED + 1 + i && w == i => queue.started(n, w),
            _ => return false,
        }
    }
    true
}

// Whether these tasks are in flight, and fail, and are lost, or kept, each.
fn fail_each(queue: &mut Queue, are_lost: bool) -> bool {
    for i in 0..WORKERS {
        let n = FINISHED + 1 + i;
        if queue.job(n) != Some(i) || queue.is_listed(n) {
            return false;
        }
        if (queue.failed(task(n)) == Loss::Task { n }) != are_lost {
            return false;
        }
    }
    true
}

// In how many rounds each worker was given the same task, and it failed.
fn rounds<F: Prices, C: CostLaw>(p: &Policy<F, C>, queue: &mut Queue) -> u32 {
    for round in 0..TASKS {
        if !start_on_each(p, queue) || queue.any_job().is_none() || !fail_each(queue, round == 2) {
            return round;
        }
    }
    TASKS
}

fn finish_and_fail<F: Prices + Drop, C: CostLaw>(f: F, law: &C, queue: &mut Queue) -> (u32, u32)
    requires facts { AreFacts (F.may f) }
    requires callable { IsCallable (F.may f) }
    requires answers { Answers (F.gives f) (C.cost law.now) }
{
    let policy = Policy::new(f, law);
    let finished = finish(&policy, queue, FINISHED);
    let failed = rounds(&policy, queue);
    (finished, failed)
}

fn finish_and_fail_for_nothing(queue: &mut Queue) -> (u32, u32) {
    finish_and_fail(
        |_op: u32, _worker: u32, _bytes: u64| -> u64
            ensures { result ≡ 0 }
        { 0 },
        &Flat,
        queue,
    )
}

#[test]
fn tasks_come_in_order_and_come_back_until_their_workers_are_lost(
    rt: HostRuntime,
) -> Result<(), Fail> {
    let idl = gs_idl::read(rt.alloc(), IDL)?;
    let workers = Workers::read(rt.alloc(), LIST, &idl)?;
    let broker = Broker::new(rt.alloc(), workers, 3)?;
    let mut queue = Queue::new(rt.alloc(), broker);
    fill(&mut queue, TASKS)?;
    assert!(rt; queue.count() == TASKS);
    assert!(rt; queue.workers().count() == WORKERS);
    assert!(rt; queue.is_listed(TASKS));
    assert!(rt; !queue.is_listed(TASKS + 1));
    assert!(rt; queue.no_worker().is_none());
    assert!(rt; finish_and_fail_for_nothing(&mut queue) == (FINISHED, 5));
    assert!(rt; queue.no_worker() == Some(FINISHED + 1));
    assert!(rt; queue.job(FINISHED + 1).is_none());
    assert!(rt; queue.any_job().is_none());
    Ok(())
}
