// Choices of a broker of two workers.
ghost use Rattle.std.specs.Prelude.{◌≡◌, ◌<◌, ◌≤◌, ◌-◌, IfOk};
ghost use Rattle.gs_policy.specs.Facts.{AreFacts, IsCallable, Answers};
ghost use Rattle.gs_broker.specs.Choice.{AreInRange};
ghost use Rattle.gs_broker.specs.Listed.{slots_of_list};

use crate::workers::{Worker, Workers};
use crate::{Broker, Loss, Ready};
use gs_policy::{CostLaw, Policy, Prices};
use gs_types::{Name, NoMemory};
use std::alloc::Global;
use std::test::Fail;

// The later worker is cheaper.
struct LaterFirst;

impl CostLaw for LaterFirst {
    ghost use Rattle.std.specs.Prelude.{◌-◌};
    ghost use Rattle.std.proofs.Common.{arith};

    ghost cost = { λ law op worker bytes. 100 - worker };

    ghost limited = { λ law op worker bytes range. Prim.omega arith };
}

// A worker of one slot that takes one operation.
fn worker(alloc: Global, name: Name) -> Result<Worker, NoMemory>
    ensures { IfOk result (λ w. w.slots ≡ 1) }
{
    Ok(Worker {
        name,
        slots: 1,
        program: vec![in alloc; b'p']?,
        takes: vec![in alloc; true]?,
    })
}

fn two_workers(alloc: Global, a: Name, b: Name) -> Result<Workers, NoMemory>
    ensures { IfOk result (λ ws. (slots_of_list ws 0 ≡ 1) × (slots_of_list ws 1 ≡ 1)) }
{
    let mut workers = Workers::empty(alloc);
    let first = worker(alloc, a)?;
    workers.push(first)?;
    let second = worker(alloc, b)?;
    workers.push(second)?;
    Ok(workers)
}

fn ready(n: u32) -> Ready
    ensures { (result.op ≡ 0) × (result.bytes ≡ 0) }
{
    Ready { n, op: 0, bytes: 0 }
}

// What the broker picks by the closure.
fn picked<F: Prices + Drop, C: CostLaw>(
    f: F,
    law: &C,
    broker: &Broker,
    ready: &[Ready],
) -> Option<(u32, u32)>
    requires facts { AreFacts (F.may f) }
    requires callable { IsCallable (F.may f) }
    requires answers { Answers (F.gives f) (C.cost law.now) }
    requires ready { AreInRange ready.now }
{
    let policy = Policy::new(f, law);
    broker.pick(&policy, ready)
}

fn later_first(broker: &Broker, ready: &[Ready]) -> Option<(u32, u32)>
    requires { AreInRange ready.now }
{
    picked(
        |_op: u32, worker: u32, _bytes: u64| -> u64
            requires { worker < 64 }
            ensures { result ≡ 100 - worker }
        { u64::from(100 - worker) },
        &LaterFirst,
        broker,
        ready,
    )
}

#[test]
fn the_cheaper_worker_takes_the_first_task(rt: HostRuntime) -> Result<(), Fail> {
    let workers = two_workers(rt.alloc(), Name::read(b"a")?, Name::read(b"b")?)?;
    let mut broker = Broker::new(rt.alloc(), workers, 3)?;
    broker.reserve(2)?;
    let first = later_first(&broker, &[ready(1), ready(2)]);
    assert!(rt; first == Some((1, 1)));
    broker.started(1, 1);
    let second = later_first(&broker, &[ready(2)]);
    assert!(rt; second == Some((2, 0)));
    let loss = broker.failed(1);
    assert!(rt; loss == Loss::Keep);
    assert!(rt; broker.no_worker(&[ready(1)]).is_none());
    Ok(())
}
