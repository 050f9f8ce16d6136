// Policies of closures.
ghost use Rattle.std.specs.Prelude.{◌≡◌, ◌<◌, ◌≤◌, ◌-◌};
ghost use Rattle.gs_policy.specs.Facts.{AreFacts, IsCallable, Answers};

use crate::{CostLaw, Flat, Policy, Prices};

// The later worker is cheaper.
struct LaterFirst;

impl CostLaw for LaterFirst {
    ghost use Rattle.std.specs.Prelude.{◌-◌};
    ghost use Rattle.std.proofs.Common.{arith};

    ghost cost = { λ law op worker bytes. 100 - worker };

    ghost limited = { λ law op worker bytes range. Prim.omega arith };
}

// What a policy of the closure answers.
fn cost_by<F: Prices + Drop, C: CostLaw>(f: F, law: &C, worker: u32) -> u64
    requires facts { AreFacts (F.may f) }
    requires callable { IsCallable (F.may f) }
    requires answers { Answers (F.gives f) (C.cost law.now) }
    requires worker { worker < 64 }
    ensures { result ≡ C.cost law.now 1 worker 3 }
{
    let policy = Policy::new(f, law);
    policy.cost(1, worker, 3)
}

#[test]
fn the_flat_law_costs_nothing() {
    let cost = cost_by(|_op: u32, _worker: u32, _bytes: u64| 0, &Flat, 2);
    prove!(cost == 0);
}

#[test]
fn a_policy_answers_its_closure() {
    let cost = cost_by(
        |_op: u32, worker: u32, _bytes: u64| -> u64
            requires { worker < 64 }
            ensures { result ≡ 100 - worker }
        { u64::from(100 - worker) },
        &LaterFirst,
        2,
    );
    prove!(cost == 98);
}
