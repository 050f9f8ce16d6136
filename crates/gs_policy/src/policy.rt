// A closure with the law that it follows.
ghost use Rattle.std.specs.Prelude.{◌≡◌, ℕ, ◌≤◌};
ghost use Rattle.gs_policy.specs.Cost.{IsInRange};
ghost use Rattle.gs_policy.specs.Facts.{AreFacts, IsCallable, Answers, AreFacts-prop, IsCallable-prop};
ghost use Rattle.gs_policy.specs.declared.limits.TheConstants.{COST_LIMIT};

use crate::CostLaw;
use std::snapshot::Snapshot;

/// What answers costs. Every closure of this form does.
pub trait Prices {
    ghost may: { Self → ℕ → ℕ → ℕ → Type 0 };

    ghost gives: { Self → ℕ → ℕ → ℕ → ℕ → Type 0 };

    fn price(&self, op: u32, worker: u32, bytes: u64) -> u64
        requires { may self.now op worker bytes }
        ensures { gives self.now op worker bytes result };
}

impl<F: Fn(u32, u32, u64) -> u64> Prices for F {
    ghost may = { λ f op worker bytes. F.pre f op worker bytes };

    ghost gives = { λ f op worker bytes c. F.post f op worker bytes c };

    fn price(&self, op: u32, worker: u32, bytes: u64) -> u64 {
        self(op, worker, bytes)
    }
}

/// A closure, the law of costs that it follows, and the fact that it answers this law's cost.
#[derive(Drop)]
pub struct Policy<F: Prices, C: CostLaw> {
    f: F,
    pub law: Snapshot<C>,
    ghost facts: { AreFacts (F.may f) } by { AreFacts-prop (F.may f) },
    ghost callable: { IsCallable (F.may f) } by { IsCallable-prop (F.may f) facts },
    ghost answers: { Answers (F.gives f) (C.cost law.value) },
}

impl<F: Prices, C: CostLaw> Policy<F, C> {
    /// The policy of a closure that may be called with each operation below 64, each worker below
    /// 64 and at most 268,435,456 bytes, and that answers the law's cost there.
    pub fn new(f: F, law: &C) -> Policy<F, C>
        requires facts { AreFacts (F.may f) }
        requires callable { IsCallable (F.may f) }
        requires answers { Answers (F.gives f) (C.cost law.now) }
        ensures { result.law.value ≡ law.now }
    {
        Policy {
            f,
            law: Snapshot::of(law),
        }
    }

    /// What the operation costs on the worker over so many bytes: the law's cost.
    pub fn cost(&self, op: u32, worker: u32, bytes: u64) -> u64
        requires { IsInRange op worker bytes }
        ensures cost { result ≡ C.cost self.now.law.value op worker bytes }
        ensures limited { result ≤ COST_LIMIT }
    {
        self.f.price(op, worker, bytes)
    }
}
