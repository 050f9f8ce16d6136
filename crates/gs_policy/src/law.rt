// Laws of costs.
ghost use Rattle.std.specs.Prelude.{ℕ, ◌≤◌};
ghost use Rattle.gs_policy.specs.Cost.{Cost, IsLimited};

/// A law of costs: what each operation costs on each worker over so many bytes. No cost passes
/// `COST_LIMIT`.
pub trait CostLaw {
    ghost cost: { Self → Cost };

    ghost limited: { (law : Self) → IsLimited (cost law) };
}

/// The law by which every start costs nothing.
#[derive(Clone, Copy, PartialEq, Eq, Debug)]
pub struct Flat;

impl CostLaw for Flat {
    ghost use Rattle.std.proofs.Common.{arith};

    ghost cost = { λ law op worker bytes. 0 };

    ghost limited = { λ law op worker bytes range. Prim.omega arith };
}
