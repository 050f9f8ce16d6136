// What operations mean.
ghost use Rattle.std.specs.Prelude.{◌≡◌, ℕ, List, Option, None, option_map, IfOk};
ghost use Rattle.gs_types.specs.Job.{Meaning};

use crate::{NoMemory, Value};
use std::alloc::Global;

/// A law: from an operation's name and the values that it takes, in order, to the values that it
/// gives, in order, or none.
pub trait Law {
    ghost meaning: { Self → Meaning };

    /// What the law says of these inputs. The only error is want of memory.
    fn apply(&self, alloc: Global, op: &[u8], ins: &[Value]) -> Result<Option<Vec<Value>>, NoMemory>
        ensures { IfOk result (λ outs. option_map (λ v. v.items) outs
            ≡ meaning self.now op.now ins.now) };
}

/// The law that gives nothing.
#[derive(Clone, Copy, Debug, PartialEq, Eq)]
pub struct NoLaw;

impl Law for NoLaw {
    ghost meaning = { λ law op ins. None };

    fn apply(
        &self,
        _alloc: Global,
        _op: &[u8],
        _ins: &[Value],
    ) -> Result<Option<Vec<Value>>, NoMemory> {
        Ok(None)
    }
}
