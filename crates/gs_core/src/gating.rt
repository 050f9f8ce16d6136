// What is recorded where the program has ended.
use crate::machine::Core;
use gs_entries::GateNote;
use gs_tables::Gated;
use gs_types::{Blob, NoMemory, Sequence};

impl Core {
    ghost use Rattle.std.specs.Prelude.{◌≡◌, ℕ, IfOk};
    ghost use Rattle.gs_types.specs.History.{History};
    ghost use Rattle.gs_history.specs.Setup.{Setup};
    ghost use Rattle.gs_core.specs.declared.stage.Stage.TheVariants as stage;
    ghost use Rattle.gs_core.specs.declared.verdict.Verdict.TheVariants as verdict;
    ghost use Rattle.gs_core.specs.Core.{Stands, IsVerdict};
    ghost use Rattle.gs_core.specs.Gate.{IsGate};

    /// What the program did and left, where it has ended: where the verdict is `Ended`. Each part
    /// is as long as the program's own, and the only error is want of memory.
    pub fn gate_note(&self) -> Result<GateNote, NoMemory>
        requires { self.now.stage ≡ stage.Settled }
        ensures { (s : Setup) (k : ℕ) (h : History) → Stands self.now s k h →
            IsVerdict s k h verdict.Ended → IfOk result (IsGate s k) }
    {
        let Gated {
            names,
            finals,
            actions,
        } = self.tables.gate()?;
        Ok(GateNote {
            names,
            finals,
            text: Blob::copy(self.alloc, self.main.text())?,
            vars: Sequence::of(self.main.vars(self.alloc)?),
            actions,
        })
    }
}
