// What a core tells of its tasks.
use crate::machine::Core;
use gs_idl::Idl;

impl Core {
    ghost use Rattle.std.specs.Prelude.{◌≡◌, ◌<◌, ℕ, length, IfSome, option_map};
    ghost use Rattle.gs_types.specs.History.{History};
    ghost use Rattle.gs_talk.specs.Seq.{task_at};
    ghost use Rattle.gs_main.specs.Shown.{talking};
    ghost use Rattle.gs_history.specs.Setup.{Setup, world_at};
    ghost use Rattle.gs_core.specs.Core.{Stands};

    /// The operations of the program.
    pub fn idl(&self) -> &Idl
        ensures { result.now ≡ (talking self.now.main).interface }
    {
        self.main.idl()
    }

    /// The operation of task `n`; `None` exactly where no such task was called.
    pub fn operation(&self, n: u32) -> Option<u8>
        ensures known { IfSome result (λ op. op < length (talking self.now.main).interface.ops) }
        ensures is { (s : Setup) (k : ℕ) (h : History) → Stands self.now s k h →
            result ≡ option_map (λ t. t.op) (task_at (world_at s k).tasks n) }
    {
        match self.tables.operation(n) {
            Some(op) if op < self.main.idl().op_count() => Some(op),
            _ => None,
        }
    }
}
