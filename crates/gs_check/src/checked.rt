//! Programs that passed the checks.

ghost use Rattle.std.specs.Prelude.{◌≡◌, false, is_some};
ghost use Rattle.gs_tree.specs.View.{program_of};
ghost use Rattle.gs_check.specs.Faults.{fault_of};

use gs_idl::Idl;
use gs_tree::Tree;

/// A program and the operations that it may call. It passed the checks.
#[derive(Drop)]
pub struct Checked {
    pub(crate) tree: Tree,
    pub(crate) idl: Idl,
    ghost passed: { is_some (fault_of idl.ops (program_of tree)) ≡ false },
}

impl Checked {
    ghost use Rattle.gs_check.specs.Passing.{program_in, interface_in};
    ghost use Rattle.gs_check.specs.Passes.{ProgramPasses};

    /// The program.
    pub fn tree(&self) -> &Tree
        ensures program { program_of result.now ≡ program_in self.now }
        ensures passed { is_some (fault_of (interface_in self.now).ops (program_in self.now))
            ≡ false }
        ensures passes { ProgramPasses (interface_in self.now).ops (program_in self.now) }
    {
        &self.tree
    }

    /// The operations.
    pub fn idl(&self) -> &Idl
        ensures { result.now ≡ interface_in self.now }
    {
        &self.idl
    }
}
