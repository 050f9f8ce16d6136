//! Checking a program.

ghost use Rattle.std.specs.Prelude.{◌≡◌, ◌≢◌, ℕ, None, Some, IfOk, Err};
ghost use Rattle.gs_tree.specs.View.{program_of};
ghost use Rattle.gs_check.specs.Faults.{fault_of};
ghost use Rattle.gs_check.specs.declared.kind.CheckKind.{CheckKind};
ghost use Rattle.gs_check.specs.Passing.{program_in, interface_in};

use crate::checked::Checked;
use crate::kind::{CheckKind, Fault};
use crate::names::vars_fault;
use crate::stmt::{body_fault, initial_fault};
use gs_idl::Idl;
use gs_tree::Tree;
use std::alloc::{AllocError, Global};

/// What `check` answers in place of a checked program: the first fault, or want of memory.
#[derive(Clone, Copy, PartialEq, Eq, Debug)]
pub enum CheckErr {
    At { line: u32, kind: CheckKind },
    NoMemory,
}

impl From<AllocError> for CheckErr {
    fn from(_e: AllocError) -> CheckErr
        ensures { result ≡ CheckErr.NoMemory }
    {
        CheckErr::NoMemory
    }
}

fn tree_fault(tree: &Tree, idl: &Idl) -> Option<Fault>
    ensures { result ≡ fault_of idl.now.ops (program_of tree.now) }
{
    vars_fault(idl, &tree.vars)
        .or_else(|| initial_fault(&tree.first, &tree.vars))
        .or_else(|| body_fault(&tree.body, idl, &tree.vars))
}

/// Checks a program against the operations that it may call. On a fault both are given up. It takes
/// no memory yet.
pub fn check(_alloc: Global, tree: Tree, idl: Idl) -> Result<Checked, CheckErr>
    ensures program { IfOk result (λ c. program_in c ≡ program_of tree) }
    ensures operations { IfOk result (λ c. interface_in c ≡ idl) }
    ensures passed { IfOk result (λ c. fault_of idl.ops (program_of tree) ≡ None) }
    ensures fault { (line : ℕ) (kind : CheckKind) → result ≡ Err (CheckErr.At line kind)
        → fault_of idl.ops (program_of tree) ≡ Some (record { line = line; kind = kind }) }
    ensures memory { result ≢ Err CheckErr.NoMemory }
{
    match tree_fault(&tree, &idl) {
        Some(fault) => Err(CheckErr::At {
            line: fault.line,
            kind: fault.kind,
        }),
        None => Ok(Checked { tree, idl }),
    }
}
