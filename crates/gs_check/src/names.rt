//! Checks of the declared names.

ghost use Rattle.std.specs.Prelude.{◌≡◌, ◌==◌, ◌||◌, length, map, [], take, drop, is_some};
ghost use Rattle.gs_tree.specs.View.{name_of, var_of};
ghost use Rattle.gs_tree.specs.Variables.{declared_kind};
ghost use Rattle.gs_check.specs.Faults.{fault_if, is_taken, vars_fault, ◌then◌};

use crate::expr::fault_if;
use crate::kind::{CheckKind, Fault};
use crate::vars::find_kind;
use gs_idl::Idl;
use gs_tree::Var;

/// The most variables of a program.
const MAX_VARS: usize = 128;

fn is_taken(idl: &Idl, before: &[Var], name: &[u8]) -> bool
    ensures { result ≡ is_taken idl.now.ops (map var_of before.now) name.now }
{
    find_kind(before, name).is_some() || idl.find(name).is_some()
}

fn var_fault(idl: &Idl, before: &[Var], v: &Var) -> Option<Fault>
    ensures { result ≡ fault_if (is_taken idl.now.ops (map var_of before.now)
        (name_of v.now.name).text) v.now.name.line CheckKind.Twice
        then fault_if (length (map var_of before.now) == 128) v.now.name.line CheckKind.TooMany }
{
    let twice = fault_if(
        is_taken(idl, before, &v.name.name),
        v.name.line,
        CheckKind::Twice,
    );
    twice.or(fault_if(before.len() == MAX_VARS, v.name.line, CheckKind::TooMany))
}

/// The declared variables.
pub(crate) fn vars_fault(idl: &Idl, vars: &[Var]) -> Option<Fault>
    ensures { result ≡ vars_fault idl.now.ops [] (map var_of vars.now) }
{
    for i in 0..vars.len() {
        let found = var_fault(idl, &vars[..i], &vars[i]);
        if found.is_some() {
            return found;
        }
    }
    None
}
