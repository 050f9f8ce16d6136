//! Checks of names, expressions and assignments.

ghost use Rattle.std.specs.Prelude.{◌≡◌, map};
ghost use Rattle.std.specs.Option.{option_map};
ghost use Rattle.gs_tree.specs.View.{name_of, term_of, setting_of, var_of};
ghost use Rattle.gs_tree.specs.Variables.{is_wrong, term_kind};
ghost use Rattle.gs_check.specs.Faults.{fault_if, name_fault, inner_fault, wrong_fault, term_fault, maybe_term_fault, setting_fault, maybe_setting_fault};

use crate::kind::{CheckKind, Fault};
use crate::vars::{expr_kind, find_kind, first_line, is_wrong};
use gs_tree::{Assign, Expr, Ident, Var, VarKind};

pub(crate) fn fault_if(holds: bool, line: u32, kind: CheckKind) -> Option<Fault>
    ensures { result ≡ fault_if holds line kind }
{
    if holds {
        Some(Fault { line, kind })
    } else {
        None
    }
}

/// A name at which a variable of a kind is wanted.
pub(crate) fn name_fault(id: &Ident, vars: &[Var], wanted: VarKind) -> Option<Fault>
    ensures { result ≡ name_fault (map var_of vars.now) wanted (name_of id.now) }
{
    let kind = find_kind(vars, &id.name);
    let unknown = fault_if(kind.is_none(), id.line, CheckKind::Unknown);
    unknown.or(fault_if(is_wrong(wanted, kind), id.line, CheckKind::WrongKind))
}

/// An expression that isn't of the kind that is wanted.
fn wrong_fault(e: &Expr, vars: &[Var], wanted: VarKind) -> Option<Fault>
    ensures { result ≡ wrong_fault (map var_of vars.now) wanted (term_of e.now) }
{
    fault_if(
        is_wrong(wanted, expr_kind(e, vars)),
        first_line(e),
        CheckKind::WrongKind,
    )
}

/// Inside an expression; `here` stands at its first leaf, after all that is found at that leaf.
pub(crate) fn inner_fault(e: &Expr, vars: &[Var], here: Option<Fault>) -> Option<Fault>
    ensures { result ≡ inner_fault (map var_of vars.now) here (term_of e.now) }
{
    match e {
        Expr::Num { line: _, v: _ } => here,
        Expr::Lit { line: _, s: _ } => here,
        Expr::Name { id } => {
            let unknown = find_kind(vars, &id.name).is_none();
            fault_if(unknown, id.line, CheckKind::Unknown).or(here)
        }
        Expr::Atoi { e } => inner_fault(e, vars, wrong_fault(e, vars, VarKind::Str).or(here)),
        Expr::Strcmp { a, b } => {
            let first = inner_fault(a, vars, wrong_fault(a, vars, VarKind::Str).or(here));
            first.or(inner_fault(b, vars, wrong_fault(b, vars, VarKind::Str)))
        }
        Expr::Neg { e } => inner_fault(e, vars, wrong_fault(e, vars, VarKind::Int).or(here)),
        Expr::Not { e } => inner_fault(e, vars, wrong_fault(e, vars, VarKind::Int).or(here)),
        Expr::Two { op: _, a, b } => {
            let first = inner_fault(a, vars, wrong_fault(a, vars, VarKind::Int).or(here));
            first.or(inner_fault(b, vars, wrong_fault(b, vars, VarKind::Int)))
        }
    }
}

/// An expression at which a kind is wanted.
pub(crate) fn expr_fault(e: &Expr, vars: &[Var], wanted: VarKind) -> Option<Fault>
    ensures { result ≡ term_fault (map var_of vars.now) wanted (term_of e.now) }
{
    inner_fault(e, vars, wrong_fault(e, vars, wanted))
}

/// An assignment.
pub(crate) fn setting_fault(a: &Assign, vars: &[Var]) -> Option<Fault>
    ensures { result ≡ setting_fault (map var_of vars.now) (setting_of a.now) }
{
    let kind = find_kind(vars, &a.to.name);
    let unknown = fault_if(kind.is_none(), a.to.line, CheckKind::Unknown);
    let value = match kind {
        None => inner_fault(&a.value, vars, None),
        Some(VarKind::Handle) => fault_if(true, a.to.line, CheckKind::WrongKind),
        Some(VarKind::Int) => expr_fault(&a.value, vars, VarKind::Int),
        Some(VarKind::Str) => expr_fault(&a.value, vars, VarKind::Str),
    };
    unknown.or(value)
}

/// A part of a `for`'s head that may be absent.
pub(crate) fn maybe_setting_fault(a: &Option<Assign>, vars: &[Var]) -> Option<Fault>
    ensures { result ≡ maybe_setting_fault (map var_of vars.now) (option_map setting_of a.now) }
{
    match a {
        Some(a) => setting_fault(a, vars),
        None => None,
    }
}

/// A condition that may be absent.
pub(crate) fn maybe_expr_fault(e: &Option<Expr>, vars: &[Var], wanted: VarKind) -> Option<Fault>
    ensures { result ≡ maybe_term_fault (map var_of vars.now) wanted (option_map term_of e.now) }
{
    match e {
        Some(e) => expr_fault(e, vars, wanted),
        None => None,
    }
}
