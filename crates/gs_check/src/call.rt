//! Checks of task calls.

ghost use Rattle.std.specs.Prelude.{◌≡◌, ◌&&◌, ◌≤◌, ◌<◌, [], length, map, Some, slice_get};
ghost use Rattle.gs_idl.specs.Interface.{Param, op_place, params_at, is_out, is_out_scalar};
ghost use Rattle.gs_tree.specs.View.{term_of, passed_of, name_of, var_of};
ghost use Rattle.gs_check.specs.Faults.{fault_if, place_kind, is_variable, is_variable_of, stands_out, repeats, leads_with_leaf, passed_place_fault, own_fault, passed_fault, all_passed_fault, call_fault};

use crate::expr::{fault_if, inner_fault};
use crate::kind::{CheckKind, Fault};
use crate::vars::{begins_with_leaf, expr_kind, first_line, is_wrong};
use gs_idl::{Dir, Idl, ParamKind};
use gs_tree::{Argument, Expr, Ident, Var, VarKind};

// A file's name is passed as a string.
fn place_kind(kind: ParamKind) -> VarKind
    ensures { result ≡ place_kind kind }
{
    match kind {
        ParamKind::File => VarKind::Str,
        ParamKind::Int => VarKind::Int,
        ParamKind::Str => VarKind::Str,
    }
}

fn is_out(dir: Dir) -> bool
    ensures { result ≡ is_out dir }
{
    match dir {
        Dir::Output => true,
        Dir::Input => false,
        Dir::Both => false,
    }
}

fn is_out_scalar(dir: Dir, kind: ParamKind) -> bool
    ensures { (p : Param) → p.dir ≡ dir → p.kind ≡ kind → result ≡ is_out_scalar p }
{
    let scalar = match kind {
        ParamKind::File => false,
        ParamKind::Int => true,
        ParamKind::Str => true,
    };
    is_out(dir) && scalar
}

fn is_variable(e: &Expr) -> bool
    ensures { result ≡ is_variable (term_of e.now) }
{
    match e {
        Expr::Num { line: _, v: _ } => false,
        Expr::Lit { line: _, s: _ } => false,
        Expr::Name { id: _ } => true,
        Expr::Atoi { e: _ } => false,
        Expr::Strcmp { a: _, b: _ } => false,
        Expr::Neg { e: _ } => false,
        Expr::Not { e: _ } => false,
        Expr::Two { op: _, a: _, b: _ } => false,
    }
}

fn is_variable_of(name: &[u8], e: &Expr) -> bool
    ensures { result ≡ is_variable_of name.now (term_of e.now) }
{
    match e {
        Expr::Num { line: _, v: _ } => false,
        Expr::Lit { line: _, s: _ } => false,
        Expr::Name { id } => id.name.as_slice() == name,
        Expr::Atoi { e: _ } => false,
        Expr::Strcmp { a: _, b: _ } => false,
        Expr::Neg { e: _ } => false,
        Expr::Not { e: _ } => false,
        Expr::Two { op: _, a: _, b: _ } => false,
    }
}

fn leads_with_leaf(a: &Argument) -> bool
    ensures { result ≡ leads_with_leaf (passed_of a.now) }
{
    !a.by_address && begins_with_leaf(&a.e) && a.line == first_line(&a.e)
}

fn place_fault(a: &Argument, vars: &[Var], dir: Dir, kind: ParamKind) -> Option<Fault>
    ensures { (p : Param) → p.dir ≡ dir → p.kind ≡ kind
        → result ≡ passed_place_fault (map var_of vars.now) p (passed_of a.now) }
{
    let wrong = is_wrong(place_kind(kind), expr_kind(&a.e, vars));
    let no_variable = if is_out_scalar(dir, kind) {
        !is_variable(&a.e)
    } else {
        a.by_address
    };
    fault_if(wrong, a.line, CheckKind::WrongKind).or(fault_if(
        no_variable,
        a.line,
        CheckKind::NotVariable,
    ))
}

fn stands_out(idl: &Idl, op: u8, before: &[Argument], name: &[u8]) -> bool
    requires room { length before.now ≤ length (params_at idl.now.ops op) }
    requires few { length before.now < 256 }
    ensures { result ≡ stands_out (params_at idl.now.ops op) (map passed_of before.now) name.now }
{
    for k in 0..before.len() {
        let (dir, _kind) = idl.param(op, k as u8);
        if is_out(dir) && is_variable_of(name, &before[k].e) {
            return true;
        }
    }
    false
}

// The argument is a variable that stands in an out place before.
fn repeats(idl: &Idl, op: u8, before: &[Argument], e: &Expr) -> bool
    requires room { length before.now ≤ length (params_at idl.now.ops op) }
    requires few { length before.now < 256 }
    ensures { result ≡ repeats (params_at idl.now.ops op) (map passed_of before.now)
        (term_of e.now) }
{
    match e {
        Expr::Num { line: _, v: _ } => false,
        Expr::Lit { line: _, s: _ } => false,
        Expr::Name { id } => stands_out(idl, op, before, &id.name),
        Expr::Atoi { e: _ } => false,
        Expr::Strcmp { a: _, b: _ } => false,
        Expr::Neg { e: _ } => false,
        Expr::Not { e: _ } => false,
        Expr::Two { op: _, a: _, b: _ } => false,
    }
}

fn own_fault(a: &Argument, vars: &[Var], here: Option<Fault>) -> Option<Fault>
    ensures { result ≡ own_fault (map var_of vars.now) here (passed_of a.now) }
{
    if leads_with_leaf(a) {
        inner_fault(&a.e, vars, here)
    } else {
        here.or(inner_fault(&a.e, vars, None))
    }
}

// A variable in an out place that stands in one before.
fn twice_fault(dir: Dir, again: bool, line: u32) -> Option<Fault>
    ensures { result ≡ fault_if (is_out dir && again) line CheckKind.Twice }
{
    fault_if(is_out(dir) && again, line, CheckKind::Twice)
}

fn passed_fault(idl: &Idl, op: u8, before: &[Argument], a: &Argument, vars: &[Var]) -> Option<Fault>
    requires room { length before.now < length (params_at idl.now.ops op) }
    requires few { length before.now < 256 }
    ensures { (p : Param) → slice_get (params_at idl.now.ops op) (length before.now) ≡ Some p
        → result ≡ passed_fault (map var_of vars.now) (params_at idl.now.ops op)
        (map passed_of before.now) p (passed_of a.now) }
{
    let (dir, kind) = idl.param(op, before.len() as u8);
    let again = repeats(idl, op, before, &a.e);
    let twice = twice_fault(dir, again, a.line);
    twice.or(own_fault(a, vars, place_fault(a, vars, dir, kind)))
}

fn args_fault(idl: &Idl, op: u8, args: &[Argument], vars: &[Var]) -> Option<Fault>
    requires room { length args.now ≡ length (params_at idl.now.ops op) }
    requires few { length args.now < 256 }
    ensures { let params = params_at idl.now.ops op in
        result ≡ all_passed_fault (map var_of vars.now) params [] params (map passed_of args.now) }
{
    for j in 0..args.len() {
        let found = passed_fault(idl, op, &args[..j], &args[j], vars);
        if found.is_some() {
            return found;
        }
    }
    None
}

/// A task call.
pub(crate) fn call_fault(idl: &Idl, op: &Ident, args: &[Argument], vars: &[Var]) -> Option<Fault>
    ensures { result ≡ call_fault idl.now.ops (map var_of vars.now)
        (op_place idl.now.ops (name_of op.now).text) op.now.line (map passed_of args.now) }
{
    match idl.find(&op.name) {
        None => fault_if(true, op.line, CheckKind::Unknown),
        Some(i) => {
            if args.len() != idl.param_count(i) as usize {
                return fault_if(true, op.line, CheckKind::WrongCount);
            }
            args_fault(idl, i, args, vars)
        }
    }
}
