//! Checks of statements.

ghost use Rattle.std.specs.Prelude.{◌≡◌, map, None, MatchOption};
ghost use Rattle.std.specs.Option.{option_map};
ghost use Rattle.gs_tree.specs.View.{code_of, codes_of, name_of, setting_of, term_of, var_of};
ghost use Rattle.gs_check.specs.Faults.{◌then◌, code_fault, codes_fault, initial_fault, maybe_setting_fault, maybe_term_fault, name_fault, term_fault};

use crate::call::call_fault;
use crate::expr::{expr_fault, maybe_expr_fault, maybe_setting_fault, name_fault, setting_fault};
use crate::format::format_fault;
use crate::kind::Fault;
use gs_idl::Idl;
use gs_tree::{Assign, Expr, Ident, Stmt, Var, VarKind};

/// The initial assignments.
pub(crate) fn initial_fault(first: &[Assign], vars: &[Var]) -> Option<Fault>
    ensures { result ≡ initial_fault (map var_of vars.now) (map setting_of first.now) }
{
    for a in first {
        let found = setting_fault(a, vars);
        if found.is_some() {
            return found;
        }
    }
    None
}

/// The statements of a body.
#[cycle(statements)]
pub(crate) fn body_fault(body: &[Stmt], idl: &Idl, vars: &[Var]) -> Option<Fault>
    ensures { result ≡ codes_fault idl.now.ops (map var_of vars.now) (codes_of body.now) }
{
    for s in body {
        let found = stmt_fault(s, idl, vars);
        if found.is_some() {
            return found;
        }
    }
    None
}

#[cycle(statements)]
fn stmt_fault(s: &Stmt, idl: &Idl, vars: &[Var]) -> Option<Fault>
    ensures { result ≡ code_fault idl.now.ops (map var_of vars.now) (code_of s.now) }
{
    match s {
        Stmt::Empty { .. } => None,
        Stmt::Block { body, .. } => body_fault(body, idl, vars),
        Stmt::Set { a } => setting_fault(a, vars),
        Stmt::If { cond, yes, no, .. } => {
            guarded_fault(yes, cond, idl, vars).or(else_fault(no, idl, vars))
        }
        Stmt::While { cond, body, .. } => guarded_fault(body, cond, idl, vars),
        Stmt::For {
            first,
            cond,
            step,
            body,
            ..
        } => head_fault(first, cond, step, vars).or(body_fault(body, idl, vars)),
        Stmt::OpenFile { to, path, .. } => open_fault(to, path, vars),
        Stmt::ReadLine {
            got,
            handle,
            to,
            ..
        } => line_fault(got, handle, to, vars),
        Stmt::CloseFile { handle, .. } => name_fault(handle, vars, VarKind::Handle),
        Stmt::Barrier { .. } => None,
        Stmt::Print { format, args, .. } => format_fault(format, args, vars),
        Stmt::PrintFile {
            handle,
            format,
            args,
            ..
        } => name_fault(handle, vars, VarKind::Handle).or(format_fault(format, args, vars)),
        Stmt::PrintStr {
            to,
            format,
            args,
            ..
        } => name_fault(to, vars, VarKind::Str).or(format_fault(format, args, vars)),
        Stmt::Call { op, args } => call_fault(idl, op, args, vars),
    }
}

// A condition, and the statements that it guards.
#[cycle(statements)]
fn guarded_fault(body: &[Stmt], cond: &Expr, idl: &Idl, vars: &[Var]) -> Option<Fault>
    ensures { result ≡ term_fault (map var_of vars.now) VarKind.Int (term_of cond.now)
        then codes_fault idl.now.ops (map var_of vars.now) (codes_of body.now) }
{
    expr_fault(cond, vars, VarKind::Int).or(body_fault(body, idl, vars))
}

// What stands after an `else`, where one stands.
#[cycle(statements)]
fn else_fault(no: &Option<Vec<Stmt>>, idl: &Idl, vars: &[Var]) -> Option<Fault>
    ensures { MatchOption no.now (result ≡ None) (λ body. result ≡ codes_fault idl.now.ops
        (map var_of vars.now) (codes_of body.items)) }
{
    match no {
        Some(body) => body_fault(body, idl, vars),
        None => None,
    }
}

// The head of a `for`.
fn head_fault(
    first: &Option<Assign>,
    cond: &Option<Expr>,
    step: &Option<Assign>,
    vars: &[Var],
) -> Option<Fault>
    ensures { result ≡ maybe_setting_fault (map var_of vars.now) (option_map setting_of first.now)
        then maybe_term_fault (map var_of vars.now) VarKind.Int (option_map term_of cond.now)
        then maybe_setting_fault (map var_of vars.now) (option_map setting_of step.now) }
{
    let head = maybe_setting_fault(first, vars).or(maybe_expr_fault(cond, vars, VarKind::Int));
    head.or(maybe_setting_fault(step, vars))
}

// The name and the path of a `GS_FOpen`.
fn open_fault(to: &Ident, path: &Expr, vars: &[Var]) -> Option<Fault>
    ensures { result ≡ name_fault (map var_of vars.now) VarKind.Handle (name_of to.now)
        then term_fault (map var_of vars.now) VarKind.Str (term_of path.now) }
{
    name_fault(to, vars, VarKind::Handle).or(expr_fault(path, vars, VarKind::Str))
}

// The names of an `fgetline`.
fn line_fault(got: &Ident, handle: &Ident, to: &Ident, vars: &[Var]) -> Option<Fault>
    ensures { result ≡ name_fault (map var_of vars.now) VarKind.Int (name_of got.now)
        then name_fault (map var_of vars.now) VarKind.Handle (name_of handle.now)
        then name_fault (map var_of vars.now) VarKind.Str (name_of to.now) }
{
    let first = name_fault(got, vars, VarKind::Int).or(name_fault(handle, vars, VarKind::Handle));
    first.or(name_fault(to, vars, VarKind::Str))
}
