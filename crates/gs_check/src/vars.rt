//! The declared variables, and the kinds of expressions.

ghost use Rattle.std.specs.Prelude.{◌≡◌, map};
ghost use Rattle.gs_tree.specs.View.{term_of, var_of};
ghost use Rattle.gs_tree.specs.Variables.{declared_kind, same_kind, term_kind, is_wrong, first_line, begins_with_leaf};

use gs_tree::{Expr, Var, VarKind};

/// The kind of the variable of a name.
pub(crate) fn find_kind(vars: &[Var], name: &[u8]) -> Option<VarKind>
    ensures { result ≡ declared_kind (map var_of vars.now) name.now }
{
    for v in vars {
        if v.name.name.as_slice() == name {
            return Some(v.kind);
        }
    }
    None
}

fn same_kind(a: VarKind, b: VarKind) -> bool
    ensures { result ≡ same_kind a b }
{
    match a {
        VarKind::Int => matches!(b, VarKind::Int),
        VarKind::Str => matches!(b, VarKind::Str),
        VarKind::Handle => matches!(b, VarKind::Handle),
    }
}

/// A kind is known, and isn't the one that is wanted.
pub(crate) fn is_wrong(wanted: VarKind, kind: Option<VarKind>) -> bool
    ensures { result ≡ is_wrong wanted kind }
{
    match kind {
        Some(kind) => !same_kind(wanted, kind),
        None => false,
    }
}

/// An expression's kind; None for a variable that isn't declared.
pub(crate) fn expr_kind(e: &Expr, vars: &[Var]) -> Option<VarKind>
    ensures { result ≡ term_kind (map var_of vars.now) (term_of e.now) }
{
    match e {
        Expr::Num { line: _, v: _ } => Some(VarKind::Int),
        Expr::Lit { line: _, s: _ } => Some(VarKind::Str),
        Expr::Name { id } => find_kind(vars, &id.name),
        Expr::Atoi { e: _ } => Some(VarKind::Int),
        Expr::Strcmp { a: _, b: _ } => Some(VarKind::Int),
        Expr::Neg { e: _ } => Some(VarKind::Int),
        Expr::Not { e: _ } => Some(VarKind::Int),
        Expr::Two { op: _, a: _, b: _ } => Some(VarKind::Int),
    }
}

/// The line of an expression's first leaf.
pub(crate) fn first_line(e: &Expr) -> u32
    ensures { result ≡ first_line (term_of e.now) }
{
    match e {
        Expr::Num { line, v: _ } => *line,
        Expr::Lit { line, s: _ } => *line,
        Expr::Name { id } => id.line,
        Expr::Atoi { e } => first_line(e),
        Expr::Strcmp { a, b: _ } => first_line(a),
        Expr::Neg { e } => first_line(e),
        Expr::Not { e } => first_line(e),
        Expr::Two { op: _, a, b: _ } => first_line(a),
    }
}

/// An expression's first sign is its first leaf.
pub(crate) fn begins_with_leaf(e: &Expr) -> bool
    ensures { result ≡ begins_with_leaf (term_of e.now) }
{
    match e {
        Expr::Num { line: _, v: _ } => true,
        Expr::Lit { line: _, s: _ } => true,
        Expr::Name { id: _ } => true,
        Expr::Atoi { e: _ } => false,
        Expr::Strcmp { a: _, b: _ } => false,
        Expr::Neg { e: _ } => false,
        Expr::Not { e: _ } => false,
        Expr::Two { op: _, a, b: _ } => begins_with_leaf(a),
    }
}
