//! Checks of formats and their arguments.

ghost use Rattle.std.specs.Prelude.{◌≡◌, ◌<◌, length, map};
ghost use Rattle.gs_tree.specs.View.{term_of, formatted_of, var_of};
ghost use Rattle.gs_tree.specs.Formats.{format_kinds};
ghost use Rattle.gs_check.specs.Conversions.{IsConversion};
ghost use Rattle.gs_check.specs.Faults.{is_format, args_fault, format_fault};

use crate::expr::{fault_if, inner_fault};
use crate::kind::{CheckKind, Fault};
use crate::vars::{expr_kind, is_wrong};
use gs_tree::{Expr, Format, Var, VarKind};

// What stands first in the rest of a format.
#[derive(Clone, Copy)]
pub(crate) enum Conversion {
    Plain,
    Percent,
    Value { kind: VarKind },
    Bad,
}

fn first_conversion(rest: &[u8]) -> Conversion
    requires { 0 < length rest.now }
    ensures { IsConversion rest.now result }
{
    if rest[0] != b'%' {
        return Conversion::Plain;
    }
    if rest.len() == 1 {
        return Conversion::Bad;
    }
    match rest[1] {
        b'd' => Conversion::Value { kind: VarKind::Int },
        b's' => Conversion::Value { kind: VarKind::Str },
        b'%' => Conversion::Percent,
        _ => Conversion::Bad,
    }
}

/// The arguments are as many as the format takes, and of the kinds that it takes.
fn is_format(format: &[u8], args: &[Expr], vars: &[Var]) -> bool
    ensures { result ≡ is_format (map var_of vars.now) (format_kinds format.now)
        (map term_of args.now) }
{
    let mut at = 0;
    let mut used = 0;
    'bytes: while at < format.len() {
        match first_conversion(&format[at..]) {
            Conversion::Plain => at += 1,
            Conversion::Percent => at += 2,
            Conversion::Value { kind } => {
                if used >= args.len() || is_wrong(kind, expr_kind(&args[used], vars)) {
                    return false;
                }
                at += 2;
                used += 1;
            }
            Conversion::Bad => return false,
        }
    }
    used == args.len()
}

fn args_fault(args: &[Expr], vars: &[Var]) -> Option<Fault>
    ensures { result ≡ args_fault (map var_of vars.now) (map term_of args.now) }
{
    for e in args {
        let found = inner_fault(e, vars, None);
        if found.is_some() {
            return found;
        }
    }
    None
}

/// A format and its arguments.
pub(crate) fn format_fault(format: &Format, args: &[Expr], vars: &[Var]) -> Option<Fault>
    ensures { result ≡ format_fault (map var_of vars.now) (formatted_of format.now)
        (map term_of args.now) }
{
    let bad = !is_format(&format.s, args, vars);
    fault_if(bad, format.line, CheckKind::BadFormat).or(args_fault(args, vars))
}
