//! Printing expressions.

ghost use Rattle.std.specs.Prelude.{◌≡◌, ◌++◌, OnOk, map};
ghost use Rattle.gs_tree.specs.Printed.{op_text, term_text, more_text, passed_text, passed_texts, more_passed, setting_text};
ghost use Rattle.gs_tree.specs.View.{term_of, passed_of, setting_of};

use crate::NoMemory;
use crate::put::{put, put_number, put_string};
use crate::tree::{Argument, Assign, Expr, Op};
use std::alloc::Global;

fn put_op(op: Op, out: &mut Vec<u8>) -> Result<(), NoMemory>
    ensures { OnOk result (out.new.items ≡ out.old.items ++ op_text op) }
{
    match op {
        Op::Or => put(out, b" || "),
        Op::And => put(out, b" && "),
        Op::Eq => put(out, b" == "),
        Op::Ne => put(out, b" != "),
        Op::Lt => put(out, b" < "),
        Op::Le => put(out, b" <= "),
        Op::Gt => put(out, b" > "),
        Op::Ge => put(out, b" >= "),
        Op::Add => put(out, b" + "),
        Op::Sub => put(out, b" - "),
        Op::Mul => put(out, b" * "),
        Op::Div => put(out, b" / "),
        Op::Rem => put(out, b" % "),
    }
}

pub(crate) fn put_expr(alloc: Global, e: &Expr, out: &mut Vec<u8>) -> Result<(), NoMemory>
    ensures { OnOk result (out.new.items ≡ out.old.items ++ term_text (term_of e.now)) }
{
    match e {
        Expr::Num { line: _, v } => put_number(alloc, *v, out),
        Expr::Lit { line: _, s } => put_string(s, out),
        Expr::Name { id } => put(out, &id.name),
        Expr::Atoi { e } => {
            put(out, b"atoi(")?;
            put_expr(alloc, e, out)?;
            put(out, b")")
        }
        Expr::Strcmp { a, b } => {
            put(out, b"strcmp(")?;
            put_expr(alloc, a, out)?;
            put(out, b", ")?;
            put_expr(alloc, b, out)?;
            put(out, b")")
        }
        Expr::Neg { e } => {
            put(out, b"(-")?;
            put_expr(alloc, e, out)?;
            put(out, b")")
        }
        Expr::Not { e } => {
            put(out, b"(!")?;
            put_expr(alloc, e, out)?;
            put(out, b")")
        }
        Expr::Two { op, a, b } => {
            put(out, b"(")?;
            put_expr(alloc, a, out)?;
            put_op(*op, out)?;
            put_expr(alloc, b, out)?;
            put(out, b")")
        }
    }
}

/// Further values, each after a comma.
pub(crate) fn put_more(alloc: Global, args: &[Expr], out: &mut Vec<u8>) -> Result<(), NoMemory>
    ensures { OnOk result (out.new.items ≡ out.old.items ++ more_text (map term_of args.now)) }
{
    for e in args {
        put(out, b", ")?;
        put_expr(alloc, e, out)?;
    }
    Ok(())
}

fn put_argument(alloc: Global, a: &Argument, out: &mut Vec<u8>) -> Result<(), NoMemory>
    ensures { OnOk result (out.new.items ≡ out.old.items ++ passed_text (passed_of a.now)) }
{
    if a.by_address {
        put(out, b"&")?;
    }
    put_expr(alloc, &a.e, out)
}

fn put_more_arguments(alloc: Global, args: &[Argument], out: &mut Vec<u8>) -> Result<(), NoMemory>
    ensures { OnOk result (out.new.items ≡ out.old.items ++ more_passed (map passed_of args.now)) }
{
    for a in args {
        put(out, b", ")?;
        put_argument(alloc, a, out)?;
    }
    Ok(())
}

/// The arguments of a task call, parted by commas.
pub(crate) fn put_arguments(
    alloc: Global,
    args: &[Argument],
    out: &mut Vec<u8>,
) -> Result<(), NoMemory>
    ensures { OnOk result (out.new.items ≡ out.old.items ++ passed_texts (map passed_of args.now)) }
{
    match args {
        [] => Ok(()),
        [first, rest @ ..] => {
            put_argument(alloc, first, out)?;
            put_more_arguments(alloc, rest, out)
        }
    }
}

pub(crate) fn put_setting(alloc: Global, a: &Assign, out: &mut Vec<u8>) -> Result<(), NoMemory>
    ensures { OnOk result (out.new.items ≡ out.old.items ++ setting_text (setting_of a.now)) }
{
    put(out, &a.to.name)?;
    put(out, b" = ")?;
    put_expr(alloc, &a.value, out)
}
