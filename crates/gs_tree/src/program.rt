//! Printing a whole program.

ghost use Rattle.std.specs.Prelude.{◌≡◌, ◌++◌, OnOk, IfOk, map};
ghost use Rattle.gs_tree.specs.Printed.{type_text, declared_text, vars_text, first_text, line_text, opening_text, run_text, printed};
ghost use Rattle.gs_tree.specs.View.{setting_of, var_of, codes_of, program_of};

use crate::NoMemory;
use crate::printer::put_body;
use crate::put::{put, put_indent, put_line, put_two};
use crate::put_stmt::put_set;
use crate::tree::{Assign, Stmt, Tree, Var, VarKind};
use std::alloc::Global;

fn type_text(kind: VarKind) -> &'static [u8]
    ensures { result.now ≡ type_text kind }
{
    match kind {
        VarKind::Int => b"int ",
        VarKind::Str => b"char *",
        VarKind::Handle => b"FILE *",
    }
}

fn put_var(v: &Var, out: &mut Vec<u8>) -> Result<(), NoMemory>
    ensures { OnOk result (out.new.items ≡ out.old.items ++ line_text 1 (declared_text (var_of v.now))) }
{
    put_indent(1, out)?;
    put(out, type_text(v.kind))?;
    put_two(&v.name.name, b";\n", out)
}

fn put_vars(vars: &[Var], out: &mut Vec<u8>) -> Result<(), NoMemory>
    ensures { OnOk result (out.new.items ≡ out.old.items ++ vars_text (map var_of vars.now)) }
{
    for v in vars {
        put_var(v, out)?;
    }
    Ok(())
}

fn put_first(alloc: Global, first: &[Assign], out: &mut Vec<u8>) -> Result<(), NoMemory>
    ensures { OnOk result (out.new.items ≡ out.old.items ++ first_text (map setting_of first.now)) }
{
    for a in first {
        put_set(alloc, 1, a, out)?;
    }
    Ok(())
}

fn put_opening(
    alloc: Global,
    vars: &[Var],
    first: &[Assign],
    out: &mut Vec<u8>,
) -> Result<(), NoMemory>
    ensures { OnOk result (out.new.items ≡ out.old.items ++ opening_text (map var_of vars.now) (map setting_of first.now)) }
{
    put_line(0, b"main() {", out)?;
    put_vars(vars, out)?;
    put_first(alloc, first, out)
}

fn put_run(alloc: Global, body: &[Stmt], out: &mut Vec<u8>) -> Result<(), NoMemory>
    ensures { OnOk result (out.new.items ≡ out.old.items ++ run_text (codes_of body.now)) }
{
    put_line(1, b"GS_On();", out)?;
    put_body(body, alloc, 1, out)?;
    put_line(1, b"GS_Off(0);", out)?;
    put_line(0, b"}", out)?;
    Ok(())
}

/// The printed form of a tree.
pub fn print(alloc: Global, t: &Tree) -> Result<Vec<u8>, NoMemory>
    ensures { IfOk result (λ v. v.items ≡ printed (program_of t.now)) }
{
    let mut out = Vec::new(alloc);
    put_opening(alloc, &t.vars, &t.first, &mut out)?;
    put_run(alloc, &t.body, &mut out)?;
    Ok(out)
}
