//! Printing lists of statements.

ghost use Rattle.std.specs.Prelude.{◌≡◌, ◌+◌, ◌++◌, OnOk, MatchOption, codes};
ghost use Rattle.std.specs.Option.{option_map};
ghost use Rattle.gs_tree.specs.Program.{block, choose, while, for, without, otherwise};
ghost use Rattle.gs_tree.specs.Printed.{code_text, codes_text, else_text, line_text};
ghost use Rattle.gs_tree.specs.View.{code_of, codes_of, setting_of, term_of};

use crate::NoMemory;
use crate::put::put_line;
use crate::put_stmt::{
    put_barrier, put_call, put_close, put_for_head, put_head, put_open, put_print, put_print_to,
    put_read, put_set,
};
use crate::tree::{Assign, Expr, Stmt};
use std::alloc::Global;

/// The statements of a body at a level.
#[cycle(statements)]
pub(crate) fn put_body(
    body: &[Stmt],
    alloc: Global,
    level: usize,
    out: &mut Vec<u8>,
) -> Result<(), NoMemory>
    ensures { OnOk result (out.new.items ≡ out.old.items ++ codes_text level (codes_of body.now)) }
{
    for s in body {
        put_stmt(s, alloc, level, out)?;
    }
    Ok(())
}

#[cycle(statements)]
fn put_inner(body: &[Stmt], alloc: Global, level: usize, out: &mut Vec<u8>) -> Result<(), NoMemory>
    ensures { OnOk result (out.new.items ≡ out.old.items ++ codes_text (level + 1) (codes_of body.now)) }
{
    match level.checked_add(1) {
        Some(inner) => put_body(body, alloc, inner, out),
        None => Err(NoMemory),
    }
}

#[cycle(statements)]
fn put_stmt(s: &Stmt, alloc: Global, level: usize, out: &mut Vec<u8>) -> Result<(), NoMemory>
    ensures { OnOk result (out.new.items ≡ out.old.items ++ code_text level (code_of s.now)) }
{
    match s {
        Stmt::Empty { .. } => put_line(level, b";", out),
        Stmt::Block { body, .. } => put_block(body, alloc, level, out),
        Stmt::Set { a } => put_set(alloc, level, a, out),
        Stmt::If { cond, yes, no, .. } => put_if(yes, no, cond, alloc, level, out),
        Stmt::While { cond, body, .. } => put_while(body, cond, alloc, level, out),
        Stmt::For {
            first,
            cond,
            step,
            body,
            ..
        } => put_for(body, first, cond, step, alloc, level, out),
        Stmt::OpenFile { to, path, mode, .. } => put_open(alloc, level, to, path, *mode, out),
        Stmt::ReadLine {
            got,
            handle,
            to,
            ..
        } => put_read(level, got, handle, to, out),
        Stmt::CloseFile { handle, .. } => put_close(level, handle, out),
        Stmt::Barrier { .. } => put_barrier(level, out),
        Stmt::Print { format, args, .. } => put_print(alloc, level, format, args, out),
        Stmt::PrintFile {
            handle,
            format,
            args,
            ..
        } => put_print_to(alloc, level, b"fprintf(", handle, format, args, out),
        Stmt::PrintStr {
            to,
            format,
            args,
            ..
        } => put_print_to(alloc, level, b"sprintf(", to, format, args, out),
        Stmt::Call { op, args } => put_call(alloc, level, op, args, out),
    }
}

#[cycle(statements)]
fn put_block(body: &[Stmt], alloc: Global, level: usize, out: &mut Vec<u8>) -> Result<(), NoMemory>
    ensures { OnOk result (out.new.items ≡ out.old.items ++ code_text level (block 0 (codes_of body.now))) }
{
    put_line(level, b"{", out)?;
    put_inner(body, alloc, level, out)?;
    put_line(level, b"}", out)
}

#[cycle(statements)]
fn put_if(
    yes: &[Stmt],
    no: &Option<Vec<Stmt>>,
    cond: &Expr,
    alloc: Global,
    level: usize,
    out: &mut Vec<u8>,
) -> Result<(), NoMemory>
    ensures { OnOk result (MatchOption no.now
        (out.new.items ≡ out.old.items ++ code_text level (choose 0 (term_of cond.now) (codes_of yes.now) without))
        (λ body. out.new.items ≡ out.old.items ++ code_text level (choose 0 (term_of cond.now) (codes_of yes.now) (otherwise (codes_of body.items))))) }
{
    put_head(alloc, level, b"if (", cond, out)?;
    put_inner(yes, alloc, level, out)?;
    match no {
        Some(no) => put_else(no, alloc, level, out),
        None => put_line(level, b"}", out),
    }
}

#[cycle(statements)]
fn put_else(no: &[Stmt], alloc: Global, level: usize, out: &mut Vec<u8>) -> Result<(), NoMemory>
    ensures { OnOk result (out.new.items ≡ out.old.items ++ (else_text level (otherwise (codes_of no.now)) ++ line_text level (codes "}"))) }
{
    put_line(level, b"} else {", out)?;
    put_inner(no, alloc, level, out)?;
    put_line(level, b"}", out)
}

#[cycle(statements)]
fn put_while(
    body: &[Stmt],
    cond: &Expr,
    alloc: Global,
    level: usize,
    out: &mut Vec<u8>,
) -> Result<(), NoMemory>
    ensures { OnOk result (out.new.items ≡ out.old.items ++ code_text level (while 0 (term_of cond.now) (codes_of body.now))) }
{
    put_head(alloc, level, b"while (", cond, out)?;
    put_inner(body, alloc, level, out)?;
    put_line(level, b"}", out)
}

#[cycle(statements)]
fn put_for(
    body: &[Stmt],
    first: &Option<Assign>,
    cond: &Option<Expr>,
    step: &Option<Assign>,
    alloc: Global,
    level: usize,
    out: &mut Vec<u8>,
) -> Result<(), NoMemory>
    ensures { OnOk result (out.new.items ≡ out.old.items
        ++ code_text level (for 0 (option_map setting_of first.now) (option_map term_of cond.now) (option_map setting_of step.now) (codes_of body.now))) }
{
    put_for_head(alloc, level, first, cond, step, out)?;
    put_inner(body, alloc, level, out)?;
    put_line(level, b"}", out)
}
