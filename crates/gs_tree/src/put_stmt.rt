//! Printing statements.

ghost use Rattle.std.specs.Prelude.{◌≡◌, ◌++◌, OnOk, map, codes};
ghost use Rattle.std.specs.Option.{option_map};
ghost use Rattle.gs_tree.specs.Program.{open_file, read_line, print, call, set, close_file, barrier};
ghost use Rattle.gs_tree.specs.Printed.{term_text, mode_text, maybe_setting, maybe_term, for_text, line_text, format_text, code_text};
ghost use Rattle.gs_tree.specs.View.{term_of, setting_of, passed_of, name_of, formatted_of};

use crate::NoMemory;
use crate::put::{put, put_indent, put_line, put_string, put_two};
use crate::put_expr::{put_arguments, put_expr, put_more, put_setting};
use crate::tree::{Argument, Assign, Expr, Format, Ident, Mode};
use std::alloc::Global;

fn put_maybe_setting(alloc: Global, a: &Option<Assign>, out: &mut Vec<u8>) -> Result<(), NoMemory>
    ensures { OnOk result (out.new.items ≡ out.old.items ++ maybe_setting (option_map setting_of a.now)) }
{
    match a {
        Some(a) => put_setting(alloc, a, out),
        None => Ok(()),
    }
}

fn put_maybe_expr(alloc: Global, e: &Option<Expr>, out: &mut Vec<u8>) -> Result<(), NoMemory>
    ensures { OnOk result (out.new.items ≡ out.old.items ++ maybe_term (option_map term_of e.now)) }
{
    match e {
        Some(e) => put_expr(alloc, e, out),
        None => Ok(()),
    }
}

fn put_for_parts(
    alloc: Global,
    first: &Option<Assign>,
    cond: &Option<Expr>,
    step: &Option<Assign>,
    out: &mut Vec<u8>,
) -> Result<(), NoMemory>
    ensures { OnOk result (out.new.items ≡ out.old.items
        ++ (maybe_setting (option_map setting_of first.now) ++ codes "; " ++ maybe_term (option_map term_of cond.now) ++ codes "; " ++ maybe_setting (option_map setting_of step.now))) }
{
    put_maybe_setting(alloc, first, out)?;
    put(out, b"; ")?;
    put_maybe_expr(alloc, cond, out)?;
    put(out, b"; ")?;
    put_maybe_setting(alloc, step, out)
}

/// The head of a `for`, a line of its own.
pub(crate) fn put_for_head(
    alloc: Global,
    level: usize,
    first: &Option<Assign>,
    cond: &Option<Expr>,
    step: &Option<Assign>,
    out: &mut Vec<u8>,
) -> Result<(), NoMemory>
    ensures { OnOk result (out.new.items ≡ out.old.items
        ++ line_text level (for_text (option_map setting_of first.now) (option_map term_of cond.now) (option_map setting_of step.now))) }
{
    put_indent(level, out)?;
    put(out, b"for (")?;
    put_for_parts(alloc, first, cond, step, out)?;
    put(out, b") {\n")
}

/// A line with a condition and an opening brace.
pub(crate) fn put_head(
    alloc: Global,
    level: usize,
    word: &[u8],
    cond: &Expr,
    out: &mut Vec<u8>,
) -> Result<(), NoMemory>
    ensures { OnOk result (out.new.items ≡ out.old.items ++ line_text level (word.now ++ term_text (term_of cond.now) ++ codes ") {")) }
{
    put_indent(level, out)?;
    put(out, word)?;
    put_expr(alloc, cond, out)?;
    put(out, b") {\n")
}

/// An assignment, a line of its own.
pub(crate) fn put_set(
    alloc: Global,
    level: usize,
    a: &Assign,
    out: &mut Vec<u8>,
) -> Result<(), NoMemory>
    ensures { OnOk result (out.new.items ≡ out.old.items ++ code_text level (set (setting_of a.now))) }
{
    put_indent(level, out)?;
    put_setting(alloc, a, out)?;
    put(out, b";\n")
}

fn put_mode(mode: Mode, out: &mut Vec<u8>) -> Result<(), NoMemory>
    ensures { OnOk result (out.new.items ≡ out.old.items ++ mode_text mode) }
{
    match mode {
        Mode::R => put(out, b"R"),
        Mode::W => put(out, b"W"),
        Mode::A => put(out, b"A"),
    }
}

fn put_path(alloc: Global, path: &Expr, mode: Mode, out: &mut Vec<u8>) -> Result<(), NoMemory>
    ensures { OnOk result (out.new.items ≡ out.old.items ++ (codes "GS_FOpen(" ++ term_text (term_of path.now) ++ codes ", " ++ mode_text mode ++ codes ");")) }
{
    put(out, b"GS_FOpen(")?;
    put_expr(alloc, path, out)?;
    put(out, b", ")?;
    put_mode(mode, out)?;
    put(out, b");")
}

pub(crate) fn put_open(
    alloc: Global,
    level: usize,
    to: &Ident,
    path: &Expr,
    mode: Mode,
    out: &mut Vec<u8>,
) -> Result<(), NoMemory>
    ensures { OnOk result (out.new.items ≡ out.old.items ++ code_text level (open_file 0 (name_of to.now) (term_of path.now) mode)) }
{
    put_indent(level, out)?;
    put_two(&to.name, b" = ", out)?;
    put_path(alloc, path, mode, out)?;
    put(out, b"\n")
}

pub(crate) fn put_read(
    level: usize,
    got: &Ident,
    handle: &Ident,
    to: &Ident,
    out: &mut Vec<u8>,
) -> Result<(), NoMemory>
    ensures { OnOk result (out.new.items ≡ out.old.items ++ code_text level (read_line 0 (name_of got.now) (name_of handle.now) (name_of to.now))) }
{
    put_indent(level, out)?;
    put_two(&got.name, b" = fgetline(", out)?;
    put_two(&handle.name, b", ", out)?;
    put_two(&to.name, b");\n", out)
}

pub(crate) fn put_close(level: usize, handle: &Ident, out: &mut Vec<u8>) -> Result<(), NoMemory>
    ensures { OnOk result (out.new.items ≡ out.old.items ++ code_text level (close_file 0 (name_of handle.now))) }
{
    put_indent(level, out)?;
    put(out, b"GS_FClose(")?;
    put_two(&handle.name, b");\n", out)
}

pub(crate) fn put_barrier(level: usize, out: &mut Vec<u8>) -> Result<(), NoMemory>
    ensures { OnOk result (out.new.items ≡ out.old.items ++ code_text level (barrier 0)) }
{
    put_line(level, b"GS_Barrier();", out)
}

fn put_format(
    alloc: Global,
    format: &Format,
    args: &[Expr],
    out: &mut Vec<u8>,
) -> Result<(), NoMemory>
    ensures { OnOk result (out.new.items ≡ out.old.items ++ format_text (formatted_of format.now) (map term_of args.now)) }
{
    put_string(&format.s, out)?;
    put_more(alloc, args, out)?;
    put(out, b");")
}

pub(crate) fn put_print(
    alloc: Global,
    level: usize,
    format: &Format,
    args: &[Expr],
    out: &mut Vec<u8>,
) -> Result<(), NoMemory>
    ensures { OnOk result (out.new.items ≡ out.old.items ++ code_text level (print 0 (formatted_of format.now) (map term_of args.now))) }
{
    put_indent(level, out)?;
    put(out, b"printf(")?;
    put_format(alloc, format, args, out)?;
    put(out, b"\n")
}

/// `fprintf` or `sprintf`, by its word with the parenthesis, and what it writes to.
pub(crate) fn put_print_to(
    alloc: Global,
    level: usize,
    word: &[u8],
    to: &Ident,
    format: &Format,
    args: &[Expr],
    out: &mut Vec<u8>,
) -> Result<(), NoMemory>
    ensures { OnOk result (out.new.items ≡ out.old.items
        ++ line_text level (word.now ++ (name_of to.now).text ++ codes ", " ++ format_text (formatted_of format.now) (map term_of args.now))) }
{
    put_indent(level, out)?;
    put_two(word, &to.name, out)?;
    put(out, b", ")?;
    put_format(alloc, format, args, out)?;
    put(out, b"\n")
}

pub(crate) fn put_call(
    alloc: Global,
    level: usize,
    op: &Ident,
    args: &[Argument],
    out: &mut Vec<u8>,
) -> Result<(), NoMemory>
    ensures { OnOk result (out.new.items ≡ out.old.items ++ code_text level (call (name_of op.now) (map passed_of args.now))) }
{
    put_indent(level, out)?;
    put_two(&op.name, b"(", out)?;
    put_arguments(alloc, args, out)?;
    put(out, b");\n")
}
