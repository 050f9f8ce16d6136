//! Statements from their parts.

ghost use Rattle.std.specs.Prelude.{◌≡◌, map};
ghost use Rattle.gs_tree.specs.Program.{empty, block, set, choose, while, for, open_file, read_line, close_file, barrier, print, print_file, print_str, call, without, otherwise};
ghost use Rattle.gs_tree.specs.View.{name_of, term_of, setting_of, formatted_of, passed_of, code_of, codes_of};
ghost use Rattle.std.specs.Option.{option_map};

use gs_tree::{Argument, Assign, Expr, Format, Ident, Mode, Stmt};

pub(crate) fn empty_stmt(line: u32) -> Stmt
    ensures { code_of result ≡ empty line }
{
    Stmt::Empty { line }
}

pub(crate) fn block_stmt(line: u32, body: Vec<Stmt>) -> Stmt
    ensures { code_of result ≡ block line (codes_of body.items) }
{
    Stmt::Block { line, body }
}

pub(crate) fn set_stmt(a: Assign) -> Stmt
    ensures { code_of result ≡ set (setting_of a) }
{
    Stmt::Set { a }
}

pub(crate) fn if_stmt(line: u32, cond: Expr, yes: Vec<Stmt>) -> Stmt
    ensures { code_of result ≡ choose line (term_of cond) (codes_of yes.items) without }
{
    Stmt::If {
        line,
        cond,
        yes,
        no: None,
    }
}

pub(crate) fn if_else_stmt(line: u32, cond: Expr, yes: Vec<Stmt>, no: Vec<Stmt>) -> Stmt
    ensures { code_of result ≡ choose line (term_of cond) (codes_of yes.items) (otherwise (codes_of no.items)) }
{
    Stmt::If {
        line,
        cond,
        yes,
        no: Some(no),
    }
}

pub(crate) fn while_stmt(line: u32, cond: Expr, body: Vec<Stmt>) -> Stmt
    ensures { code_of result ≡ while line (term_of cond) (codes_of body.items) }
{
    Stmt::While { line, cond, body }
}

pub(crate) fn for_stmt(
    line: u32,
    first: Option<Assign>,
    cond: Option<Expr>,
    step: Option<Assign>,
    body: Vec<Stmt>,
) -> Stmt
    ensures { code_of result ≡ for line (option_map setting_of first) (option_map term_of cond) (option_map setting_of step) (codes_of body.items) }
{
    Stmt::For {
        line,
        first,
        cond,
        step,
        body,
    }
}

pub(crate) fn open_stmt(line: u32, to: Ident, path: Expr, mode: Mode) -> Stmt
    ensures { code_of result ≡ open_file line (name_of to) (term_of path) mode }
{
    Stmt::OpenFile {
        line,
        to,
        path,
        mode,
    }
}

pub(crate) fn line_stmt(line: u32, got: Ident, handle: Ident, to: Ident) -> Stmt
    ensures { code_of result ≡ read_line line (name_of got) (name_of handle) (name_of to) }
{
    Stmt::ReadLine {
        line,
        got,
        handle,
        to,
    }
}

pub(crate) fn close_stmt(line: u32, handle: Ident) -> Stmt
    ensures { code_of result ≡ close_file line (name_of handle) }
{
    Stmt::CloseFile { line, handle }
}

pub(crate) fn barrier_stmt(line: u32) -> Stmt
    ensures { code_of result ≡ barrier line }
{
    Stmt::Barrier { line }
}

pub(crate) fn print_stmt(line: u32, format: Format, args: Vec<Expr>) -> Stmt
    ensures { code_of result ≡ print line (formatted_of format) (map term_of args.items) }
{
    Stmt::Print { line, format, args }
}

pub(crate) fn print_file_stmt(line: u32, handle: Ident, format: Format, args: Vec<Expr>) -> Stmt
    ensures { code_of result ≡ print_file line (name_of handle) (formatted_of format) (map term_of args.items) }
{
    Stmt::PrintFile {
        line,
        handle,
        format,
        args,
    }
}

pub(crate) fn print_str_stmt(line: u32, to: Ident, format: Format, args: Vec<Expr>) -> Stmt
    ensures { code_of result ≡ print_str line (name_of to) (formatted_of format) (map term_of args.items) }
{
    Stmt::PrintStr {
        line,
        to,
        format,
        args,
    }
}

pub(crate) fn call_stmt(op: Ident, args: Vec<Argument>) -> Stmt
    ensures { code_of result ≡ call (name_of op) (map passed_of args.items) }
{
    Stmt::Call { op, args }
}
