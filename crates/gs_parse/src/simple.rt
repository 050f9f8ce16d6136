//! Reading the simple statements.

ghost use Rattle.std.specs.Prelude.{◌≡◌, ◌<◌, ◌≤◌, []};
ghost use Rattle.gs_tree.specs.View.{name_of, code_of};
ghost use Rattle.gs_parse.specs.Grammar.{line_rule, close_rule, barrier_rule, print_rule, print_file_rule, print_str_rule};
ghost use Rattle.gs_parse.specs.Notation.{a_code};
ghost use Rattle.gs_parse.specs.Reads.{left, Reads};

use crate::make::{
    barrier_stmt, close_stmt, line_stmt, print_file_stmt, print_stmt, print_str_stmt,
};
use crate::marks::{Word, expect};
use crate::name::take_name;
use crate::stop::Stop;
use crate::terms::{Printing, read_printing};
use gs_tree::sign::Symbol;
use gs_tree::{Ident, Stmt, Tokens};
use std::alloc::Global;

/// A call of `fgetline`, after its name.
pub(crate) fn read_line_call(
    alloc: Global,
    tokens: &Tokens,
    at: &mut usize,
    got: Ident,
) -> Result<Stmt, Stop>
    ensures reads { Reads a_code (line_rule (name_of got)) code_of (left tokens.now at.old) result (left tokens.now at.new) }
    ensures onward { at.old ≤ at.new }
{
    let line = got.line;
    match expect(tokens, at, Word::Symbol(Symbol::OpenParen)) {
        Ok(()) => {}
        Err(stop) => return Err(stop),
    }
    let handle = match take_name(alloc, tokens, at) {
        Ok(handle) => handle,
        Err(stop) => return Err(stop),
    };
    match expect(tokens, at, Word::Symbol(Symbol::Comma)) {
        Ok(()) => {}
        Err(stop) => return Err(stop),
    }
    let to = match take_name(alloc, tokens, at) {
        Ok(to) => to,
        Err(stop) => return Err(stop),
    };
    match expect(tokens, at, Word::Symbol(Symbol::CloseParen)) {
        Ok(()) => {}
        Err(stop) => return Err(stop),
    }
    match expect(tokens, at, Word::Symbol(Symbol::Semicolon)) {
        Ok(()) => {}
        Err(stop) => return Err(stop),
    }
    Ok(line_stmt(line, got, handle, to))
}

/// A call of `GS_FClose`, after its name.
pub(crate) fn read_close(
    alloc: Global,
    tokens: &Tokens,
    at: &mut usize,
    line: u32,
) -> Result<Stmt, Stop>
    ensures reads { Reads a_code (close_rule line) code_of (left tokens.now at.old) result (left tokens.now at.new) }
    ensures onward { at.old ≤ at.new }
{
    match expect(tokens, at, Word::Symbol(Symbol::OpenParen)) {
        Ok(()) => {}
        Err(stop) => return Err(stop),
    }
    let handle = match take_name(alloc, tokens, at) {
        Ok(handle) => handle,
        Err(stop) => return Err(stop),
    };
    match expect(tokens, at, Word::Symbol(Symbol::CloseParen)) {
        Ok(()) => {}
        Err(stop) => return Err(stop),
    }
    match expect(tokens, at, Word::Symbol(Symbol::Semicolon)) {
        Ok(()) => {}
        Err(stop) => return Err(stop),
    }
    Ok(close_stmt(line, handle))
}

/// A call of `GS_Barrier`, after its name.
pub(crate) fn read_barrier(tokens: &Tokens, at: &mut usize, line: u32) -> Result<Stmt, Stop>
    ensures reads { Reads a_code (barrier_rule line) code_of (left tokens.now at.old) result (left tokens.now at.new) }
    ensures onward { at.old ≤ at.new }
{
    match expect(tokens, at, Word::Symbol(Symbol::OpenParen)) {
        Ok(()) => {}
        Err(stop) => return Err(stop),
    }
    match expect(tokens, at, Word::Symbol(Symbol::CloseParen)) {
        Ok(()) => {}
        Err(stop) => return Err(stop),
    }
    match expect(tokens, at, Word::Symbol(Symbol::Semicolon)) {
        Ok(()) => {}
        Err(stop) => return Err(stop),
    }
    Ok(barrier_stmt(line))
}

/// A call of `printf`, after its name.
pub(crate) fn read_print(
    alloc: Global,
    tokens: &Tokens,
    at: &mut usize,
    line: u32,
) -> Result<Stmt, Stop>
    ensures reads { Reads a_code (print_rule line) code_of (left tokens.now at.old) result (left tokens.now at.new) }
    ensures onward { at.old ≤ at.new }
{
    match expect(tokens, at, Word::Symbol(Symbol::OpenParen)) {
        Ok(()) => {}
        Err(stop) => return Err(stop),
    }
    let printing = match read_printing(alloc, tokens, at) {
        Ok(printing) => printing,
        Err(stop) => return Err(stop),
    };
    let Printing { format, args } = printing;
    Ok(print_stmt(line, format, args))
}

/// A call of `fprintf`, after its name.
pub(crate) fn read_print_file(
    alloc: Global,
    tokens: &Tokens,
    at: &mut usize,
    line: u32,
) -> Result<Stmt, Stop>
    ensures reads { Reads a_code (print_file_rule line) code_of (left tokens.now at.old) result (left tokens.now at.new) }
    ensures onward { at.old ≤ at.new }
{
    match expect(tokens, at, Word::Symbol(Symbol::OpenParen)) {
        Ok(()) => {}
        Err(stop) => return Err(stop),
    }
    let handle = match take_name(alloc, tokens, at) {
        Ok(handle) => handle,
        Err(stop) => return Err(stop),
    };
    match expect(tokens, at, Word::Symbol(Symbol::Comma)) {
        Ok(()) => {}
        Err(stop) => return Err(stop),
    }
    let printing = match read_printing(alloc, tokens, at) {
        Ok(printing) => printing,
        Err(stop) => return Err(stop),
    };
    let Printing { format, args } = printing;
    Ok(print_file_stmt(line, handle, format, args))
}

/// A call of `sprintf`, after its name.
pub(crate) fn read_print_str(
    alloc: Global,
    tokens: &Tokens,
    at: &mut usize,
    line: u32,
) -> Result<Stmt, Stop>
    ensures reads { Reads a_code (print_str_rule line) code_of (left tokens.now at.old) result (left tokens.now at.new) }
    ensures onward { at.old ≤ at.new }
{
    match expect(tokens, at, Word::Symbol(Symbol::OpenParen)) {
        Ok(()) => {}
        Err(stop) => return Err(stop),
    }
    let to = match take_name(alloc, tokens, at) {
        Ok(to) => to,
        Err(stop) => return Err(stop),
    };
    match expect(tokens, at, Word::Symbol(Symbol::Comma)) {
        Ok(()) => {}
        Err(stop) => return Err(stop),
    }
    let printing = match read_printing(alloc, tokens, at) {
        Ok(printing) => printing,
        Err(stop) => return Err(stop),
    };
    let Printing { format, args } = printing;
    Ok(print_str_stmt(line, to, format, args))
}
