//! Reading the statements that begin with a name.

ghost use Rattle.std.specs.Prelude.{◌≡◌, ◌<◌, ◌≤◌, []};
ghost use Rattle.gs_tree.specs.View.{name_of, code_of};
ghost use Rattle.gs_parse.specs.Grammar.{open_rule, call_rule, named_rule, set_rule};
ghost use Rattle.gs_parse.specs.Notation.{a_code};
ghost use Rattle.gs_parse.specs.Reads.{left, Reads};

use crate::args::read_args;
use crate::assign::read_assigned;
use crate::make::{call_stmt, open_stmt, set_stmt};
use crate::marks::{Word, accept, expect};
use crate::mode::take_mode;
use crate::simple::read_line_call;
use crate::stop::Stop;
use crate::terms::read_expr;
use gs_tree::sign::{Keyword, Symbol};
use gs_tree::{Assign, Ident, Stmt, Tokens};
use std::alloc::Global;

/// A call of `GS_FOpen`, after its name.
pub(crate) fn read_open(
    alloc: Global,
    tokens: &Tokens,
    at: &mut usize,
    to: Ident,
) -> Result<Stmt, Stop>
    ensures reads { Reads a_code (open_rule (name_of to)) code_of (left tokens.now at.old) result (left tokens.now at.new) }
    ensures onward { at.old ≤ at.new }
{
    let line = to.line;
    match expect(tokens, at, Word::Symbol(Symbol::OpenParen)) {
        Ok(()) => {}
        Err(stop) => return Err(stop),
    }
    let path = match read_expr(alloc, tokens, at, 0) {
        Ok(path) => path,
        Err(stop) => return Err(stop),
    };
    match expect(tokens, at, Word::Symbol(Symbol::Comma)) {
        Ok(()) => {}
        Err(stop) => return Err(stop),
    }
    let mode = match take_mode(tokens, at) {
        Ok(mode) => mode,
        Err(stop) => return Err(stop),
    };
    match expect(tokens, at, Word::Symbol(Symbol::CloseParen)) {
        Ok(()) => {}
        Err(stop) => return Err(stop),
    }
    match expect(tokens, at, Word::Symbol(Symbol::Semicolon)) {
        Ok(()) => {}
        Err(stop) => return Err(stop),
    }
    Ok(open_stmt(line, to, path, mode))
}

// A task call, after its opening parenthesis.
fn read_call(alloc: Global, tokens: &Tokens, at: &mut usize, op: Ident) -> Result<Stmt, Stop>
    ensures reads { Reads a_code (call_rule (name_of op)) code_of (left tokens.now at.old) result (left tokens.now at.new) }
    ensures onward { at.old ≤ at.new }
{
    if accept(tokens, at, Word::Symbol(Symbol::CloseParen)) {
        return match expect(tokens, at, Word::Symbol(Symbol::Semicolon)) {
            Ok(()) => Ok(call_stmt(op, Vec::new(alloc))),
            Err(stop) => Err(stop),
        };
    }
    let all = match read_args(alloc, tokens, at) {
        Ok(all) => all,
        Err(stop) => return Err(stop),
    };
    match expect(tokens, at, Word::Symbol(Symbol::Semicolon)) {
        Ok(()) => Ok(call_stmt(op, all)),
        Err(stop) => Err(stop),
    }
}

// What follows a name and `=`.
fn read_set(alloc: Global, tokens: &Tokens, at: &mut usize, to: Ident) -> Result<Stmt, Stop>
    ensures reads { Reads a_code (set_rule (name_of to)) code_of (left tokens.now at.old) result (left tokens.now at.new) }
    ensures onward { at.old ≤ at.new }
{
    if accept(tokens, at, Word::Keyword(Keyword::GsFOpen)) {
        return read_open(alloc, tokens, at, to);
    }
    if accept(tokens, at, Word::Keyword(Keyword::Fgetline)) {
        return read_line_call(alloc, tokens, at, to);
    }
    let value = match read_expr(alloc, tokens, at, 0) {
        Ok(value) => value,
        Err(stop) => return Err(stop),
    };
    match expect(tokens, at, Word::Symbol(Symbol::Semicolon)) {
        Ok(()) => Ok(set_stmt(Assign { to, value })),
        Err(stop) => Err(stop),
    }
}

/// A statement that begins with a name, after it.
pub(crate) fn read_named(
    alloc: Global,
    tokens: &Tokens,
    at: &mut usize,
    name: Ident,
) -> Result<Stmt, Stop>
    ensures reads { Reads a_code (named_rule (name_of name)) code_of (left tokens.now at.old) result (left tokens.now at.new) }
    ensures onward { at.old ≤ at.new }
{
    if accept(tokens, at, Word::Symbol(Symbol::OpenParen)) {
        return read_call(alloc, tokens, at, name);
    }
    if accept(tokens, at, Word::Symbol(Symbol::Equal)) {
        return read_set(alloc, tokens, at, name);
    }
    let a = match read_assigned(alloc, tokens, at, name) {
        Ok(a) => a,
        Err(stop) => return Err(stop),
    };
    match expect(tokens, at, Word::Symbol(Symbol::Semicolon)) {
        Ok(()) => Ok(set_stmt(a)),
        Err(stop) => Err(stop),
    }
}
