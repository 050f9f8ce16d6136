//! Reading the arguments of a task call.

ghost use Rattle.std.specs.Prelude.{◌≡◌, ◌<◌, ◌≤◌};
ghost use Rattle.gs_tree.specs.View.{passed_of, term_of, name_of};
ghost use Rattle.gs_tree.specs.Program.{var};
ghost use Rattle.gs_parse.specs.Grammar.{rule};
ghost use Rattle.gs_parse.specs.Notation.{a_passed, all_passed, arg, args};
ghost use Rattle.gs_parse.specs.Reads.{left, Reads, passes_in, line_of};

use crate::marks::{Word, accept, expect, look};
use crate::name::take_name;
use crate::stop::Stop;
use crate::terms::read_expr;
use gs_tree::sign::Symbol;
use gs_tree::{Argument, Expr, Ident, Tokens};
use std::alloc::Global;

pub(crate) fn line_at(tokens: &Tokens, at: usize) -> u32
    ensures { result ≡ line_of (left tokens.now at) }
{
    match look(tokens, at) {
        Some(mark) => mark.line,
        None => 0,
    }
}

fn variable(id: Ident) -> Expr
    ensures { term_of result ≡ var (name_of id) }
{
    Expr::Name { id }
}

/// One argument.
fn read_arg(alloc: Global, tokens: &Tokens, at: &mut usize) -> Result<Argument, Stop>
    ensures reads { Reads a_passed (rule arg) passed_of (left tokens.now at.old) result (left tokens.now at.new) }
    ensures onward { at.old ≤ at.new }
{
    let line = line_at(tokens, *at);
    if accept(tokens, at, Word::Symbol(Symbol::Ampersand)) {
        return match take_name(alloc, tokens, at) {
            Ok(id) => Ok(Argument {
                line,
                by_address: true,
                e: variable(id),
            }),
            Err(stop) => Err(stop),
        };
    }
    match read_expr(alloc, tokens, at, 0) {
        Ok(e) => Ok(Argument {
            line,
            by_address: false,
            e,
        }),
        Err(stop) => Err(stop),
    }
}

/// The arguments from the first on, up to the closing parenthesis.
pub(crate) fn read_args(
    alloc: Global,
    tokens: &Tokens,
    at: &mut usize,
) -> Result<Vec<Argument>, Stop>
    ensures reads { Reads all_passed (rule args) passes_in (left tokens.now at.old) result (left tokens.now at.new) }
    ensures onward { at.old ≤ at.new }
{
    let mut all = Vec::new(alloc);
    let first = match read_arg(alloc, tokens, at) {
        Ok(first) => first,
        Err(stop) => return Err(stop),
    };
    match all.push(first) {
        Ok(()) => {}
        Err(_) => return Err(Stop::NoMemory),
    }
    'more: loop {
        if accept(tokens, at, Word::Symbol(Symbol::Comma)) {
            let a = match read_arg(alloc, tokens, at) {
                Ok(a) => a,
                Err(stop) => return Err(stop),
            };
            match all.push(a) {
                Ok(()) => {}
                Err(_) => return Err(Stop::NoMemory),
            }
        } else {
            match expect(tokens, at, Word::Symbol(Symbol::CloseParen)) {
                Ok(()) => return Ok(all),
                Err(stop) => return Err(stop),
            }
        }
    }
}
