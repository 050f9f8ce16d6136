//! Reading expressions, lists of them, and conditions.

ghost use Rattle.std.specs.Prelude.{◌≡◌, ◌<◌, ◌≤◌, [], map};
ghost use Rattle.gs_tree.specs.View.{term_of, formatted_of};
ghost use Rattle.gs_parse.specs.Grammar.{rule, expr};
ghost use Rattle.gs_parse.specs.Notation.{a_term, terms, a_printed, more_terms, condition, printing};
ghost use Rattle.gs_parse.specs.Reads.{left, Reads, lined, terms_in, printed_of};

use crate::build::Operand;
use crate::expr::binary;
use crate::marks::{Word, accept, expect};
use crate::name::take_format;
use crate::stop::Stop;
use gs_tree::sign::Symbol;
use gs_tree::{Expr, Format, Tokens};
use std::alloc::Global;

/// An expression around which so many operators stand.
pub(crate) fn read_expr(
    alloc: Global,
    tokens: &Tokens,
    at: &mut usize,
    depth: u32,
) -> Result<Expr, Stop>
    requires { depth < 64 }
    ensures reads { Reads a_term (rule (expr depth 0)) (lined (left tokens.now at.old)) (left tokens.now at.old) result (left tokens.now at.new) }
    ensures onward { at.old ≤ at.new }
{
    match binary(alloc, tokens, at, 6, depth, 0) {
        Ok(Operand { e, .. }) => Ok(e),
        Err(stop) => Err(stop),
    }
}

/// The expressions after the first argument, up to the closing parenthesis.
pub(crate) fn read_more_terms(
    alloc: Global,
    tokens: &Tokens,
    at: &mut usize,
) -> Result<Vec<Expr>, Stop>
    ensures reads { Reads terms (rule (more_terms [])) terms_in (left tokens.now at.old) result (left tokens.now at.new) }
    ensures onward { at.old ≤ at.new }
{
    let mut all = Vec::new(alloc);
    'terms: loop {
        if accept(tokens, at, Word::Symbol(Symbol::Comma)) {
            let e = match read_expr(alloc, tokens, at, 0) {
                Ok(e) => e,
                Err(stop) => return Err(stop),
            };
            match all.push(e) {
                Ok(()) => {}
                Err(_) => return Err(Stop::NoMemory),
            }
        } else {
            match expect(tokens, at, Word::Symbol(Symbol::CloseParen)) {
                Ok(()) => return Ok(all),
                Err(stop) => return Err(stop),
            }
        }
    }
}

/// An expression in parentheses.
pub(crate) fn read_condition(alloc: Global, tokens: &Tokens, at: &mut usize) -> Result<Expr, Stop>
    ensures reads { Reads a_term (rule condition) (lined (left tokens.now at.old)) (left tokens.now at.old) result (left tokens.now at.new) }
    ensures onward { at.old ≤ at.new }
{
    match expect(tokens, at, Word::Symbol(Symbol::OpenParen)) {
        Ok(()) => {}
        Err(stop) => return Err(stop),
    }
    let e = match read_expr(alloc, tokens, at, 0) {
        Ok(e) => e,
        Err(stop) => return Err(stop),
    };
    match expect(tokens, at, Word::Symbol(Symbol::CloseParen)) {
        Ok(()) => Ok(e),
        Err(stop) => Err(stop),
    }
}

/// A format and what it prints.
#[derive(Drop)]
pub(crate) struct Printing {
    pub(crate) format: Format,
    pub(crate) args: Vec<Expr>,
}

/// A format, its arguments, and the end of the statement.
pub(crate) fn read_printing(
    alloc: Global,
    tokens: &Tokens,
    at: &mut usize,
) -> Result<Printing, Stop>
    ensures reads { Reads a_printed (rule printing) printed_of (left tokens.now at.old) result (left tokens.now at.new) }
    ensures onward { at.old ≤ at.new }
{
    let format = match take_format(alloc, tokens, at) {
        Ok(format) => format,
        Err(stop) => return Err(stop),
    };
    let args = match read_more_terms(alloc, tokens, at) {
        Ok(args) => args,
        Err(stop) => return Err(stop),
    };
    match expect(tokens, at, Word::Symbol(Symbol::Semicolon)) {
        Ok(()) => Ok(Printing { format, args }),
        Err(stop) => Err(stop),
    }
}
