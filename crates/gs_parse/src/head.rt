//! Reading the head of a `for`.

ghost use Rattle.std.specs.Prelude.{◌≡◌, ◌≤◌};
ghost use Rattle.std.specs.Option.{option_map};
ghost use Rattle.gs_tree.specs.View.{setting_of, term_of};
ghost use Rattle.gs_parse.specs.Grammar.{rule};
ghost use Rattle.gs_parse.specs.Notation.{maybe_setting, maybe_term, for_first, for_test, for_step};
ghost use Rattle.gs_parse.specs.Reads.{left, Reads};

use crate::assign::read_assigned;
use crate::marks::{Word, accept, expect};
use crate::name::take_name;
use crate::stop::Stop;
use crate::terms::read_expr;
use gs_tree::sign::Symbol;
use gs_tree::{Assign, Expr, Tokens};
use std::alloc::Global;

/// The assignment before the first round, and the `;` after it.
pub(crate) fn read_first(
    alloc: Global,
    tokens: &Tokens,
    at: &mut usize,
) -> Result<Option<Assign>, Stop>
    ensures reads { Reads maybe_setting (rule for_first) (option_map setting_of) (left tokens.now at.old) result (left tokens.now at.new) }
    ensures onward { at.old ≤ at.new }
{
    if accept(tokens, at, Word::Symbol(Symbol::Semicolon)) {
        return Ok(None);
    }
    let to = match take_name(alloc, tokens, at) {
        Ok(to) => to,
        Err(stop) => return Err(stop),
    };
    let a = match read_assigned(alloc, tokens, at, to) {
        Ok(a) => a,
        Err(stop) => return Err(stop),
    };
    match expect(tokens, at, Word::Symbol(Symbol::Semicolon)) {
        Ok(()) => Ok(Some(a)),
        Err(stop) => Err(stop),
    }
}

/// The test, and the `;` after it.
pub(crate) fn read_test(
    alloc: Global,
    tokens: &Tokens,
    at: &mut usize,
) -> Result<Option<Expr>, Stop>
    ensures reads { Reads maybe_term (rule for_test) (option_map term_of) (left tokens.now at.old) result (left tokens.now at.new) }
    ensures onward { at.old ≤ at.new }
{
    if accept(tokens, at, Word::Symbol(Symbol::Semicolon)) {
        return Ok(None);
    }
    let e = match read_expr(alloc, tokens, at, 0) {
        Ok(e) => e,
        Err(stop) => return Err(stop),
    };
    match expect(tokens, at, Word::Symbol(Symbol::Semicolon)) {
        Ok(()) => Ok(Some(e)),
        Err(stop) => Err(stop),
    }
}

/// The assignment after each round, and the `)` after it.
pub(crate) fn read_step(
    alloc: Global,
    tokens: &Tokens,
    at: &mut usize,
) -> Result<Option<Assign>, Stop>
    ensures reads { Reads maybe_setting (rule for_step) (option_map setting_of) (left tokens.now at.old) result (left tokens.now at.new) }
    ensures onward { at.old ≤ at.new }
{
    if accept(tokens, at, Word::Symbol(Symbol::CloseParen)) {
        return Ok(None);
    }
    let to = match take_name(alloc, tokens, at) {
        Ok(to) => to,
        Err(stop) => return Err(stop),
    };
    let a = match read_assigned(alloc, tokens, at, to) {
        Ok(a) => a,
        Err(stop) => return Err(stop),
    };
    match expect(tokens, at, Word::Symbol(Symbol::CloseParen)) {
        Ok(()) => Ok(Some(a)),
        Err(stop) => Err(stop),
    }
}
