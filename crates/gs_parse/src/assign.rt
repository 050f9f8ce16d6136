//! Reading assignments.

ghost use Rattle.std.specs.Prelude.{◌≡◌, ◌<◌, ◌≤◌, pos};
ghost use Rattle.gs_tree.specs.View.{name_of, term_of, setting_of};
ghost use Rattle.gs_tree.specs.Program.{var, num, two};
ghost use Rattle.gs_parse.specs.Grammar.{rule};
ghost use Rattle.gs_parse.specs.Notation.{a_setting, assigned};
ghost use Rattle.gs_parse.specs.Reads.{left, Reads, Changes};

use crate::args::line_at;
use crate::marks::{Word, accept, expect};
use crate::name::copied;
use crate::stop::Stop;
use crate::terms::read_expr;
use gs_tree::sign::Symbol;
use gs_tree::{Assign, Expr, Ident, Op, Tokens};
use std::alloc::Global;

// `to op by` as the value of `to`.
#[tactic(auto, unfolding(crate::specs::Reads::Changes))]
fn changed(alloc: Global, op: Op, to: Ident, by: Expr) -> Result<Assign, Stop>
    ensures { Changes op (name_of to) (term_of by) result }
{
    let name = match copied(alloc, &to.name) {
        Ok(name) => name,
        Err(_) => return Err(Stop::NoMemory),
    };
    let line = to.line;
    let a = match Box::new(
        alloc,
        Expr::Name {
            id: Ident { line, name },
        },
    ) {
        Ok(a) => a,
        Err(_) => return Err(Stop::NoMemory),
    };
    let b = match Box::new(alloc, by) {
        Ok(b) => b,
        Err(_) => return Err(Stop::NoMemory),
    };
    Ok(Assign {
        to,
        value: Expr::Two { op, a, b },
    })
}

// `to op 1` as the value of `to`.
fn stepped(alloc: Global, op: Op, to: Ident, line: u32) -> Result<Assign, Stop>
    ensures { Changes op (name_of to) (num line (pos 1)) result }
{
    changed(alloc, op, to, Expr::Num { line, v: 1 })
}

/// An assignment after its name.
pub(crate) fn read_assigned(
    alloc: Global,
    tokens: &Tokens,
    at: &mut usize,
    to: Ident,
) -> Result<Assign, Stop>
    ensures reads { Reads a_setting (rule (assigned (name_of to))) setting_of (left tokens.now at.old) result (left tokens.now at.new) }
    ensures onward { at.old ≤ at.new }
{
    let line = line_at(tokens, *at);
    if accept(tokens, at, Word::Symbol(Symbol::Equal)) {
        return match read_expr(alloc, tokens, at, 0) {
            Ok(value) => Ok(Assign { to, value }),
            Err(stop) => Err(stop),
        };
    }
    if accept(tokens, at, Word::Symbol(Symbol::PlusPlus)) {
        return stepped(alloc, Op::Add, to, line);
    }
    if accept(tokens, at, Word::Symbol(Symbol::MinusMinus)) {
        return stepped(alloc, Op::Sub, to, line);
    }
    if accept(tokens, at, Word::Symbol(Symbol::PlusEqual)) {
        return match read_expr(alloc, tokens, at, 1) {
            Ok(e) => changed(alloc, Op::Add, to, e),
            Err(stop) => Err(stop),
        };
    }
    if accept(tokens, at, Word::Symbol(Symbol::MinusEqual)) {
        return match read_expr(alloc, tokens, at, 1) {
            Ok(e) => changed(alloc, Op::Sub, to, e),
            Err(stop) => Err(stop),
        };
    }
    Err(Stop::Unfit)
}
