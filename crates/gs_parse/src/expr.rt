//! Reading expressions.

ghost use Rattle.std.specs.Prelude.{◌+◌, ◌-◌, ◌^◌, ◌<◌, ◌≤◌};
ghost use Rattle.gs_tree.specs.Signs.{sign_of_symbol, sign_of_keyword};
ghost use Rattle.gs_parse.specs.Reads.{left, ReadsLevel, IsFirst};

use crate::build::{
    Operand, atoi_of, inverted, joined_by, name_leaf, negated, number_leaf, strcmp_of, text_leaf,
};
use crate::marks::{Word, expect, look};
use crate::operator::operator_at;
use crate::stop::{LIMIT, Stop};
use gs_tree::Tokens;
use gs_tree::sign::{Keyword, Sign, Symbol};
use std::alloc::Global;

// What follows `-`.
#[cycle(expr)]
fn negation(
    alloc: Global,
    tokens: &Tokens,
    at: &mut usize,
    depth: u32,
    groups: u32,
    line: u32,
) -> Result<Operand, Stop>
    requires depth { depth < 64 }
    requires within { at.old < 2 ^ 64 - 1 }
    requires stands { IsFirst line (sign_of_symbol Symbol.Minus) (left tokens.now at.old) (left tokens.now (at.old + 1)) }
    ensures { ReadsLevel 0 depth groups tokens.now at.old result at.new }
{
    if depth + 1 >= LIMIT {
        return Err(Stop::TooDeep);
    }
    *at += 1;
    let a = match operand(alloc, tokens, at, depth + 1, groups) {
        Ok(a) => a,
        Err(stop) => return Err(stop),
    };
    match negated(alloc, a) {
        Ok(a) => Ok(a),
        Err(stop) => Err(stop),
    }
}

// What follows `!`.
#[cycle(expr)]
fn inversion(
    alloc: Global,
    tokens: &Tokens,
    at: &mut usize,
    depth: u32,
    groups: u32,
    line: u32,
) -> Result<Operand, Stop>
    requires depth { depth < 64 }
    requires within { at.old < 2 ^ 64 - 1 }
    requires stands { IsFirst line (sign_of_symbol Symbol.Bang) (left tokens.now at.old) (left tokens.now (at.old + 1)) }
    ensures { ReadsLevel 0 depth groups tokens.now at.old result at.new }
{
    if depth + 1 >= LIMIT {
        return Err(Stop::TooDeep);
    }
    *at += 1;
    let a = match operand(alloc, tokens, at, depth + 1, groups) {
        Ok(a) => a,
        Err(stop) => return Err(stop),
    };
    match inverted(alloc, a) {
        Ok(a) => Ok(a),
        Err(stop) => Err(stop),
    }
}

// What stands in parentheses.
#[cycle(expr)]
fn grouping(
    alloc: Global,
    tokens: &Tokens,
    at: &mut usize,
    depth: u32,
    groups: u32,
    line: u32,
) -> Result<Operand, Stop>
    requires depth { depth < 64 }
    requires within { at.old < 2 ^ 64 - 1 }
    requires stands { IsFirst line (sign_of_symbol Symbol.OpenParen) (left tokens.now at.old) (left tokens.now (at.old + 1)) }
    ensures { ReadsLevel 0 depth groups tokens.now at.old result at.new }
{
    if groups >= LIMIT {
        return Err(Stop::TooDeep);
    }
    *at += 1;
    let a = match binary(alloc, tokens, at, 6, depth, groups + 1) {
        Ok(a) => a,
        Err(stop) => return Err(stop),
    };
    match expect(tokens, at, Word::Symbol(Symbol::CloseParen)) {
        Ok(()) => Ok(a),
        Err(stop) => Err(stop),
    }
}

// What follows `-` or `!`, or stands in parentheses.
#[cycle(expr)]
fn prefixed(
    alloc: Global,
    tokens: &Tokens,
    at: &mut usize,
    depth: u32,
    groups: u32,
    line: u32,
    symbol: Symbol,
) -> Result<Operand, Stop>
    requires depth { depth < 64 }
    requires within { at.old < 2 ^ 64 - 1 }
    requires stands { IsFirst line (sign_of_symbol symbol) (left tokens.now at.old) (left tokens.now (at.old + 1)) }
    ensures { ReadsLevel 0 depth groups tokens.now at.old result at.new }
{
    match symbol {
        Symbol::Minus => negation(alloc, tokens, at, depth, groups, line),
        Symbol::Bang => inversion(alloc, tokens, at, depth, groups, line),
        Symbol::OpenParen => grouping(alloc, tokens, at, depth, groups, line),
        _ => Err(Stop::Unfit),
    }
}

// A call of `atoi`.
#[cycle(expr)]
fn atoi_call(
    alloc: Global,
    tokens: &Tokens,
    at: &mut usize,
    depth: u32,
    groups: u32,
    line: u32,
) -> Result<Operand, Stop>
    requires depth { depth < 64 }
    requires within { at.old < 2 ^ 64 - 1 }
    requires stands { IsFirst line (sign_of_keyword Keyword.Atoi) (left tokens.now at.old) (left tokens.now (at.old + 1)) }
    ensures { ReadsLevel 0 depth groups tokens.now at.old result at.new }
{
    if depth + 1 >= LIMIT {
        return Err(Stop::TooDeep);
    }
    *at += 1;
    match expect(tokens, at, Word::Symbol(Symbol::OpenParen)) {
        Ok(()) => {}
        Err(stop) => return Err(stop),
    }
    let a = match binary(alloc, tokens, at, 6, depth + 1, groups) {
        Ok(a) => a,
        Err(stop) => return Err(stop),
    };
    match expect(tokens, at, Word::Symbol(Symbol::CloseParen)) {
        Ok(()) => {}
        Err(stop) => return Err(stop),
    }
    match atoi_of(alloc, a) {
        Ok(a) => Ok(a),
        Err(stop) => Err(stop),
    }
}

// A call of `strcmp`.
#[cycle(expr)]
fn strcmp_call(
    alloc: Global,
    tokens: &Tokens,
    at: &mut usize,
    depth: u32,
    groups: u32,
    line: u32,
) -> Result<Operand, Stop>
    requires depth { depth < 64 }
    requires within { at.old < 2 ^ 64 - 1 }
    requires stands { IsFirst line (sign_of_keyword Keyword.Strcmp) (left tokens.now at.old) (left tokens.now (at.old + 1)) }
    ensures { ReadsLevel 0 depth groups tokens.now at.old result at.new }
{
    if depth + 1 >= LIMIT {
        return Err(Stop::TooDeep);
    }
    *at += 1;
    match expect(tokens, at, Word::Symbol(Symbol::OpenParen)) {
        Ok(()) => {}
        Err(stop) => return Err(stop),
    }
    let a = match binary(alloc, tokens, at, 6, depth + 1, groups) {
        Ok(a) => a,
        Err(stop) => return Err(stop),
    };
    match expect(tokens, at, Word::Symbol(Symbol::Comma)) {
        Ok(()) => {}
        Err(stop) => return Err(stop),
    }
    let b = match binary(alloc, tokens, at, 6, depth + 1, groups) {
        Ok(b) => b,
        Err(stop) => return Err(stop),
    };
    match expect(tokens, at, Word::Symbol(Symbol::CloseParen)) {
        Ok(()) => {}
        Err(stop) => return Err(stop),
    }
    match strcmp_of(alloc, a, b) {
        Ok(a) => Ok(a),
        Err(stop) => Err(stop),
    }
}

// A call of `atoi` or `strcmp`.
#[cycle(expr)]
fn called(
    alloc: Global,
    tokens: &Tokens,
    at: &mut usize,
    depth: u32,
    groups: u32,
    line: u32,
    keyword: Keyword,
) -> Result<Operand, Stop>
    requires depth { depth < 64 }
    requires within { at.old < 2 ^ 64 - 1 }
    requires stands { IsFirst line (sign_of_keyword keyword) (left tokens.now at.old) (left tokens.now (at.old + 1)) }
    ensures { ReadsLevel 0 depth groups tokens.now at.old result at.new }
{
    match keyword {
        Keyword::Atoi => atoi_call(alloc, tokens, at, depth, groups, line),
        Keyword::Strcmp => strcmp_call(alloc, tokens, at, depth, groups, line),
        _ => Err(Stop::Unfit),
    }
}

#[cycle(expr)]
fn operand(
    alloc: Global,
    tokens: &Tokens,
    at: &mut usize,
    depth: u32,
    groups: u32,
) -> Result<Operand, Stop>
    requires { depth < 64 }
    ensures { ReadsLevel 0 depth groups tokens.now at.old result at.new }
{
    let mark = match look(tokens, *at) {
        Some(mark) => mark,
        None => return Err(Stop::Unfit),
    };
    let line = mark.line;
    match mark.sign {
        Sign::Number(v) => {
            *at += 1;
            Ok(number_leaf(line, v))
        }
        Sign::Text(s) => match text_leaf(alloc, line, s) {
            Ok(a) => {
                *at += 1;
                Ok(a)
            }
            Err(stop) => Err(stop),
        },
        Sign::Name(w) => match name_leaf(alloc, line, w) {
            Ok(a) => {
                *at += 1;
                Ok(a)
            }
            Err(stop) => Err(stop),
        },
        Sign::Symbol(symbol) => prefixed(alloc, tokens, at, depth, groups, line, symbol),
        Sign::Keyword(keyword) => called(alloc, tokens, at, depth, groups, line, keyword),
        Sign::Bad(_) => Err(Stop::Unfit),
    }
}

// An expression of a level: 0 is an operand, 1 a product, and 6 holds them all.
#[cycle(expr)]
pub(crate) fn binary(
    alloc: Global,
    tokens: &Tokens,
    at: &mut usize,
    tightness: u32,
    depth: u32,
    groups: u32,
) -> Result<Operand, Stop>
    requires depth { depth < 64 }
    requires tightness { tightness ≤ 6 }
    ensures { ReadsLevel tightness depth groups tokens.now at.old result at.new }
{
    if tightness == 0 {
        return operand(alloc, tokens, at, depth, groups);
    }
    let mut all = match binary(alloc, tokens, at, tightness - 1, depth, groups) {
        Ok(first) => first,
        Err(stop) => return Err(stop),
    };
    'parts: loop {
        let op = match operator_at(tokens, *at, tightness) {
            Some(op) => op,
            None => return Ok(all),
        };
        if depth + all.height >= LIMIT {
            return Err(Stop::TooDeep);
        }
        *at += 1;
        let next = match binary(alloc, tokens, at, tightness - 1, depth + 1, groups) {
            Ok(next) => next,
            Err(stop) => return Err(stop),
        };
        all = match joined_by(alloc, op, all, next) {
            Ok(all) => all,
            Err(stop) => return Err(stop),
        };
    }
}
