//! Reading statements.

ghost use Rattle.std.specs.Prelude.{◌≡◌, ◌+◌, ◌<◌, ◌≤◌, []};
ghost use Rattle.gs_tree.specs.View.{code_of, codes_of};
ghost use Rattle.gs_parse.specs.Begins.{sign_of_begin};
ghost use Rattle.gs_parse.specs.Blocks.{closed_of, body_of};
ghost use Rattle.gs_parse.specs.Grammar.{rule, if_rule, while_rule, for_rule};
ghost use Rattle.gs_parse.specs.Notation.{a_code, a_body, closed, rest_of, body, stmts};
ghost use Rattle.gs_parse.specs.Reads.{left, Reads};
ghost use Rattle.gs_parse.specs.Words.{word_sign};

use crate::args::line_at;
use crate::begin::Begin;
use crate::head::{read_first, read_step, read_test};
use crate::make::{block_stmt, empty_stmt, for_stmt, if_else_stmt, if_stmt, while_stmt};
use crate::marks::{Word, accept, expect};
use crate::name::copied;
use crate::named::read_named;
use crate::simple::{read_barrier, read_close, read_print, read_print_file, read_print_str};
use crate::start::start_at;
use crate::stop::{LIMIT, Stop};
use crate::terms::read_condition;
use gs_tree::sign::{Keyword, Symbol};
use gs_tree::{Ident, Stmt, Tokens};
use std::alloc::Global;

/// Statements, and the line of the sign that closes them.
#[derive(Drop)]
pub(crate) struct Block {
    pub(crate) body: Vec<Stmt>,
    pub(crate) line: u32,
}

// A statement after its first sign.
#[cycle(stmt)]
fn read_rest(
    alloc: Global,
    tokens: &Tokens,
    at: &mut usize,
    depth: u32,
    line: u32,
    begin: Begin,
) -> Result<Stmt, Stop>
    requires { depth < 64 }
    ensures reads { Reads a_code (rule (rest_of depth (record { line = line; sign = sign_of_begin begin.entry }))) code_of (left tokens.now at.old) result (left tokens.now at.new) }
    ensures onward { at.old ≤ at.new }
{
    match begin {
        Begin::Empty => Ok(empty_stmt(line)),
        Begin::Block => match read_stmts(
            alloc,
            tokens,
            at,
            depth + 1,
            Word::Symbol(Symbol::CloseBrace),
        ) {
            Ok(block) => {
                let Block { body, .. } = block;
                Ok(block_stmt(line, body))
            }
            Err(stop) => Err(stop),
        },
        Begin::If => read_if(alloc, tokens, at, depth, line),
        Begin::While => read_while(alloc, tokens, at, depth, line),
        Begin::For => read_for(alloc, tokens, at, depth, line),
        Begin::Name(w) => match copied(alloc, w) {
            Ok(name) => read_named(alloc, tokens, at, Ident { line, name }),
            Err(stop) => Err(stop),
        },
        Begin::Close => read_close(alloc, tokens, at, line),
        Begin::Barrier => read_barrier(tokens, at, line),
        Begin::Print => read_print(alloc, tokens, at, line),
        Begin::PrintFile => read_print_file(alloc, tokens, at, line),
        Begin::PrintStr => read_print_str(alloc, tokens, at, line),
    }
}

#[cycle(stmt)]
fn read_if(
    alloc: Global,
    tokens: &Tokens,
    at: &mut usize,
    depth: u32,
    line: u32,
) -> Result<Stmt, Stop>
    requires { depth < 64 }
    ensures reads { Reads a_code (if_rule depth line) code_of (left tokens.now at.old) result (left tokens.now at.new) }
    ensures onward { at.old ≤ at.new }
{
    let cond = match read_condition(alloc, tokens, at) {
        Ok(cond) => cond,
        Err(stop) => return Err(stop),
    };
    let yes = match read_body(alloc, tokens, at, depth + 1) {
        Ok(yes) => yes,
        Err(stop) => return Err(stop),
    };
    if accept(tokens, at, Word::Keyword(Keyword::Else)) {
        return match read_body(alloc, tokens, at, depth + 1) {
            Ok(no) => Ok(if_else_stmt(line, cond, yes, no)),
            Err(stop) => Err(stop),
        };
    }
    Ok(if_stmt(line, cond, yes))
}

#[cycle(stmt)]
fn read_while(
    alloc: Global,
    tokens: &Tokens,
    at: &mut usize,
    depth: u32,
    line: u32,
) -> Result<Stmt, Stop>
    requires { depth < 64 }
    ensures reads { Reads a_code (while_rule depth line) code_of (left tokens.now at.old) result (left tokens.now at.new) }
    ensures onward { at.old ≤ at.new }
{
    let cond = match read_condition(alloc, tokens, at) {
        Ok(cond) => cond,
        Err(stop) => return Err(stop),
    };
    match read_body(alloc, tokens, at, depth + 1) {
        Ok(body) => Ok(while_stmt(line, cond, body)),
        Err(stop) => Err(stop),
    }
}

#[cycle(stmt)]
fn read_for(
    alloc: Global,
    tokens: &Tokens,
    at: &mut usize,
    depth: u32,
    line: u32,
) -> Result<Stmt, Stop>
    requires { depth < 64 }
    ensures reads { Reads a_code (for_rule depth line) code_of (left tokens.now at.old) result (left tokens.now at.new) }
    ensures onward { at.old ≤ at.new }
{
    match expect(tokens, at, Word::Symbol(Symbol::OpenParen)) {
        Ok(()) => {}
        Err(stop) => return Err(stop),
    }
    let first = match read_first(alloc, tokens, at) {
        Ok(first) => first,
        Err(stop) => return Err(stop),
    };
    let test = match read_test(alloc, tokens, at) {
        Ok(test) => test,
        Err(stop) => return Err(stop),
    };
    let step = match read_step(alloc, tokens, at) {
        Ok(step) => step,
        Err(stop) => return Err(stop),
    };
    match read_body(alloc, tokens, at, depth + 1) {
        Ok(body) => Ok(for_stmt(line, first, test, step, body)),
        Err(stop) => Err(stop),
    }
}

// A block, or one statement.
#[cycle(stmt)]
fn read_body(alloc: Global, tokens: &Tokens, at: &mut usize, depth: u32) -> Result<Vec<Stmt>, Stop>
    requires { depth ≤ 64 }
    ensures reads { Reads a_body (rule (body depth)) body_of (left tokens.now at.old) result (left tokens.now at.new) }
    ensures onward { at.old ≤ at.new }
{
    if accept(tokens, at, Word::Symbol(Symbol::OpenBrace)) {
        return match read_stmts(alloc, tokens, at, depth, Word::Symbol(Symbol::CloseBrace)) {
            Ok(block) => {
                let Block { body, .. } = block;
                Ok(body)
            }
            Err(stop) => Err(stop),
        };
    }
    let start = match start_at(tokens, *at) {
        Some(start) => start,
        None => return Err(Stop::Unfit),
    };
    if depth >= LIMIT {
        return Err(Stop::TooDeep);
    }
    *at += 1;
    let one = match read_rest(alloc, tokens, at, depth, start.line, start.begin) {
        Ok(one) => one,
        Err(stop) => return Err(stop),
    };
    let mut all = Vec::new(alloc);
    match all.push(one) {
        Ok(()) => Ok(all),
        Err(_) => Err(Stop::NoMemory),
    }
}

/// Statements up to a closing sign.
#[cycle(stmt)]
pub(crate) fn read_stmts(
    alloc: Global,
    tokens: &Tokens,
    at: &mut usize,
    depth: u32,
    closer: Word,
) -> Result<Block, Stop>
    requires { depth ≤ 64 }
    ensures reads { Reads closed (rule (stmts depth (word_sign closer) [])) closed_of (left tokens.now at.old) result (left tokens.now at.new) }
    ensures onward { at.old ≤ at.new }
{
    let mut body = Vec::new(alloc);
    'stmts: loop {
        let line = line_at(tokens, *at);
        if accept(tokens, at, closer) {
            return Ok(Block { body, line });
        }
        let start = match start_at(tokens, *at) {
            Some(start) => start,
            None => return Err(Stop::Unfit),
        };
        if depth >= LIMIT {
            return Err(Stop::TooDeep);
        }
        *at += 1;
        let next = match read_rest(alloc, tokens, at, depth, start.line, start.begin) {
            Ok(next) => next,
            Err(stop) => return Err(stop),
        };
        match body.push(next) {
            Ok(()) => {}
            Err(_) => return Err(Stop::NoMemory),
        }
    }
}
