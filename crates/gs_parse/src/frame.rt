//! Reading the frame of a program.

ghost use Rattle.std.specs.Prelude.{◌≡◌, ◌+◌, ◌^◌, ◌<◌, ◌≤◌, []};
ghost use Rattle.gs_tree.specs.View.{program_of};
ghost use Rattle.gs_tree.specs.Shown.{sign_shown};
ghost use Rattle.gs_parse.specs.Frame.{main_rule, return_rule, settings_in, vars_in, IsZero, TakesZero};
ghost use Rattle.gs_parse.specs.Grammar.{rule, after_head, after_off, after_on, program_end};
ghost use Rattle.gs_parse.specs.Notation.{a_program, program, settings, starts};
ghost use Rattle.gs_parse.specs.Reads.{left, Reads};

use crate::marks::{Word, accept, expect, look};
use crate::name::take_name;
use crate::stmt::{Block, read_stmts};
use crate::stop::Stop;
use crate::terms::read_expr;
use crate::vars::{Declarations, read_decls};
use gs_tree::sign::{Keyword, Sign, Symbol};
use gs_tree::{Assign, Tokens, Tree, Var};
use std::alloc::Global;

fn is_zero_sign(sign: &Sign) -> bool
    ensures { IsZero result (sign_shown sign.now) }
{
    match sign {
        Sign::Keyword(_) => false,
        Sign::Name(_) => false,
        Sign::Number(v) => *v == 0,
        Sign::Text(_) => false,
        Sign::Symbol(_) => false,
        Sign::Bad(_) => false,
    }
}

// Takes a `0`.
fn take_zero(tokens: &Tokens, at: &mut usize) -> Result<(), Stop>
    ensures takes { TakesZero (left tokens.now at.old) result (left tokens.now at.new) }
    ensures onward { at.old ≤ at.new }
{
    let mark = match look(tokens, *at) {
        Some(mark) => mark,
        None => return Err(Stop::Unfit),
    };
    if is_zero_sign(&mark.sign) {
        *at += 1;
        return Ok(());
    }
    Err(Stop::Unfit)
}

// The end of the program: its closing brace.
fn read_end(tokens: &Tokens, at: &mut usize, tree: Tree) -> Result<Tree, Stop>
    ensures reads { Reads a_program (program_end (program_of tree)) program_of (left tokens.now at.old) result (left tokens.now at.new) }
    ensures onward { at.old ≤ at.new }
{
    match expect(tokens, at, Word::Symbol(Symbol::CloseBrace)) {
        Ok(()) => Ok(tree),
        Err(stop) => Err(stop),
    }
}

// What may follow the call of `GS_Off`.
fn read_return(tokens: &Tokens, at: &mut usize, tree: Tree) -> Result<Tree, Stop>
    ensures reads { Reads a_program (return_rule (program_of tree)) program_of (left tokens.now at.old) result (left tokens.now at.new) }
    ensures onward { at.old ≤ at.new }
{
    if accept(tokens, at, Word::Keyword(Keyword::Return)) {
        match take_zero(tokens, at) {
            Ok(()) => {}
            Err(stop) => return Err(stop),
        }
        return match expect(tokens, at, Word::Symbol(Symbol::Semicolon)) {
            Ok(()) => read_end(tokens, at, tree),
            Err(stop) => Err(stop),
        };
    }
    read_end(tokens, at, tree)
}

// What follows `GS_Off`.
fn read_off(tokens: &Tokens, at: &mut usize, tree: Tree) -> Result<Tree, Stop>
    ensures reads { Reads a_program (after_off (program_of tree)) program_of (left tokens.now at.old) result (left tokens.now at.new) }
    ensures onward { at.old ≤ at.new }
{
    match expect(tokens, at, Word::Symbol(Symbol::OpenParen)) {
        Ok(()) => {}
        Err(stop) => return Err(stop),
    }
    match take_zero(tokens, at) {
        Ok(()) => {}
        Err(stop) => return Err(stop),
    }
    match expect(tokens, at, Word::Symbol(Symbol::CloseParen)) {
        Ok(()) => {}
        Err(stop) => return Err(stop),
    }
    match expect(tokens, at, Word::Symbol(Symbol::Semicolon)) {
        Ok(()) => read_return(tokens, at, tree),
        Err(stop) => Err(stop),
    }
}

// What follows `GS_On`.
fn read_on(
    alloc: Global,
    tokens: &Tokens,
    at: &mut usize,
    vars: Vec<Var>,
    first: Vec<Assign>,
) -> Result<Tree, Stop>
    ensures reads { Reads a_program (after_on (record { vars = vars_in vars; first = [] }) (settings_in first)) program_of (left tokens.now at.old) result (left tokens.now at.new) }
    ensures onward { at.old ≤ at.new }
{
    match expect(tokens, at, Word::Symbol(Symbol::OpenParen)) {
        Ok(()) => {}
        Err(stop) => return Err(stop),
    }
    match expect(tokens, at, Word::Symbol(Symbol::CloseParen)) {
        Ok(()) => {}
        Err(stop) => return Err(stop),
    }
    match expect(tokens, at, Word::Symbol(Symbol::Semicolon)) {
        Ok(()) => {}
        Err(stop) => return Err(stop),
    }
    match read_stmts(alloc, tokens, at, 0, Word::Keyword(Keyword::GsOff)) {
        Ok(block) => {
            let Block { body, line } = block;
            read_off(
                tokens,
                at,
                Tree {
                    vars,
                    first,
                    body,
                    off: line,
                },
            )
        }
        Err(stop) => Err(stop),
    }
}

// The initial assignments, behind those that stand so far.
fn read_starts(
    alloc: Global,
    tokens: &Tokens,
    at: &mut usize,
    so_far: Vec<Assign>,
) -> Result<Vec<Assign>, Stop>
    ensures reads { Reads settings (rule (starts (settings_in so_far))) settings_in (left tokens.now at.old) result (left tokens.now at.new) }
    ensures onward { at.old ≤ at.new }
{
    let mut first = so_far;
    'starts: loop {
        let to = match take_name(alloc, tokens, at) {
            Ok(to) => to,
            Err(Stop::Unfit) => return Ok(first),
            Err(_) => return Err(Stop::NoMemory),
        };
        match expect(tokens, at, Word::Symbol(Symbol::Equal)) {
            Ok(()) => {}
            Err(stop) => return Err(stop),
        }
        let value = match read_expr(alloc, tokens, at, 0) {
            Ok(value) => value,
            Err(stop) => return Err(stop),
        };
        match expect(tokens, at, Word::Symbol(Symbol::Semicolon)) {
            Ok(()) => {}
            Err(stop) => return Err(stop),
        }
        match first.push(Assign { to, value }) {
            Ok(()) => {}
            Err(_) => return Err(Stop::NoMemory),
        }
    }
}

// What follows the head's `(`, or its `void`.
fn read_head(alloc: Global, tokens: &Tokens, at: &mut usize) -> Result<Tree, Stop>
    ensures reads { Reads a_program after_head program_of (left tokens.now at.old) result (left tokens.now at.new) }
    ensures onward { at.old ≤ at.new }
{
    match expect(tokens, at, Word::Symbol(Symbol::CloseParen)) {
        Ok(()) => {}
        Err(stop) => return Err(stop),
    }
    match expect(tokens, at, Word::Symbol(Symbol::OpenBrace)) {
        Ok(()) => {}
        Err(stop) => return Err(stop),
    }
    let Declarations { vars, first } = match read_decls(alloc, tokens, at) {
        Ok(all) => all,
        Err(stop) => return Err(stop),
    };
    let first = match read_starts(alloc, tokens, at, first) {
        Ok(first) => first,
        Err(stop) => return Err(stop),
    };
    match expect(tokens, at, Word::Keyword(Keyword::GsOn)) {
        Ok(()) => read_on(alloc, tokens, at, vars, first),
        Err(stop) => Err(stop),
    }
}

// What follows the type of `main`, where one stands.
fn read_main(alloc: Global, tokens: &Tokens, at: &mut usize) -> Result<Tree, Stop>
    ensures reads { Reads a_program main_rule program_of (left tokens.now at.old) result (left tokens.now at.new) }
    ensures onward { at.old ≤ at.new }
{
    match expect(tokens, at, Word::Keyword(Keyword::Main)) {
        Ok(()) => {}
        Err(stop) => return Err(stop),
    }
    match expect(tokens, at, Word::Symbol(Symbol::OpenParen)) {
        Ok(()) => {}
        Err(stop) => return Err(stop),
    }
    if accept(tokens, at, Word::Keyword(Keyword::Void)) {
        return read_head(alloc, tokens, at);
    }
    read_head(alloc, tokens, at)
}

/// A program, up to its closing brace.
pub(crate) fn read_program(alloc: Global, tokens: &Tokens, at: &mut usize) -> Result<Tree, Stop>
    ensures reads { Reads a_program (rule program) program_of (left tokens.now at.old) result (left tokens.now at.new) }
    ensures onward { at.old ≤ at.new }
{
    if accept(tokens, at, Word::Keyword(Keyword::Int)) {
        return read_main(alloc, tokens, at);
    }
    if accept(tokens, at, Word::Keyword(Keyword::Void)) {
        return read_main(alloc, tokens, at);
    }
    read_main(alloc, tokens, at)
}
