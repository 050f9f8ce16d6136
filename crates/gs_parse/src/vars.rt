//! Reading the declarations of variables.

ghost use Rattle.std.specs.Prelude.{◌≡◌, ◌+◌, ◌^◌, ◌<◌, ◌≤◌, [], Some, None, MatchResult, OnSome};
ghost use Rattle.gs_tree.specs.View.{name_of, term_of};
ghost use Rattle.gs_parse.specs.Frame.{declared_of, Begins, TakesType};
ghost use Rattle.gs_parse.specs.Grammar.{rule, declare, var_rule, next_var};
ghost use Rattle.gs_parse.specs.Notation.{declared, names, decls};
ghost use Rattle.gs_parse.specs.Reads.{left, Reads};

use crate::marks::{Word, accept, expect};
use crate::name::{copied, take_name};
use crate::stop::Stop;
use crate::terms::read_expr;
use gs_tree::sign::{Keyword, Symbol};
use gs_tree::{Assign, Expr, Ident, Tokens, Var, VarKind};
use std::alloc::Global;

/// The variables declared so far, and the assignments in their declarations.
#[derive(Drop)]
pub(crate) struct Declarations {
    pub(crate) vars: Vec<Var>,
    pub(crate) first: Vec<Assign>,
}

// Takes the type of a declaration.
fn take_type(tokens: &Tokens, at: &mut usize) -> Option<VarKind>
    ensures takes { TakesType (left tokens.now at.old) result (left tokens.now at.new) }
    ensures onward { at.old ≤ at.new }
    ensures further { OnSome result ((at.old < at.new) × (at.old < 2 ^ 64)) }
{
    if accept(tokens, at, Word::Keyword(Keyword::Int)) {
        return Some(VarKind::Int);
    }
    if accept(tokens, at, Word::Keyword(Keyword::Char)) {
        return Some(VarKind::Str);
    }
    if accept(tokens, at, Word::Keyword(Keyword::File)) {
        return Some(VarKind::Handle);
    }
    None
}

// A variable without a value.
fn declare_plain(name: Ident, kind: VarKind, all: &mut Declarations) -> Result<(), Stop>
    ensures { MatchResult result (λ _. declared_of all.new ≡ declare (name_of name) kind None (declared_of all.old)) (λ stop. stop ≡ Stop.NoMemory) }
{
    match all.vars.push(Var { name, kind }) {
        Ok(()) => Ok(()),
        Err(_) => Err(Stop::NoMemory),
    }
}

// A variable and the value that it begins with.
fn declare_valued(
    alloc: Global,
    name: Ident,
    kind: VarKind,
    value: Expr,
    all: &mut Declarations,
) -> Result<(), Stop>
    ensures { MatchResult result (λ _. declared_of all.new ≡ declare (name_of name) kind (Some (term_of value)) (declared_of all.old)) (λ stop. stop ≡ Stop.NoMemory) }
{
    let line = name.line;
    let to = match copied(alloc, &name.name) {
        Ok(name) => Ident { line, name },
        Err(_) => return Err(Stop::NoMemory),
    };
    match all.vars.push(Var { name, kind }) {
        Ok(()) => {}
        Err(_) => return Err(Stop::NoMemory),
    }
    match all.first.push(Assign { to, value }) {
        Ok(()) => Ok(()),
        Err(_) => Err(Stop::NoMemory),
    }
}

// A name that may have a value.
fn read_valued(
    alloc: Global,
    tokens: &Tokens,
    at: &mut usize,
    kind: VarKind,
    all: &mut Declarations,
) -> Result<(), Stop>
    ensures reads { Begins declared (var_rule kind (declared_of all.old)) (next_var kind (declared_of all.new)) declared_of (left tokens.now at.old) result (left tokens.now at.new) }
    ensures onward { at.old ≤ at.new }
{
    let name = match take_name(alloc, tokens, at) {
        Ok(name) => name,
        Err(stop) => return Err(stop),
    };
    if accept(tokens, at, Word::Symbol(Symbol::Equal)) {
        return match read_expr(alloc, tokens, at, 0) {
            Ok(value) => declare_valued(alloc, name, kind, value, all),
            Err(stop) => Err(stop),
        };
    }
    declare_plain(name, kind, all)
}

// `*`, and a name that may have a value.
fn read_string(
    alloc: Global,
    tokens: &Tokens,
    at: &mut usize,
    all: &mut Declarations,
) -> Result<(), Stop>
    ensures reads { Begins declared (rule (names VarKind.Str (declared_of all.old))) (next_var VarKind.Str (declared_of all.new)) declared_of (left tokens.now at.old) result (left tokens.now at.new) }
    ensures onward { at.old ≤ at.new }
{
    match expect(tokens, at, Word::Symbol(Symbol::Star)) {
        Ok(()) => read_valued(alloc, tokens, at, VarKind::Str, all),
        Err(stop) => Err(stop),
    }
}

// `*`, and a name.
fn read_handle(
    alloc: Global,
    tokens: &Tokens,
    at: &mut usize,
    all: &mut Declarations,
) -> Result<(), Stop>
    ensures reads { Begins declared (rule (names VarKind.Handle (declared_of all.old))) (next_var VarKind.Handle (declared_of all.new)) declared_of (left tokens.now at.old) result (left tokens.now at.new) }
    ensures onward { at.old ≤ at.new }
{
    match expect(tokens, at, Word::Symbol(Symbol::Star)) {
        Ok(()) => {}
        Err(stop) => return Err(stop),
    }
    match take_name(alloc, tokens, at) {
        Ok(name) => declare_plain(name, VarKind::Handle, all),
        Err(stop) => Err(stop),
    }
}

// One variable of a declaration, after its type or a comma.
fn read_var(
    alloc: Global,
    tokens: &Tokens,
    at: &mut usize,
    kind: VarKind,
    all: &mut Declarations,
) -> Result<(), Stop>
    ensures reads { Begins declared (rule (names kind (declared_of all.old))) (next_var kind (declared_of all.new)) declared_of (left tokens.now at.old) result (left tokens.now at.new) }
    ensures onward { at.old ≤ at.new }
{
    match kind {
        VarKind::Int => read_valued(alloc, tokens, at, VarKind::Int, all),
        VarKind::Str => read_string(alloc, tokens, at, all),
        VarKind::Handle => read_handle(alloc, tokens, at, all),
    }
}

// The variables of a declaration, after its type.
fn read_names(
    alloc: Global,
    tokens: &Tokens,
    at: &mut usize,
    kind: VarKind,
    all: &mut Declarations,
) -> Result<(), Stop>
    ensures reads { Begins declared (rule (names kind (declared_of all.old))) (rule (decls (declared_of all.new))) declared_of (left tokens.now at.old) result (left tokens.now at.new) }
    ensures onward { at.old ≤ at.new }
{
    'names: loop {
        match read_var(alloc, tokens, at, kind, all) {
            Ok(()) => {}
            Err(stop) => return Err(stop),
        }
        if accept(tokens, at, Word::Symbol(Symbol::Comma)) {
            continue;
        }
        return expect(tokens, at, Word::Symbol(Symbol::Semicolon));
    }
}

/// The declarations of a program.
pub(crate) fn read_decls(
    alloc: Global,
    tokens: &Tokens,
    at: &mut usize,
) -> Result<Declarations, Stop>
    ensures reads { Reads declared (rule (decls (record { vars = []; first = [] }))) declared_of (left tokens.now at.old) result (left tokens.now at.new) }
    ensures onward { at.old ≤ at.new }
{
    let mut all = Declarations {
        vars: Vec::new(alloc),
        first: Vec::new(alloc),
    };
    'decls: loop {
        let kind = match take_type(tokens, at) {
            Some(kind) => kind,
            None => return Ok(all),
        };
        match read_names(alloc, tokens, at, kind, &mut all) {
            Ok(()) => {}
            Err(stop) => return Err(stop),
        }
    }
}
