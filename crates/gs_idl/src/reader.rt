// The reader of interface texts.
ghost use Rattle.std.specs.Prelude.{◌≡◌, ◌+◌, ◌<◌, ◌≤◌, ◌↔◌, ℕ, List, [], ◌∷◌, ◌++◌, length, map, OnOk, IfOk, IfErr, Ok, MatchResult, IsTrue, IsFalse, false, if◌then◌else◌};
ghost use Rattle.gs_idl.specs.Interface.{Param, Signature, IsOpSized, IsOpsSized};
ghost use Rattle.gs_idl.specs.Lexicon.{word, symbol, finish};
ghost use Rattle.gs_idl.specs.Grammar.{refused, Says};
ghost use Rattle.gs_idl.specs.Machine.{name_rule, run, start, at_ops, at_name, at_paren, at_dir, at_kind, at_param, at_sep, at_semi, closed, param_by, dir_of, kind_of, is_clash, has_op, has_param};
ghost use Rattle.gs_idl.specs.Token.{sign_of, mark_of};
ghost use Rattle.gs_idl.specs.View.{param_of, op_of};
ghost use Rattle.gs_idl.specs.Reading.{signs, sign_at, IsStanding, IsPassed, IsNamed, IsLast, Moves, Ends, Reads, line_at, Refuses};

use crate::idl::{Dir, Idl, Operation, ParamKind, Parameter};
use crate::keyword::is_keyword;
use crate::passing::{Stop, copied, pass_symbol, pass_word, refused, sign_at, word_at};
use crate::token::{IdlKind, IdlSign, Symbol, Token, tokens};
use std::alloc::Global;

fn read_title(alloc: Global, tokens: &[Token], at: &mut usize) -> Result<Vec<u8>, Stop>
    ensures moves { Moves (signs tokens.now) at.old start at.new (λ v. at_ops v.items []) result }
    ensures within { OnOk result (at.new ≤ length tokens.now) }
{
    if let Err(stop) = pass_word(tokens, at, b"interface") {
        return Err(stop);
    }
    let name = match word_at(tokens, *at) {
        Ok(word) => word,
        Err(stop) => return Err(stop),
    };
    let name = match copied(alloc, name) {
        Ok(name) => name,
        Err(stop) => return Err(stop),
    };
    *at += 1;
    if let Err(stop) = pass_symbol(tokens, at, Symbol::OpenBrace) {
        return Err(stop);
    }
    Ok(name)
}

fn dir_of(word: &[u8]) -> Option<Dir>
    ensures { result ≡ dir_of word.now }
{
    match word {
        b"in" => Some(Dir::Input),
        b"inout" => Some(Dir::Both),
        b"out" => Some(Dir::Output),
        _ => None,
    }
}

fn kind_of(word: &[u8]) -> Option<ParamKind>
    ensures { result ≡ kind_of word.now }
{
    if word == b"File".as_slice() {
        return Some(ParamKind::File);
    }
    if word == b"int".as_slice() {
        return Some(ParamKind::Int);
    }
    if word == b"string".as_slice() {
        return Some(ParamKind::Str);
    }
    None
}

fn is_clash(dir: Dir, kind: ParamKind) -> bool
    ensures { result ≡ is_clash dir kind }
{
    dir == Dir::Both && kind != ParamKind::File
}

fn has_op(name: &[u8], ops: &[Operation]) -> bool
    ensures { result ≡ has_op name.now (map op_of ops.now) }
{
    for op in ops {
        if name == op.name.as_slice() {
            return true;
        }
    }
    false
}

fn has_param(name: &[u8], params: &[Parameter]) -> bool
    ensures { result ≡ has_param name.now (map param_of params.now) }
{
    for param in params {
        if name == param.name.as_slice() {
            return true;
        }
    }
    false
}

/// The direction of the parameter behind so many.
fn pass_dir(tokens: &[Token], at: &mut usize, count: usize) -> Result<Dir, Stop>
    ensures moves { (x : List ℕ) (os : List Signature) (f : List ℕ) (ps : List Param)
        → length ps ≡ count → Moves (signs tokens.now) at.old (at_dir x os f ps) at.new
        (λ d. at_kind x os f ps d) result }
    ensures few { OnOk result (count < 16) }
    ensures within { OnOk result ((at.old < length tokens.now) × (at.new ≡ at.old + 1)) }
{
    let word = match word_at(tokens, *at) {
        Ok(word) => word,
        Err(stop) => return Err(stop),
    };
    let Some(dir) = dir_of(word) else {
        return Err(Stop::Fault {
            kind: IdlKind::Unexpected,
        });
    };
    if count >= 16 {
        return Err(Stop::Fault {
            kind: IdlKind::TooMany,
        });
    }
    *at += 1;
    Ok(dir)
}

/// The kind of a parameter of this direction.
fn pass_kind(tokens: &[Token], at: &mut usize, dir: Dir) -> Result<ParamKind, Stop>
    ensures moves { (x : List ℕ) (os : List Signature) (f : List ℕ) (ps : List Param)
        → Moves (signs tokens.now) at.old (at_kind x os f ps dir) at.new
        (λ k. at_param x os f ps dir k) result }
    ensures within { OnOk result ((at.old < length tokens.now) × (at.new ≡ at.old + 1)) }
{
    let word = match word_at(tokens, *at) {
        Ok(word) => word,
        Err(stop) => return Err(stop),
    };
    let Some(kind) = kind_of(word) else {
        return Err(Stop::Fault {
            kind: IdlKind::Unexpected,
        });
    };
    if is_clash(dir, kind) {
        return Err(Stop::Fault {
            kind: IdlKind::BadCombination,
        });
    }
    *at += 1;
    Ok(kind)
}

/// The name of a parameter behind these.
fn pass_param_name(
    alloc: Global,
    tokens: &[Token],
    at: &mut usize,
    params: &[Parameter],
) -> Result<Vec<u8>, Stop>
    ensures moves { (x : List ℕ) (os : List Signature) (f : List ℕ) (d : Dir) (k : ParamKind)
        → Moves (signs tokens.now) at.old (at_param x os f (map param_of params.now) d k) at.new
        (λ v. at_sep x os f (map param_of params.now ++ param_by d k v.items ∷ [])) result }
    ensures within { OnOk result ((at.old < length tokens.now) × (at.new ≡ at.old + 1)) }
{
    let word = match word_at(tokens, *at) {
        Ok(word) => word,
        Err(stop) => return Err(stop),
    };
    if has_param(word, params) {
        return Err(Stop::Fault {
            kind: IdlKind::Twice,
        });
    }
    let name = match copied(alloc, word) {
        Ok(name) => name,
        Err(stop) => return Err(stop),
    };
    *at += 1;
    Ok(name)
}

/// A parameter behind these.
fn read_param(
    alloc: Global,
    tokens: &[Token],
    at: &mut usize,
    params: &[Parameter],
) -> Result<Parameter, Stop>
    ensures moves { (x : List ℕ) (os : List Signature) (f : List ℕ)
        → Moves (signs tokens.now) at.old (at_dir x os f (map param_of params.now)) at.new
        (λ p. at_sep x os f (map param_of params.now ++ param_of p ∷ [])) result }
    ensures few { OnOk result (length params.now < 16) }
    ensures within { OnOk result ((at.old < at.new) × (at.new ≤ length tokens.now)) }
{
    let dir = match pass_dir(tokens, at, params.len()) {
        Ok(dir) => dir,
        Err(stop) => return Err(stop),
    };
    let kind = match pass_kind(tokens, at, dir) {
        Ok(kind) => kind,
        Err(stop) => return Err(stop),
    };
    match pass_param_name(alloc, tokens, at, params) {
        Ok(name) => Ok(Parameter { dir, kind, name }),
        Err(stop) => Err(stop),
    }
}

/// Whether another parameter follows, or else the list is ended.
fn pass_more(tokens: &[Token], at: &mut usize) -> Result<bool, Stop>
    ensures moves { (x : List ℕ) (os : List Signature) (f : List ℕ) (ps : List Param)
        → Moves (signs tokens.now) at.old (at_sep x os f ps) at.new (λ more. if more
        then at_dir x os f ps else at_semi x os f ps) result }
    ensures within { OnOk result ((at.old < length tokens.now) × (at.new ≡ at.old + 1)) }
{
    match pass_symbol(tokens, at, Symbol::Comma) {
        Ok(()) => Ok(true),
        Err(_) => match pass_symbol(tokens, at, Symbol::CloseParen) {
            Ok(()) => Ok(false),
            Err(stop) => Err(stop),
        },
    }
}

/// Adds a parameter, and says whether another follows.
fn add_param(
    alloc: Global,
    tokens: &[Token],
    at: &mut usize,
    params: &mut Vec<Parameter>,
) -> Result<bool, Stop>
    ensures moves { (x : List ℕ) (os : List Signature) (f : List ℕ)
        → Moves (signs tokens.now) at.old (at_dir x os f (map param_of params.old.items)) at.new
        (λ more. if more then at_dir x os f (map param_of params.new.items)
        else at_semi x os f (map param_of params.new.items)) result }
    ensures within { OnOk result ((at.old < at.new) × (at.new ≤ length tokens.now)) }
    ensures size { OnOk result ((1 ≤ length params.new.items) × (length params.new.items ≤ 16)) }
{
    let param = match read_param(alloc, tokens, at, params.as_slice()) {
        Ok(param) => param,
        Err(stop) => return Err(stop),
    };
    params.push(param)?;
    match pass_more(tokens, at) {
        Ok(more) => Ok(more),
        Err(stop) => Err(stop),
    }
}

fn read_params(alloc: Global, tokens: &[Token], at: &mut usize) -> Result<Vec<Parameter>, Stop>
    requires { at.old ≤ length tokens.now }
    ensures moves { (x : List ℕ) (os : List Signature) (f : List ℕ)
        → Moves (signs tokens.now) at.old (at_dir x os f []) at.new
        (λ v. at_semi x os f (map param_of v.items)) result }
    ensures within { OnOk result ((at.old < at.new) × (at.new ≤ length tokens.now)) }
    ensures size { IfOk result (λ v. (1 ≤ length v.items) × (length v.items ≤ 16)) }
{
    let mut params = Vec::new(alloc);
    'params: loop {
        match add_param(alloc, tokens, at, &mut params) {
            Ok(true) => {}
            Ok(false) => return Ok(params),
            Err(stop) => return Err(stop),
        }
    }
}

/// The rule that this name of an operation behind these breaks.
fn name_rule(word: &[u8], ops: &[Operation]) -> Option<IdlKind>
    ensures { result ≡ name_rule (map op_of ops.now) word.now }
{
    if ops.len() >= 64 {
        return Some(IdlKind::TooMany);
    }
    if has_op(word, ops) {
        return Some(IdlKind::Twice);
    }
    if is_keyword(word) {
        return Some(IdlKind::Reserved);
    }
    None
}

/// The name of an operation behind these.
fn pass_op_name(
    alloc: Global,
    tokens: &[Token],
    at: &mut usize,
    ops: &[Operation],
) -> Result<Vec<u8>, Stop>
    ensures moves { (x : List ℕ) → Moves (signs tokens.now) at.old (at_name x (map op_of ops.now))
        at.new (λ v. at_paren x (map op_of ops.now) v.items) result }
    ensures within { OnOk result ((at.old < length tokens.now) × (at.new ≡ at.old + 1)) }
    ensures few { OnOk result (length ops.now < 64) }
{
    let word = match word_at(tokens, *at) {
        Ok(word) => word,
        Err(stop) => return Err(stop),
    };
    if let Some(kind) = name_rule(word, ops) {
        return Err(Stop::Fault { kind });
    }
    let name = match copied(alloc, word) {
        Ok(name) => name,
        Err(stop) => return Err(stop),
    };
    *at += 1;
    Ok(name)
}

/// An operation behind these, from its name on.
fn read_op(
    alloc: Global,
    tokens: &[Token],
    at: &mut usize,
    ops: &[Operation],
) -> Result<Operation, Stop>
    ensures moves { (x : List ℕ) → Moves (signs tokens.now) at.old (at_name x (map op_of ops.now))
        at.new (λ o. at_ops x (map op_of ops.now ++ op_of o ∷ [])) result }
    ensures within { OnOk result ((at.old < at.new) × (at.new ≤ length tokens.now)) }
    ensures few { OnOk result (length ops.now < 64) }
    ensures size { IfOk result (λ o. IsOpSized (op_of o)) }
{
    let name = match pass_op_name(alloc, tokens, at, ops) {
        Ok(name) => name,
        Err(stop) => return Err(stop),
    };
    if let Err(stop) = pass_symbol(tokens, at, Symbol::OpenParen) {
        return Err(stop);
    }
    let params = match read_params(alloc, tokens, at) {
        Ok(params) => params,
        Err(stop) => return Err(stop),
    };
    if let Err(stop) = pass_symbol(tokens, at, Symbol::Semicolon) {
        return Err(stop);
    }
    Ok(Operation { name, params })
}

/// Whether another operation follows, or else the interface is closed, which it can't be without an
/// operation.
fn pass_void(tokens: &[Token], at: &mut usize, is_first: bool) -> Result<bool, Stop>
    ensures moves { (x : List ℕ) (os : List Signature) → IsTrue is_first ↔ (os ≡ [])
        → Moves (signs tokens.now) at.old (at_ops x os) at.new (λ more. if more then at_name x os
        else closed x os) result }
    ensures within { OnOk result ((at.old < length tokens.now) × (at.new ≡ at.old + 1)) }
    ensures some { result ≡ Ok false → IsFalse is_first }
{
    match pass_word(tokens, at, b"void") {
        Ok(()) => Ok(true),
        Err(stop) if is_first => Err(stop),
        Err(_) => match pass_symbol(tokens, at, Symbol::CloseBrace) {
            Ok(()) => Ok(false),
            Err(stop) => Err(stop),
        },
    }
}

fn are_none(ops: &[Operation]) -> bool
    ensures { IsTrue result ↔ (map op_of ops.now ≡ []) }
{
    ops.is_empty()
}

/// Adds an operation, or says that the interface is closed.
fn add_op(
    alloc: Global,
    tokens: &[Token],
    at: &mut usize,
    ops: &mut Vec<Operation>,
) -> Result<bool, Stop>
    requires { IsOpsSized (map op_of ops.old.items) }
    ensures moves { (x : List ℕ)
        → Moves (signs tokens.now) at.old (at_ops x (map op_of ops.old.items)) at.new
        (λ more. if more then at_ops x (map op_of ops.new.items)
        else closed x (map op_of ops.new.items)) result }
    ensures within { OnOk result ((at.old < at.new) × (at.new ≤ length tokens.now)) }
    ensures size { OnOk result (IsOpsSized (map op_of ops.new.items)) }
    ensures some { result ≡ Ok false → 1 ≤ length ops.new.items }
{
    let is_first = are_none(ops.as_slice());
    match pass_void(tokens, at, is_first) {
        Ok(true) => {}
        Ok(false) => return Ok(false),
        Err(stop) => return Err(stop),
    }
    let op = match read_op(alloc, tokens, at, ops.as_slice()) {
        Ok(op) => op,
        Err(stop) => return Err(stop),
    };
    ops.push(op)?;
    Ok(true)
}

fn read_ops(alloc: Global, tokens: &[Token], at: &mut usize) -> Result<Vec<Operation>, Stop>
    requires { at.old ≤ length tokens.now }
    ensures moves { (x : List ℕ) → Moves (signs tokens.now) at.old (at_ops x []) at.new
        (λ v. closed x (map op_of v.items)) result }
    ensures size { IfOk result (λ v. (1 ≤ length v.items) × IsOpsSized (map op_of v.items)) }
{
    let mut ops = Vec::new(alloc);
    'ops: loop {
        match add_op(alloc, tokens, at, &mut ops) {
            Ok(true) => {}
            Ok(false) => return Ok(ops),
            Err(stop) => return Err(stop),
        }
    }
}

fn pass_last(tokens: &[Token], at: usize) -> Result<(), Stop>
    ensures { IsLast (signs tokens.now) at result }
{
    let sign = sign_at(tokens, at);
    match sign {
        IdlSign::End => Ok(()),
        _ => Err(refused(&sign)),
    }
}

/// The end, behind a semicolon or not.
fn pass_end(tokens: &[Token], at: &mut usize) -> Result<(), Stop>
    ensures { (x : List ℕ) (os : List Signature)
        → Ends (signs tokens.now) at.old (closed x os) at.new (record { name = x; ops = os })
        result }
{
    match pass_symbol(tokens, at, Symbol::Semicolon) {
        Ok(()) => pass_last(tokens, *at),
        Err(_) => pass_last(tokens, *at),
    }
}

fn read_interface(alloc: Global, tokens: &[Token], at: &mut usize) -> Result<Idl, Stop>
    requires { at.old ≡ 0 }
    ensures { Reads (run 0 start (signs tokens.now)) at.new result }
{
    let name = match read_title(alloc, tokens, at) {
        Ok(name) => name,
        Err(stop) => return Err(stop),
    };
    let ops = match read_ops(alloc, tokens, at) {
        Ok(ops) => ops,
        Err(stop) => return Err(stop),
    };
    match pass_end(tokens, at) {
        Ok(()) => Ok(Idl { name, ops }),
        Err(stop) => Err(stop),
    }
}

/// Why a text is no interface: what is wrong, and the line where it goes wrong, from 1; 0 for a
/// text that is too long. Or want of memory.
#[derive(Clone, Copy, Debug, PartialEq, Eq)]
pub enum IdlErr {
    At { line: u32, kind: IdlKind },
    NoMemory,
}

/// The line of the token at this place.
fn line_at(tokens: &[Token], at: usize) -> u32
    ensures { result ≡ line_at (map mark_of tokens.now) at }
{
    match tokens.get(at) {
        Some(token) => token.line,
        None => 0,
    }
}

/// Reads an interface text of at most 65,536 bytes.
pub fn read(alloc: Global, bytes: &[u8]) -> Result<Idl, IdlErr>
    ensures says { IfOk result (λ idl. Says bytes.now idl) }
    ensures fault { IfErr result (Refuses bytes.now) }
{
    if bytes.len() > 65536 {
        return Err(IdlErr::At {
            line: 0,
            kind: IdlKind::TooLong,
        });
    }
    let Ok(tokens) = tokens(alloc, bytes) else {
        return Err(IdlErr::NoMemory);
    };
    let mut at = 0;
    match read_interface(alloc, &tokens, &mut at) {
        Ok(idl) => Ok(idl),
        Err(Stop::Memory) => Err(IdlErr::NoMemory),
        Err(Stop::Fault { kind }) => Err(IdlErr::At {
            line: line_at(&tokens, at),
            kind,
        }),
    }
}
