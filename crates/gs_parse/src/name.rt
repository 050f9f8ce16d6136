//! Taking a name or a format.

ghost use Rattle.std.specs.Prelude.{◌≡◌, ◌==◌, ◌^◌, ◌<◌, ◌≤◌, [], false, IfOk, MatchOption, MatchResult};
ghost use Rattle.gs_tree.specs.Shown.{sign_shown};
ghost use Rattle.gs_tree.specs.Sign.{ident, string};
ghost use Rattle.gs_parse.specs.Reads.{left, Expects, IsNamed, IsFormat};
ghost use Rattle.gs_parse.specs.Symbols.{place};

use crate::marks::look;
use crate::stop::Stop;
use gs_tree::sign::Sign;
use gs_tree::{Format, Ident, Tokens};
use std::alloc::Global;

fn name_in<'a>(sign: Sign<'a>) -> Option<&'a [u8]>
    ensures { MatchOption result ((place (sign_shown sign.entry) == 25) ≡ false) (λ w. sign_shown sign.entry ≡ ident w.now) }
{
    match sign {
        Sign::Keyword(_) => None,
        Sign::Name(w) => Some(w),
        Sign::Number(_) => None,
        Sign::Text(_) => None,
        Sign::Symbol(_) => None,
        Sign::Bad(_) => None,
    }
}

fn text_in<'a>(sign: Sign<'a>) -> Option<&'a [u8]>
    ensures { MatchOption result ((place (sign_shown sign.entry) == 27) ≡ false) (λ s. sign_shown sign.entry ≡ string s.now) }
{
    match sign {
        Sign::Keyword(_) => None,
        Sign::Name(_) => None,
        Sign::Number(_) => None,
        Sign::Text(s) => Some(s),
        Sign::Symbol(_) => None,
        Sign::Bad(_) => None,
    }
}

/// A copy of bytes.
pub(crate) fn copied(alloc: Global, bytes: &[u8]) -> Result<Vec<u8>, Stop>
    ensures { MatchResult result (λ v. v.items ≡ bytes.now) (λ stop. stop ≡ Stop.NoMemory) }
{
    match bytes.to_vec(alloc) {
        Ok(copy) => Ok(copy),
        Err(_) => Err(Stop::NoMemory),
    }
}

/// Takes a name.
pub(crate) fn take_name(alloc: Global, tokens: &Tokens, at: &mut usize) -> Result<Ident, Stop>
    ensures expects { Expects (ident []) IsNamed (left tokens.now at.old) result (left tokens.now at.new) }
    ensures onward { at.old ≤ at.new }
    ensures further { IfOk result (λ _. (at.old < at.new) × (at.old < 2 ^ 64)) }
{
    let mark = match look(tokens, *at) {
        Some(mark) => mark,
        None => return Err(Stop::Unfit),
    };
    let name = match name_in(mark.sign) {
        Some(name) => name,
        None => return Err(Stop::Unfit),
    };
    let name = match copied(alloc, name) {
        Ok(name) => name,
        Err(_) => return Err(Stop::NoMemory),
    };
    *at += 1;
    Ok(Ident {
        line: mark.line,
        name,
    })
}

/// Takes a string as a format.
pub(crate) fn take_format(alloc: Global, tokens: &Tokens, at: &mut usize) -> Result<Format, Stop>
    ensures expects { Expects (string []) IsFormat (left tokens.now at.old) result (left tokens.now at.new) }
    ensures onward { at.old ≤ at.new }
{
    let mark = match look(tokens, *at) {
        Some(mark) => mark,
        None => return Err(Stop::Unfit),
    };
    let text = match text_in(mark.sign) {
        Some(text) => text,
        None => return Err(Stop::Unfit),
    };
    let s = match copied(alloc, text) {
        Ok(s) => s,
        Err(_) => return Err(Stop::NoMemory),
    };
    *at += 1;
    Ok(Format { line: mark.line, s })
}
