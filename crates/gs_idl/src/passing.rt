// The next sign of a text, which is passed, or where reading stops.
ghost use Rattle.std.specs.Prelude.{◌≡◌, ◌+◌, ◌<◌, ℕ, length, map, OnOk, Ok, MatchResult};
ghost use Rattle.gs_idl.specs.Lexicon.{word, symbol};
ghost use Rattle.gs_idl.specs.Grammar.{refused};
ghost use Rattle.gs_idl.specs.Token.{sign_of};
ghost use Rattle.gs_idl.specs.Reading.{signs, sign_at, IsStanding, IsPassed, IsNamed};

use crate::token::{IdlKind, IdlSign, Symbol, Token};
use std::alloc::{AllocError, AllocFailed, Global};

/// Why reading stopped at the next sign.
#[derive(Clone, Copy, Debug, PartialEq, Eq)]
pub(crate) enum Stop {
    Fault { kind: IdlKind },
    Memory,
}

impl From<AllocError> for Stop {
    ghost use Rattle.std.specs.Prelude.{◌≡◌};
    ghost use Rattle.gs_idl.specs.declared.passing.Stop.TheVariants.{Memory};

    ghost from_gives = { λ _ e. e ≡ Memory };

    fn from(_e: AllocError) -> Stop {
        Stop::Memory
    }
}

impl<T: Drop> From<AllocFailed<T>> for Stop {
    ghost use Rattle.std.specs.Prelude.{◌≡◌};
    ghost use Rattle.gs_idl.specs.declared.passing.Stop.TheVariants.{Memory};

    ghost from_gives = { λ _ e. e ≡ Memory };

    fn from(_e: AllocFailed<T>) -> Stop {
        Stop::Memory
    }
}

/// The sign at a place. Behind the last one stands nothing that may be read.
pub(crate) fn sign_at<'a>(tokens: &[Token<'a>], at: usize) -> IdlSign<'a>
    ensures value { sign_of result ≡ sign_at (signs tokens.now) at }
    ensures within { IsStanding result → at < length tokens.now }
{
    match tokens.get(at) {
        Some(token) => token.sign,
        None => IdlSign::Bad {
            kind: IdlKind::Unexpected,
        },
    }
}

pub(crate) fn refused(sign: &IdlSign) -> Stop
    ensures { result ≡ Stop.Fault (refused (sign_of sign.now)) }
{
    match sign {
        IdlSign::Bad { kind } => Stop::Fault { kind: *kind },
        IdlSign::Word { text: _ } => Stop::Fault {
            kind: IdlKind::Unexpected,
        },
        IdlSign::Symbol { symbol: _ } => Stop::Fault {
            kind: IdlKind::Unexpected,
        },
        IdlSign::End => Stop::Fault {
            kind: IdlKind::Unexpected,
        },
    }
}

/// Passes over this symbol.
pub(crate) fn pass_symbol(tokens: &[Token], at: &mut usize, wanted: Symbol) -> Result<(), Stop>
    ensures passed { IsPassed (signs tokens.now) at.old at.new (symbol wanted) result }
    ensures within { OnOk result (at.old < length tokens.now) }
{
    let sign = sign_at(tokens, *at);
    match sign {
        IdlSign::Symbol { symbol } if symbol == wanted => {
            *at += 1;
            Ok(())
        }
        _ => Err(refused(&sign)),
    }
}

/// Passes over this word.
pub(crate) fn pass_word(tokens: &[Token], at: &mut usize, wanted: &[u8]) -> Result<(), Stop>
    ensures passed { IsPassed (signs tokens.now) at.old at.new (word wanted.now) result }
    ensures within { OnOk result (at.old < length tokens.now) }
{
    let sign = sign_at(tokens, *at);
    match sign {
        IdlSign::Word { text } if text == wanted => {
            *at += 1;
            Ok(())
        }
        _ => Err(refused(&sign)),
    }
}

/// The word that stands here.
pub(crate) fn word_at<'a>(tokens: &[Token<'a>], at: usize) -> Result<&'a [u8], Stop>
    ensures named { IsNamed (signs tokens.now) at result }
    ensures within { OnOk result (at < length tokens.now) }
{
    let sign = sign_at(tokens, at);
    match sign {
        IdlSign::Word { text } => Ok(text),
        _ => Err(refused(&sign)),
    }
}

pub(crate) fn copied(alloc: Global, word: &[u8]) -> Result<Vec<u8>, Stop>
    ensures { MatchResult result (λ v. v.items ≡ word.now) (λ stop. stop ≡ Stop.Memory) }
{
    match word.to_vec(alloc) {
        Ok(name) => Ok(name),
        Err(_) => Err(Stop::Memory),
    }
}
