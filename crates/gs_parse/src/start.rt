//! The first sign of a statement.

ghost use Rattle.std.specs.Prelude.{◌≡◌, ◌+◌, ◌-◌, ◌^◌, ◌<◌, MatchOption, OnSome};
ghost use Rattle.gs_parse.specs.Begins.{IsStart, NoStart};
ghost use Rattle.gs_parse.specs.Reads.{left};

use crate::begin::{Begin, begin_of};
use crate::marks::look;
use gs_tree::Tokens;

/// How a statement begins, and on which line.
#[derive(Clone, Copy)]
pub(crate) struct Start<'a> {
    pub(crate) line: u32,
    pub(crate) begin: Begin<'a>,
}

/// The first sign of a statement at a token, where one begins.
pub(crate) fn start_at(tokens: &Tokens, at: usize) -> Option<Start<'_>>
    ensures starts { MatchOption result (NoStart (left tokens.now at)) (λ s. IsStart s (left tokens.now at) (left tokens.now (at + 1))) }
    ensures within { OnSome result (at < 2 ^ 64 - 1) }
{
    match look(tokens, at) {
        Some(mark) => match begin_of(mark.sign) {
            Some(begin) => Some(Start {
                line: mark.line,
                begin,
            }),
            None => None,
        },
        None => None,
    }
}
