//! How a file is opened.

ghost use Rattle.std.specs.Prelude.{◌≡◌, ◌≤◌};
ghost use Rattle.gs_parse.specs.Reads.{left, TakesMode};

use crate::marks::{Word, accept};
use crate::stop::Stop;
use gs_tree::sign::Keyword;
use gs_tree::{Mode, Tokens};

/// Takes a mode.
pub(crate) fn take_mode(tokens: &Tokens, at: &mut usize) -> Result<Mode, Stop>
    ensures takes { TakesMode (left tokens.now at.old) result (left tokens.now at.new) }
    ensures onward { at.old ≤ at.new }
{
    if accept(tokens, at, Word::Keyword(Keyword::ModeR)) {
        return Ok(Mode::R);
    }
    if accept(tokens, at, Word::Keyword(Keyword::ModeW)) {
        return Ok(Mode::W);
    }
    if accept(tokens, at, Word::Keyword(Keyword::ModeA)) {
        return Ok(Mode::A);
    }
    Err(Stop::Unfit)
}
