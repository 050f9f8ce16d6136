//! The tokens of a text.

ghost use Rattle.std.specs.Prelude.{◌≤◌, All, length};
ghost use Rattle.gs_tree.specs.Lexeme.{IsSpan};

use crate::bytes::line_feeds;
use crate::sign::{Mark, mark_at};
use crate::token::Token;

/// The tokens of a text, in order, and the text.
#[derive(Drop)]
pub struct Tokens {
    pub(crate) text: Vec<u8>,
    pub(crate) items: Vec<Token>,
    ghost within: { All (IsSpan (length text.items)) items.items },
    ghost short: { length text.items ≤ 65536 },
}

impl Tokens {
    ghost use Rattle.std.specs.Prelude.{◌≡◌, ◌<◌, ◌↔◌, [], length, IsTrue, slice_get};
    ghost use Rattle.gs_tree.specs.Lexeme.{lexeme_of};
    ghost use Rattle.gs_tree.specs.Cut.{text_of, lexemes_of, marks_in, last_line_of};
    ghost use Rattle.gs_tree.specs.Shown.{mark_shown};
    ghost use Rattle.std.specs.Option.{option_map};

    pub fn len(&self) -> usize
        ensures { result ≡ length (lexemes_of self.now) }
    {
        self.items.len()
    }

    pub fn is_empty(&self) -> bool
        ensures { IsTrue result ↔ (lexemes_of self.now ≡ []) }
    {
        self.items.is_empty()
    }

    pub fn at(&self, i: usize) -> &Token
        requires { i < length (lexemes_of self.now) }
        ensures { slice_get (lexemes_of self.now) i ≡ Some (lexeme_of result.now) }
    {
        &self.items[i]
    }

    /// What stands at a token.
    pub fn mark(&self, i: usize) -> Option<Mark<'_>>
        ensures { option_map mark_shown result ≡ slice_get (marks_in self.now) i }
    {
        if i < self.items.len() {
            return Some(mark_at(&self.text, &self.items[i]));
        }
        None
    }

    /// The line on which the text ends.
    pub fn last_line(&self) -> u32
        ensures { result ≡ last_line_of (text_of self.now) }
    {
        1 + line_feeds(&self.text) as u32
    }
}
