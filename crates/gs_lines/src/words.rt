// The words of lines.
ghost use Rattle.std.specs.Prelude.{◌≡◌, ◌≤◌, [], ◌∷◌, length, map, not, IfOk, MatchOption};
ghost use Rattle.std.specs.List.{prefix_len};
ghost use Rattle.gs_lines.specs.Lines.{lines, file_of};
ghost use Rattle.gs_lines.specs.Words.{is_blank, words, word_at};

use crate::Lines;
use crate::lines::push_line;
use std::alloc::{AllocError, Global};
use std::marker::Model;

/// The words of a line: its longest runs of bytes that are neither a tab nor a space.
#[derive(Drop)]
pub struct Words<'a> {
    rest: &'a [u8],
}

impl<'a> Model for Words<'a> {
    ghost use Rattle.std.specs.Prelude.{ℕ, List};
    ghost use Rattle.gs_lines.specs.Words.{words};

    ghost Value = { List (List ℕ) };

    ghost view = { λ w. words w.rest.now };
}

fn is_blank(b: u8) -> bool
    ensures { result ≡ is_blank b }
{
    matches!(b, b'\t' | b' ')
}

// How many blanks the line begins with.
fn blanks(line: &[u8]) -> usize
    ensures value { result ≡ prefix_len is_blank line.now }
    ensures within { result ≤ length line.now }
{
    line.iter().take_while(|b| is_blank(**b)).count()
}

// How many bytes the line begins with that are no blanks.
fn length_of_word(line: &[u8]) -> usize
    ensures value { result ≡ prefix_len (λ b. not (is_blank b)) line.now }
    ensures within { result ≤ length line.now }
{
    line.iter().take_while(|b| !is_blank(**b)).count()
}

fn behind_blanks(line: &[u8]) -> &[u8]
    ensures words { words result.now ≡ words line.now }
    ensures start { prefix_len is_blank result.now ≡ 0 }
{
    &line[blanks(line)..]
}

// The first word and what is behind it, where the line has a word.
fn split_word(line: &[u8]) -> Option<(&[u8], &[u8])>
    requires { prefix_len is_blank line.now ≡ 0 }
    ensures { MatchOption result (words line.now ≡ [])
        (λ split. words line.now ≡ split.0.now ∷ words split.1.now) }
{
    let end = length_of_word(line);
    if end == 0 {
        return None;
    }
    Some((&line[..end], &line[end..]))
}

impl<'a> Words<'a> {
    /// The words of this line.
    pub fn of(line: &'a [u8]) -> Words<'a>
        ensures { result ≡ words line.now }
    {
        Words { rest: line }
    }
}

impl<'a> Iterator for Words<'a> {
    ghost use Rattle.std.specs.Iterator.{YieldsFirstRef, item_count};

    type Item = &'a [u8];

    ghost next_gives = { YieldsFirstRef (λ words. words) };

    ghost remaining = { item_count (λ words. words) };

    fn next(&mut self) -> Option<&'a [u8]> {
        let (word, rest) = split_word(behind_blanks(self.rest))?;
        self.rest = rest;
        Some(word)
    }
}

// The word at a place, from 0, or the empty one where the line has no such word.
fn word_at(line: &[u8], place: usize) -> &[u8]
    ensures { result.now ≡ word_at place line.now }
{
    match Words::of(line).nth(place) {
        Some(word) => word,
        None => b"",
    }
}

/// A file of the words at this place, from 0, of each line; a line without it gives an empty line.
pub fn column(alloc: Global, bytes: &[u8], place: usize) -> Result<Vec<u8>, AllocError>
    ensures { IfOk result (λ f. f.items ≡ file_of (map (word_at place) (lines bytes.now))) }
{
    let mut file = Vec::new(alloc);
    for line in Lines::of(bytes) {
        push_line(&mut file, word_at(line, place))?;
    }
    Ok(file)
}
