// What stands at a place of the words.
ghost use Rattle.std.specs.Prelude.{◌≡◌, ℕ, MatchResult, MatchOption, map, Some};
ghost use Rattle.std.specs.List.{slice_get};
ghost use Rattle.std.specs.Bool.{Decides};
ghost use Rattle.std.specs.String.{string_bytes};
ghost use Rattle.gs_words.specs.Words.{IsNumber};
ghost use Rattle.gs_words.specs.Given.{IsNameAt, NoNameAt, IsNumberAt, NoNumberAt};

use crate::Usage;
use gs_types::Name;

/// The name at a place.
pub(crate) fn name_at(words: &Vec<String>, at: u32) -> Result<Name, Usage>
    ensures { MatchResult result (λ n. IsNameAt (map string_bytes words.now.items) at n)
        (λ u. (u.word ≡ at) × NoNameAt (map string_bytes words.now.items) at) }
{
    let usage = Usage { word: at };
    match words.get(at as usize) {
        Some(word) => match Name::read(word.as_bytes()) {
            Ok(name) => Ok(name),
            Err(_) => Err(usage),
        },
        None => Err(usage),
    }
}

// The number that a word says.
fn number_in(word: &str, least: u64, most: u64) -> Option<u64>
    ensures { MatchOption result ((n : ℕ) → ¬ IsNumber least most word.now n)
        (λ n. IsNumber least most word.now n) }
{
    if word.len() > 20 || word.as_bytes().first() == Some(&b'+') {
        return None;
    }
    match word.parse::<u64>() {
        Ok(n) if least <= n && n <= most => Some(n),
        _ => None,
    }
}

/// The number at a place.
pub(crate) fn number_at(words: &Vec<String>, at: u32, least: u64, most: u64) -> Result<u64, Usage>
    ensures { MatchResult result
        (λ n. IsNumberAt (map string_bytes words.now.items) at least most n)
        (λ u. (u.word ≡ at) × NoNumberAt (map string_bytes words.now.items) at least most) }
{
    let usage = Usage { word: at };
    match words.get(at as usize) {
        Some(word) => match number_in(word.as_str(), least, most) {
            Some(n) => Ok(n),
            None => Err(usage),
        },
        None => Err(usage),
    }
}

/// Whether a place has this word.
pub(crate) fn has_word(words: &Vec<String>, at: u32, word: &str) -> bool
    ensures { Decides result (slice_get (map string_bytes words.now.items) at ≡ Some word.now) }
{
    match words.get(at as usize) {
        Some(w) => w.as_str() == word,
        None => false,
    }
}
