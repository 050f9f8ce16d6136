// The options of a run.
ghost use Rattle.std.specs.Prelude.{◌≡◌, ◌≤◌, MatchResult, map, length};
ghost use Rattle.std.specs.String.{string_bytes};
ghost use Rattle.gs_words.specs.Given.{IsFlagWord, IsFlagAt, NoFlagAt, AreRead};

use crate::Usage;
use crate::given::{Flag, Given};
use crate::words::{has_word, number_at};
use gs_types::Settings;

// The option that stands at a place.
fn flag_word(words: &Vec<String>, at: u32) -> Option<Flag>
    ensures { IsFlagWord (map string_bytes words.now.items) at result }
{
    if has_word(words, at, "--fuel") {
        return Some(Flag::Fuel);
    }
    if has_word(words, at, "--window") {
        return Some(Flag::Window);
    }
    if has_word(words, at, "--tries") {
        return Some(Flag::Tries);
    }
    None
}

// The option that stands at a place and wasn't given before.
fn flag_at(words: &Vec<String>, at: u32, given: &Given) -> Result<Flag, Usage>
    ensures { MatchResult result (λ f. IsFlagAt (map string_bytes words.now.items) at given.now f)
        (λ u. (u.word ≡ at) × NoFlagAt (map string_bytes words.now.items) at given.now) }
{
    let usage = Usage { word: at };
    match flag_word(words, at) {
        Some(flag) => {
            if given.has(flag) {
                return Err(usage);
            }
            Ok(flag)
        }
        None => Err(usage),
    }
}

/// The settings that the words behind the first four say.
pub(crate) fn read_options(words: &Vec<String>) -> Result<Settings, Usage>
    requires { 4 ≤ length words.now.items }
    ensures { AreRead (map string_bytes words.now.items) result }
{
    let mut given = Given::none();
    'options: for i in 0..4u32 {
        let at = 4 + 2 * i;
        if at as usize >= words.len() {
            return Ok(given.settings());
        }
        let flag = flag_at(words, at, &given)?;
        let n = number_at(words, at + 1, 1, flag.limit())?;
        given.put(flag, n);
    }
    unreachable!()
}
