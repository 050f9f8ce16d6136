// The reader of words.
ghost use Rattle.std.specs.Prelude.{◌≡◌, ◌<◌, ◌≤◌, MatchResult, map, length, codes, Some};
ghost use Rattle.std.specs.List.{slice_get};
ghost use Rattle.std.specs.String.{string_bytes};
ghost use Rattle.gs_words.specs.Usage.{IsReading};

use crate::options::read_options;
use crate::words::{has_word, name_at, number_at};
use crate::{Command, PLAN_LIMIT, SELF_LIMIT, Usage};

// Behind so many words there is none.
fn end_at(words: &Vec<String>, at: u32) -> Result<(), Usage>
    ensures { MatchResult result (λ u. length words.now.items ≤ at)
        (λ u. (u.word ≡ at) × (at < length words.now.items)) }
{
    if words.len() > at as usize {
        return Err(Usage { word: at });
    }
    Ok(())
}

fn read_run(words: &Vec<String>) -> Result<Command, Usage>
    requires { slice_get (map string_bytes words.now.items) 0 ≡ Some (codes "run") }
    ensures { IsReading (map string_bytes words.now.items) result }
{
    let idl = name_at(words, 1)?;
    let program = name_at(words, 2)?;
    let workers = name_at(words, 3)?;
    let settings = read_options(words)?;
    Ok(Command::Run {
        idl,
        program,
        workers,
        settings,
    })
}

fn read_check(words: &Vec<String>) -> Result<Command, Usage>
    requires { slice_get (map string_bytes words.now.items) 0 ≡ Some (codes "check") }
    ensures { IsReading (map string_bytes words.now.items) result }
{
    let idl = name_at(words, 1)?;
    let program = name_at(words, 2)?;
    end_at(words, 3)?;
    Ok(Command::Check { idl, program })
}

fn read_self(words: &Vec<String>) -> Result<Command, Usage>
    requires { slice_get (map string_bytes words.now.items) 0 ≡ Some (codes "self") }
    ensures { IsReading (map string_bytes words.now.items) result }
{
    let seed = number_at(words, 1, 0, u64::MAX)?;
    let n = number_at(words, 2, 1, SELF_LIMIT)?;
    end_at(words, 3)?;
    Ok(Command::SelfRun { seed, n: n as u32 })
}

fn read_report(words: &Vec<String>) -> Result<Command, Usage>
    requires { slice_get (map string_bytes words.now.items) 0 ≡ Some (codes "report") }
    ensures { IsReading (map string_bytes words.now.items) result }
{
    end_at(words, 1)?;
    Ok(Command::Report)
}

fn read_clean(words: &Vec<String>) -> Result<Command, Usage>
    requires { slice_get (map string_bytes words.now.items) 0 ≡ Some (codes "clean") }
    ensures { IsReading (map string_bytes words.now.items) result }
{
    end_at(words, 1)?;
    Ok(Command::Clean)
}

fn read_plan(words: &Vec<String>) -> Result<Command, Usage>
    requires { slice_get (map string_bytes words.now.items) 0 ≡ Some (codes "plan") }
    ensures { IsReading (map string_bytes words.now.items) result }
{
    let slots = number_at(words, 1, 1, PLAN_LIMIT)?;
    let durations = name_at(words, 2)?;
    end_at(words, 3)?;
    Ok(Command::Plan {
        slots: slots as u32,
        durations,
    })
}

/// The command that the words say: a verb, its names or numbers, and behind those of `run` the
/// options `--fuel`, `--window` and `--tries`, each with its number and at most once. Numbers are 1
/// to 20 digits within their limits. The error is the place, from 0, of the first word with which
/// no command goes on, or the number of words.
pub fn read(words: &Vec<String>) -> Result<Command, Usage>
    ensures { IsReading (map string_bytes words.now.items) result }
{
    if has_word(words, 0, "run") {
        return read_run(words);
    }
    if has_word(words, 0, "check") {
        return read_check(words);
    }
    if has_word(words, 0, "report") {
        return read_report(words);
    }
    if has_word(words, 0, "clean") {
        return read_clean(words);
    }
    if has_word(words, 0, "self") {
        return read_self(words);
    }
    if has_word(words, 0, "plan") {
        return read_plan(words);
    }
    Err(Usage { word: 0 })
}
