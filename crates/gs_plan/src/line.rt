// A line of a durations file.
ghost use Rattle.std.specs.Prelude.{◌≡◌, ◌≢◌, ℕ, List, [], ◌∷◌, length, MatchOption, MatchResult};
ghost use Rattle.gs_list.specs.Lines.{spelled};
ghost use Rattle.gs_plan.specs.Durations.{IsDuration, LineSays, IsLineFault};
ghost use Rattle.gs_plan.specs.Reading.{IsStop, IsGiven, IsNotGiven};

use crate::kind::{DURATION_LIMIT, DurKind};
use gs_idl::Idl;
use gs_list::words_of;
use std::alloc::{AllocError, Global};

/// Why reading stopped on a line.
#[derive(Clone, Copy, PartialEq, Eq, Debug)]
pub(crate) enum Stop {
    Fault { kind: DurKind },
    Memory,
}

impl From<AllocError> for Stop {
    ghost use Rattle.std.specs.Prelude.{◌≡◌};
    ghost use Rattle.gs_plan.specs.declared.line.Stop.TheVariants.{Memory};

    ghost from_gives = { λ _ e. e ≡ Memory };

    fn from(_e: AllocError) -> Stop {
        Stop::Memory
    }
}

// The duration that a word says.
fn duration_in(word: &[u8]) -> Option<u32>
    ensures { MatchOption result ((d : ℕ) → IsDuration word.now d → ⊥)
        (λ d. IsDuration word.now d) }
{
    match word.first() {
        None | Some(b'0') | Some(b'+') => return None,
        Some(_) => {}
    }
    let Ok(text) = str::from_utf8(word) else {
        return None;
    };
    match text.parse::<u32>() {
        Ok(d) if d <= DURATION_LIMIT => Some(d),
        _ => None,
    }
}

/// The words of a line that gives an operation a duration.
#[derive(Clone, Copy)]
struct Pair<'a> {
    name: &'a [u8],
    digits: &'a [u8],
}

// The two words.
fn pair_of<'a>(words: &'a [&'a [u8]]) -> Option<Pair<'a>>
    ensures { MatchOption result
        ((name digits : List ℕ) → spelled words.now ≢ name ∷ digits ∷ [])
        (λ p. spelled words.now ≡ p.name.now ∷ p.digits.now ∷ []) }
{
    if words.len() != 2 {
        return None;
    }
    Some(Pair {
        name: words[0],
        digits: words[1],
    })
}

// Gives the operation its duration.
fn give(pair: &Pair, idl: &Idl, given: &mut Vec<Option<u32>>) -> Result<(), Stop>
    requires each { length given.old.items ≡ length idl.now.ops }
    ensures each { length given.new.items ≡ length idl.now.ops }
    ensures line { MatchResult result
        (λ _. IsGiven idl.now.ops pair.now.name.now pair.now.digits.now given.old.items
        given.new.items)
        (IsStop (IsNotGiven idl.now.ops pair.now.name.now pair.now.digits.now given.old.items)) }
{
    let Some(op) = idl.find(pair.name) else {
        return Err(Stop::Fault {
            kind: DurKind::UnknownOp,
        });
    };
    let Some(d) = duration_in(pair.digits) else {
        return Err(Stop::Fault {
            kind: DurKind::BadNumber,
        });
    };
    let op = op as usize;
    if given[op].is_some() {
        return Err(Stop::Fault {
            kind: DurKind::Twice,
        });
    }
    given[op] = Some(d);
    Ok(())
}

// Reads a line behind what the lines before it give.
pub(crate) fn read_line(
    alloc: Global,
    line: &[u8],
    idl: &Idl,
    given: &mut Vec<Option<u32>>,
) -> Result<(), Stop>
    requires each { length given.old.items ≡ length idl.now.ops }
    ensures each { length given.new.items ≡ length idl.now.ops }
    ensures line { MatchResult result
        (λ _. LineSays idl.now.ops line.now given.old.items given.new.items)
        (IsStop (IsLineFault idl.now.ops line.now given.old.items)) }
{
    let Some(words) = words_of(alloc, line)? else {
        return Err(Stop::Fault {
            kind: DurKind::BadByte,
        });
    };
    if words.is_empty() {
        return Ok(());
    }
    let Some(pair) = pair_of(words.as_slice()) else {
        return Err(Stop::Fault {
            kind: DurKind::BadLine,
        });
    };
    give(&pair, idl, given)
}
