// The lines of a file.
ghost use Rattle.std.specs.Prelude.{◌≡◌, ◌==◌, not, true};
ghost use Rattle.std.specs.List.{prefix_len, take_while, list_all};
ghost use Rattle.gs_talk.specs.Texts.{taken_line, read_line_at};
ghost use Rattle.gs_talk.specs.Found.{TakesLine};

use crate::{Line, TalkErr};
use gs_types::{FaultKind, Text, TextErr};
use std::alloc::Global;

fn is_in_line(b: u8) -> bool
    ensures { result ≡ not (b == 10) }
{
    b != b'\n'
}

fn line_len(bytes: &[u8]) -> usize
    ensures { result ≡ prefix_len (λ b. not (b == 10)) bytes.now }
{
    bytes.iter().take_while(|b| is_in_line(**b)).count()
}

// The bytes before the next line feed, or all.
fn first_line(bytes: &[u8]) -> &[u8]
    ensures line { result.now ≡ take_while (λ b. not (b == 10)) bytes.now }
    ensures one { list_all (λ b. not (b == 10)) result.now ≡ true }
{
    &bytes[..line_len(bytes)]
}

fn taken(alloc: Global, line: &[u8], next: usize) -> Result<Line, TalkErr>
    requires { list_all (λ b. not (b == 10)) line.now ≡ true }
    ensures { TakesLine (taken_line line.now next) result }
{
    match Text::read(alloc, line) {
        Ok(s) => Ok(Line::Got { s, next }),
        Err(TextErr::Long { len: _ }) => Err(TalkErr::Kind {
            kind: FaultKind::StringTooLong,
        }),
        Err(TextErr::BadByte { at: _ }) => Err(TalkErr::Kind {
            kind: FaultKind::BadByte,
        }),
        Err(TextErr::NoMemory) => Err(TalkErr::NoMemory),
    }
}

/// The line that begins at a place, from 0: `StringTooLong` for more than 1,024 bytes, else
/// `BadByte` for a byte other than 9, 13 and 32 to 126.
#[tactic(auto, unfolding(crate::specs::Texts::read_line_at))]
pub fn line(alloc: Global, bytes: &[u8], at: usize) -> Result<Line, TalkErr>
    ensures { TakesLine (read_line_at bytes.now at) result }
{
    if bytes.len() <= at {
        return Ok(Line::End);
    }
    let line = first_line(&bytes[at..]);
    let end = at + line.len();
    let next = if bytes.len() <= end {
        bytes.len()
    } else {
        end + 1
    };
    taken(alloc, line, next)
}
