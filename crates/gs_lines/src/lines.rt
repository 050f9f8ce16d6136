// The lines of a file, one after another.
ghost use Rattle.std.specs.Prelude.{◌≡◌, ◌<◌, ◌∷◌, ◌++◌, [], length, OnOk, OnErr};
ghost use Rattle.gs_lines.specs.Lines.{lines};

use memchr::memchr;
use std::alloc::AllocError;
use std::marker::Model;

/// The lines of a file: the parts before each line feed, and the rest behind the last one where it
/// isn't empty.
#[derive(Drop)]
pub struct Lines<'a> {
    rest: &'a [u8],
}

impl<'a> Model for Lines<'a> {
    ghost use Rattle.std.specs.Prelude.{ℕ, List};
    ghost use Rattle.gs_lines.specs.Lines.{lines};

    ghost Value = { List (List ℕ) };

    ghost view = { λ s. lines s.rest.now };
}

// The first line of a file that isn't empty, and what is behind it.
fn split_line(bytes: &[u8]) -> (&[u8], &[u8])
    requires { 0 < length bytes.now }
    ensures { lines bytes.now ≡ result.0.now ∷ lines result.1.now }
{
    match memchr(b'\n', bytes) {
        Some(at) => (&bytes[..at], &bytes[at + 1..]),
        None => (bytes, &bytes[bytes.len()..]),
    }
}

impl<'a> Lines<'a> {
    /// The lines of these bytes.
    pub fn of(bytes: &'a [u8]) -> Lines<'a>
        ensures { result ≡ lines bytes.now }
    {
        Lines { rest: bytes }
    }
}

impl<'a> Iterator for Lines<'a> {
    ghost use Rattle.std.specs.Iterator.{YieldsFirstRef, item_count};

    type Item = &'a [u8];

    ghost next_gives = { YieldsFirstRef (λ lines. lines) };

    ghost remaining = { item_count (λ lines. lines) };

    fn next(&mut self) -> Option<&'a [u8]> {
        if self.rest.is_empty() {
            return None;
        }
        let (line, rest) = split_line(self.rest);
        self.rest = rest;
        Some(line)
    }
}

/// Puts a line at the end of a file of lines.
pub(crate) fn push_line(file: &mut Vec<u8>, line: &[u8]) -> Result<(), AllocError>
    ensures { OnOk result (file.new.items ≡ file.old.items ++ (line.now ++ 10 ∷ [])) }
{
    file.extend_from_slice(line)?;
    file.push(b'\n')?;
    Ok(())
}
