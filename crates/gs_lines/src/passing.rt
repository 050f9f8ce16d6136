// What one pass over the lines of a file makes of them.
ghost use Rattle.std.specs.Prelude.{◌≡◌, ◌-◌, [], ◌∷◌, ◌++◌, length, take, drop, filter, nat_eq, decimal, None, IfOk, OnOk};
ghost use Rattle.std.specs.List.{starts_with};
ghost use Rattle.gs_lines.specs.Lines.{lines, file_of, first_of, without_repeats, numbered};

use crate::Lines;
use crate::lines::push_line;
use itoa::Buffer;
use std::alloc::{AllocError, Global};

/// The number of lines.
pub fn number_of_lines(bytes: &[u8]) -> usize
    ensures { result ≡ length (lines bytes.now) }
{
    Lines::of(bytes).count()
}

/// The first line, or the empty one where there is none.
pub fn first(bytes: &[u8]) -> &[u8]
    ensures { result.now ≡ first_of (lines bytes.now) }
{
    match Lines::of(bytes).next() {
        Some(line) => line,
        None => b"",
    }
}

/// A file of the first `n` lines, or of all.
pub fn first_lines(alloc: Global, bytes: &[u8], n: usize) -> Result<Vec<u8>, AllocError>
    ensures { IfOk result (λ f. f.items ≡ file_of (take n (lines bytes.now))) }
{
    let mut file = Vec::new(alloc);
    for line in Lines::of(bytes).take(n) {
        push_line(&mut file, line)?;
    }
    Ok(file)
}

/// A file of the lines behind the first `n`.
pub fn other_lines(alloc: Global, bytes: &[u8], n: usize) -> Result<Vec<u8>, AllocError>
    ensures { IfOk result (λ f. f.items ≡ file_of (drop n (lines bytes.now))) }
{
    let mut file = Vec::new(alloc);
    let mut left = n;
    for line in Lines::of(bytes) {
        if left > 0 {
            left -= 1;
        } else {
            push_line(&mut file, line)?;
        }
    }
    Ok(file)
}

/// A file of the last `n` lines, or of all.
pub fn last_lines(alloc: Global, bytes: &[u8], n: usize) -> Result<Vec<u8>, AllocError>
    ensures { IfOk result (λ f. f.items
        ≡ file_of (drop (length (lines bytes.now) - n) (lines bytes.now))) }
{
    other_lines(alloc, bytes, number_of_lines(bytes).saturating_sub(n))
}

/// A file of the lines that begin with these bytes, in order.
pub fn lines_beginning(alloc: Global, bytes: &[u8], start: &[u8]) -> Result<Vec<u8>, AllocError>
    ensures { IfOk result (λ f. f.items
        ≡ file_of (filter (λ line. starts_with nat_eq line start.now) (lines bytes.now))) }
{
    let mut file = Vec::new(alloc);
    for line in Lines::of(bytes) {
        if line.starts_with(start) {
            push_line(&mut file, line)?;
        }
    }
    Ok(file)
}

/// A file of the lines without each that equals the one before.
pub fn without_repeats(alloc: Global, bytes: &[u8]) -> Result<Vec<u8>, AllocError>
    ensures { IfOk result (λ f. f.items ≡ file_of (without_repeats None (lines bytes.now))) }
{
    let mut file = Vec::new(alloc);
    let mut before = None;
    for line in Lines::of(bytes) {
        if before != Some(line) {
            push_line(&mut file, line)?;
        }
        before = Some(line);
    }
    Ok(file)
}

// Puts a line after its number and a tab at the end of a file.
fn push_numbered(file: &mut Vec<u8>, n: u64, line: &[u8]) -> Result<(), AllocError>
    ensures { OnOk result (file.new.items
        ≡ file.old.items ++ ((decimal n ++ 9 ∷ line.now) ++ 10 ∷ [])) }
{
    let mut buffer = Buffer::new();
    file.extend_from_slice(buffer.format(n).as_bytes())?;
    file.push(b'\t')?;
    push_line(file, line)
}

/// A file of each line after its number, from 1, and a tab.
pub fn numbered(alloc: Global, bytes: &[u8]) -> Result<Vec<u8>, AllocError>
    ensures { IfOk result (λ f. f.items ≡ file_of (numbered 1 (lines bytes.now))) }
{
    let mut file = Vec::new(alloc);
    let mut n = 1;
    for line in Lines::of(bytes) {
        push_numbered(&mut file, n, line)?;
        n += 1;
    }
    Ok(file)
}
