// The law of built-in operations on files.
ghost use Rattle.std.specs.Prelude.{◌≡◌, ◌++◌, option_map, option_and_then, IfOk};
ghost use Rattle.gs_filters.specs.Filters.{filters, kept, of_file, of_files, of_number, of_file_and_string, of_string, outputs};

use crate::Operation;
use crate::giving::{Given, give_file, give_files, give_numbers, give_sum, give_text};
use gs_lines::{
    column, first, first_lines, last_lines, lines_beginning, merged, number_of_lines, numbered,
    other_lines, reversed, sorted, sum, without_repeats,
};
use gs_types::{Law, NoMemory, Value};
use sha2::{Digest, Sha256};
use std::alloc::{AllocError, Global};

/// The law of eighteen operations on files. The lines of a file are the parts before each line
/// feed, and the rest behind the last one where it isn't empty; each line of a file that is given
/// is followed by a line feed. The words of a line are its longest runs of bytes that are neither a
/// tab nor a space. `copy` gives a file, `cat` and `append` a file followed by another, `put` a
/// string and a line feed; `head` and `tail` give the first and the last lines, `split` the first
/// and the others, `starts` those that begin with a string, `sorted` and `merge` the lines of one
/// file or of two in rising order of bytes, `uniq` those that don't equal the line before,
/// `reverse` the lines from the last to the first, `number` each after its number from 1 and a tab,
/// `column` the word of each at a place from 1, or an empty line; `sum` gives the sum of the
/// numbers in the lines, `count` the numbers of lines and of bytes, `first` the first line, and
/// `digest` the SHA-256 in hexadecimal. Another name, other inputs in number or kind, a number of
/// lines below 0, a place below 1, a line that says no number, a sum outside 64 bits, and an output
/// past its limit give none.
#[derive(Clone, Copy, Debug, PartialEq, Eq)]
pub struct FilterLaw;

impl Law for FilterLaw {
    ghost meaning = { λ law. filters };

    fn apply(
        &self,
        alloc: Global,
        op: &[u8],
        ins: &[Value],
    ) -> Result<Option<Vec<Value>>, NoMemory> {
        match Operation::named(op) {
            Some(operation) => give(alloc, operation, ins),
            None => Ok(None),
        }
    }
}

// What an operation gives for its inputs.
fn give(alloc: Global, operation: Operation, ins: &[Value]) -> Given
    ensures { IfOk result (λ outs. option_map (λ v. v.items) outs
        ≡ option_and_then kept (outputs ins.now operation)) }
{
    match ins {
        [Value::File { bytes: a }] => of_file(alloc, operation, a.bytes()),
        [Value::File { bytes: a }, Value::File { bytes: b }] => {
            of_files(alloc, operation, a.bytes(), b.bytes())
        }
        [Value::File { bytes: a }, Value::Int { v }] => of_number(alloc, operation, a.bytes(), *v),
        [Value::File { bytes: a }, Value::Str { s }] => {
            of_file_and_string(alloc, operation, a.bytes(), s.bytes())
        }
        [Value::Str { s }] => of_string(alloc, operation, s.bytes()),
        _ => Ok(None),
    }
}

fn of_file(alloc: Global, operation: Operation, a: &[u8]) -> Given
    ensures { IfOk result (λ outs. option_map (λ v. v.items) outs
        ≡ option_and_then kept (of_file operation a.now)) }
{
    match operation {
        Operation::Copy => give_file(alloc, Vec::from_slice(alloc, a)?),
        Operation::Sorted => give_file(alloc, sorted(alloc, a)?),
        Operation::Uniq => give_file(alloc, without_repeats(alloc, a)?),
        Operation::Reverse => give_file(alloc, reversed(alloc, a)?),
        Operation::Number => give_file(alloc, numbered(alloc, a)?),
        Operation::Sum => give_sum(alloc, sum(a)),
        Operation::Count => give_numbers(alloc, number_of_lines(a), a.len()),
        Operation::First => give_text(alloc, first(a)),
        Operation::Digest => {
            let digest = hex::encode(alloc, Sha256::digest(a))?;
            give_text(alloc, digest.as_bytes())
        }
        _ => Ok(None),
    }
}

// A file followed by another.
fn joined(alloc: Global, a: &[u8], b: &[u8]) -> Result<Vec<u8>, AllocError>
    ensures { IfOk result (λ f. f.items ≡ a.now ++ b.now) }
{
    let mut file = Vec::from_slice(alloc, a)?;
    file.extend_from_slice(b)?;
    Ok(file)
}

fn of_files(alloc: Global, operation: Operation, a: &[u8], b: &[u8]) -> Given
    ensures { IfOk result (λ outs. option_map (λ v. v.items) outs
        ≡ option_and_then kept (of_files operation a.now b.now)) }
{
    match operation {
        Operation::Cat | Operation::Append => give_file(alloc, joined(alloc, a, b)?),
        Operation::Merge => give_file(alloc, merged(alloc, a, b)?),
        _ => Ok(None),
    }
}

fn of_number(alloc: Global, operation: Operation, a: &[u8], n: i64) -> Given
    ensures { IfOk result (λ outs. option_map (λ v. v.items) outs
        ≡ option_and_then kept (of_number operation a.now n)) }
{
    let Ok(n) = usize::try_from(n) else {
        return Ok(None);
    };
    match operation {
        Operation::Head => give_file(alloc, first_lines(alloc, a, n)?),
        Operation::Tail => give_file(alloc, last_lines(alloc, a, n)?),
        Operation::Split => {
            let others = other_lines(alloc, a, n)?;
            give_files(alloc, first_lines(alloc, a, n)?, others)
        }
        Operation::Column if n > 0 => give_file(alloc, column(alloc, a, n - 1)?),
        _ => Ok(None),
    }
}

fn of_file_and_string(alloc: Global, operation: Operation, a: &[u8], s: &[u8]) -> Given
    ensures { IfOk result (λ outs. option_map (λ v. v.items) outs
        ≡ option_and_then kept (of_file_and_string operation a.now s.now)) }
{
    match operation {
        Operation::Starts => give_file(alloc, lines_beginning(alloc, a, s)?),
        _ => Ok(None),
    }
}

fn of_string(alloc: Global, operation: Operation, s: &[u8]) -> Given
    ensures { IfOk result (λ outs. option_map (λ v. v.items) outs
        ≡ option_and_then kept (of_string operation s.now)) }
{
    match operation {
        Operation::Put => give_file(alloc, joined(alloc, s, b"\n")?),
        _ => Ok(None),
    }
}
