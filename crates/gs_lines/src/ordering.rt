// Lines in another order.
ghost use Rattle.std.specs.Prelude.{◌≡◌, ◌++◌, map, reverse, IfOk, OnOk};
ghost use Rattle.gs_lines.specs.Lines.{lines, file_of};
ghost use Rattle.gs_lines.specs.Order.{rising};

use crate::Lines;
use crate::lines::push_line;
use std::alloc::{AllocError, Global};

// Puts the lines of a file behind others.
fn put_lines<'a>(all: &mut Vec<&'a [u8]>, bytes: &'a [u8]) -> Result<(), AllocError>
    ensures { OnOk result (map (λ l. l.now) all.new.items
        ≡ map (λ l. l.now) all.old.items ++ lines bytes.now) }
{
    for line in Lines::of(bytes) {
        all.push(line)?;
    }
    Ok(())
}

// A file of these lines.
fn file_of(alloc: Global, all: &[&[u8]]) -> Result<Vec<u8>, AllocError>
    ensures { IfOk result (λ f. f.items ≡ file_of (map (λ l. l.now) all.now)) }
{
    let mut file = Vec::new(alloc);
    for line in all {
        push_line(&mut file, line)?;
    }
    Ok(file)
}

fn sort(all: &mut Vec<&[u8]>)
    ensures { map (λ l. l.now) all.new.items ≡ rising (map (λ l. l.now) all.old.items) }
{
    all.sort_unstable();
}

/// A file of the lines from the last to the first.
pub fn reversed(alloc: Global, bytes: &[u8]) -> Result<Vec<u8>, AllocError>
    ensures { IfOk result (λ f. f.items ≡ file_of (reverse (lines bytes.now))) }
{
    let mut all = Vec::new(alloc);
    put_lines(&mut all, bytes)?;
    all.reverse();
    file_of(alloc, &all)
}

/// A file of the lines in rising order of bytes, repeats kept.
pub fn sorted(alloc: Global, bytes: &[u8]) -> Result<Vec<u8>, AllocError>
    ensures { IfOk result (λ f. f.items ≡ file_of (rising (lines bytes.now))) }
{
    let mut all = Vec::new(alloc);
    put_lines(&mut all, bytes)?;
    sort(&mut all);
    file_of(alloc, &all)
}

/// A file of the lines of both files in rising order of bytes, repeats kept.
pub fn merged(alloc: Global, first: &[u8], second: &[u8]) -> Result<Vec<u8>, AllocError>
    ensures { IfOk result (λ f. f.items
        ≡ file_of (rising (lines first.now ++ lines second.now))) }
{
    let mut all = Vec::new(alloc);
    put_lines(&mut all, first)?;
    put_lines(&mut all, second)?;
    sort(&mut all);
    file_of(alloc, &all)
}
