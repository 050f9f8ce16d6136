// The text of a plan.
ghost use Rattle.std.specs.Prelude.{◌≡◌, ◌++◌, ◌∷◌, [], IfOk, OnOk};
ghost use Rattle.std.specs.List.{flat_map};
ghost use Rattle.std.specs.Fmt.{decimal};
ghost use Rattle.gs_plan.specs.Text.{row_line, number_line, chain_line, text_of};

use crate::table::{Placed, Plan};
use gs_types::{Blob, NoMemory};
use std::alloc::{AllocError, Global};

fn put(text: &mut Vec<u8>, bytes: &[u8]) -> Result<(), AllocError>
    ensures { OnOk result (text.new.items ≡ text.old.items ++ bytes.now) }
{
    text.extend_from_slice(bytes)?;
    Ok(())
}

fn put_number(alloc: Global, text: &mut Vec<u8>, n: u64) -> Result<(), AllocError>
    ensures { OnOk result (text.new.items ≡ text.old.items ++ decimal n) }
{
    let digits = format!(in alloc; "{n}")?;
    put(text, digits.as_bytes())
}

// A line of a word and a number.
fn put_line(alloc: Global, text: &mut Vec<u8>, word: &[u8], n: u64) -> Result<(), AllocError>
    ensures { OnOk result (text.new.items ≡ text.old.items ++ number_line word.now n) }
{
    put(text, word)?;
    put(text, b" ")?;
    put_number(alloc, text, n)?;
    put(text, b"\n")
}

fn put_row(alloc: Global, text: &mut Vec<u8>, row: &Placed) -> Result<(), AllocError>
    ensures { OnOk result (text.new.items ≡ text.old.items ++ row_line row.now) }
{
    put(text, b"task ")?;
    put_number(alloc, text, row.n as u64)?;
    put(text, b" slot ")?;
    put_number(alloc, text, row.slot as u64)?;
    put(text, b" start ")?;
    put_number(alloc, text, row.start)?;
    put(text, b" end ")?;
    put_number(alloc, text, row.end)?;
    put(text, b"\n")
}

fn put_rows(alloc: Global, text: &mut Vec<u8>, rows: &[Placed]) -> Result<(), AllocError>
    ensures { OnOk result (text.new.items ≡ text.old.items ++ flat_map row_line rows.now) }
{
    for row in rows {
        put_row(alloc, text, row)?;
    }
    Ok(())
}

// A blank and a number for each task.
fn put_numbers(alloc: Global, text: &mut Vec<u8>, chain: &[u32]) -> Result<(), AllocError>
    ensures { OnOk result (text.new.items
        ≡ text.old.items ++ flat_map (λ n. 32 ∷ decimal n) chain.now) }
{
    for n in chain {
        put(text, b" ")?;
        put_number(alloc, text, *n as u64)?;
    }
    Ok(())
}

fn put_chain(alloc: Global, text: &mut Vec<u8>, chain: &[u32]) -> Result<(), AllocError>
    ensures { OnOk result (text.new.items ≡ text.old.items ++ chain_line chain.now) }
{
    put(text, b"chain")?;
    put_numbers(alloc, text, chain)?;
    put(text, b"\n")
}

/// The text of a plan: a line `task N slot S start T end U` for each task, then `end C`, `work W`,
/// `chain` with a blank and a number for each of its tasks, and `length L`. The only error is want
/// of memory.
pub fn text(alloc: Global, plan: &Plan) -> Result<Blob, NoMemory>
    ensures { IfOk result (λ b. b ≡ text_of plan.now) }
{
    let mut text = Vec::new(alloc);
    put_rows(alloc, &mut text, plan.tasks.items())?;
    put_line(alloc, &mut text, b"end", plan.end)?;
    put_line(alloc, &mut text, b"work", plan.work)?;
    put_chain(alloc, &mut text, plan.chain.items())?;
    put_line(alloc, &mut text, b"length", plan.length)?;
    Ok(Blob::of(text))
}
