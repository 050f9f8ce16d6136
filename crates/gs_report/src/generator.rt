// The generator.
ghost use Rattle.std.specs.Prelude.{◌≡◌, ◌≤◌, ◌<◌, ◌++◌, length, IfOk, OnOk};
ghost use Rattle.gs_report.specs.Generator.{behind, drawn, file_text, mark_line, hash_line, task_line, after_task, after_tasks, task_lines, made};

use crate::put::{put, put_number};
use gs_types::{Blob, NoMemory};
use std::alloc::{AllocError, Global};

const IDL: &[u8] =
    b"interface SELF { void hash(in File a, in File b, out File c); void mark(inout File f, in int i); };\n";

/// An interface, a program and a list of workers that were made, and the state after the program.
#[derive(Debug, Drop)]
pub struct Made {
    pub idl: Blob,
    pub program: Blob,
    pub workers: Blob,
    pub next: u64,
}

// What a draw gives; the state goes on.
fn draw(x: &mut u64) -> u64
    ensures state { x.new ≡ behind x.old }
    ensures value { result ≡ drawn x.old }
{
    *x = x
        .wrapping_mul(6364136223846793005)
        .wrapping_add(1442695040888963407);
    *x / 4294967296
}

fn put_file(alloc: Global, text: &mut Vec<u8>, x: &mut u64) -> Result<(), AllocError>
    ensures text { OnOk result (text.new.items ≡ text.old.items ++ file_text x.old) }
    ensures state { OnOk result (x.new ≡ behind x.old) }
{
    let file = draw(x) % 16;
    put(text, b"\"f")?;
    put_number(alloc, text, file)?;
    put(text, b"\"")
}

fn put_mark(alloc: Global, text: &mut Vec<u8>, t: u32, x: &mut u64) -> Result<(), AllocError>
    ensures text { OnOk result (text.new.items ≡ text.old.items ++ mark_line t x.old) }
    ensures state { OnOk result (x.new ≡ behind x.old) }
{
    put(text, b"mark(")?;
    put_file(alloc, text, x)?;
    put(text, b", ")?;
    put_number(alloc, text, t as u64)?;
    put(text, b");\n")
}

fn put_hash(alloc: Global, text: &mut Vec<u8>, x: &mut u64) -> Result<(), AllocError>
    ensures text { OnOk result (text.new.items ≡ text.old.items ++ hash_line x.old) }
    ensures state { OnOk result (x.new ≡ behind (behind (behind x.old))) }
{
    put(text, b"hash(")?;
    put_file(alloc, text, x)?;
    put(text, b", ")?;
    put_file(alloc, text, x)?;
    put(text, b", ")?;
    put_file(alloc, text, x)?;
    put(text, b");\n")
}

fn put_task(alloc: Global, text: &mut Vec<u8>, t: u32, x: &mut u64) -> Result<(), AllocError>
    ensures text { OnOk result (text.new.items ≡ text.old.items ++ task_line t x.old) }
    ensures state { OnOk result (x.new ≡ after_task x.old) }
{
    if draw(x) % 4 == 0 {
        put_mark(alloc, text, t, x)
    } else {
        put_hash(alloc, text, x)
    }
}

fn put_tasks(alloc: Global, text: &mut Vec<u8>, n: u32, x: &mut u64) -> Result<(), AllocError>
    ensures text { OnOk result (text.new.items ≡ text.old.items ++ task_lines x.old n) }
    ensures state { OnOk result (x.new ≡ after_tasks x.old n) }
{
    for i in 0..n {
        put_task(alloc, text, i + 1, x)?;
    }
    Ok(())
}

/// An interface, a program of `n` tasks and a list of workers, made from a number. A program of at
/// most 2,000 tasks has fewer than 55,000 bytes. The only error is want of memory.
pub fn make(alloc: Global, seed: u64, n: u32) -> Result<Made, NoMemory>
    ensures value { IfOk result (λ m. m ≡ made seed n) }
    ensures short { n ≤ 2000 → IfOk result (λ m. length m.program < 55000) }
{
    let mut x = seed;
    let mut program = Vec::new(alloc);
    put(&mut program, b"main() {\nGS_On();\n")?;
    put_tasks(alloc, &mut program, n, &mut x)?;
    put(&mut program, b"GS_Off(0);\n}\n")?;
    Ok(Made {
        idl: Blob::copy(alloc, IDL)?,
        program: Blob::of(program),
        workers: Blob::copy(alloc, b"a 4 in *\nb 4 in *\n")?,
        next: x,
    })
}
