// The words that a child program is called with.
ghost use Rattle.std.specs.Prelude.{◌≡◌, [], ◌∷◌, ◌++◌, IfOk, OnOk, string_bytes};
ghost use Rattle.std.specs.Process.{command_program, command_args};
ghost use Rattle.gs_proc.specs.Words.{stage_path, word_at, words_from, IsPlain};

use crate::stage::{path_of, put, remove};
use crate::trouble::Trouble;
use gs_types::{Arg, Job, Value};
use std::alloc::{AllocError, Global};
use std::process::{Command, Stdio};
use std::rt::Files;
use std::str;

// The bytes as a text. Bytes that are none are a failure.
fn text_of(bytes: &[u8]) -> Result<&str, Trouble>
    ensures { IfOk result (λ text. text.now ≡ bytes.now) }
{
    match str::from_utf8(bytes) {
        Ok(text) => Ok(text),
        Err(_) => Err(Trouble::Failed),
    }
}

// Writes the file of a place, and gives its name.
fn put_at<R: Files>(
    rt: &R,
    alloc: Global,
    n: u32,
    place: usize,
    bytes: &[u8],
) -> Result<String, Trouble>
    ensures { IfOk result (λ path. string_bytes path ≡ stage_path n place) }
{
    let path = path_of(alloc, n, place)?;
    put(rt, path.as_str(), bytes)?;
    Ok(path)
}

// Sees that no file stands at a place, and gives the name for one.
fn clear_at<R: Files>(rt: &R, alloc: Global, n: u32, place: usize) -> Result<String, Trouble>
    ensures { IfOk result (λ path. string_bytes path ≡ stage_path n place) }
{
    let path = path_of(alloc, n, place)?;
    remove(rt, path.as_str())?;
    Ok(path)
}

// The word of a place of task `n`. Where it names a file, that is written, or none stands there.
fn word_of<R: Files>(
    rt: &R,
    alloc: Global,
    n: u32,
    place: usize,
    arg: &Arg,
) -> Result<String, Trouble>
    ensures { IfOk result (λ word. string_bytes word ≡ word_at n place arg.now) }
{
    match arg {
        Arg::Given {
            v: Value::Int { v },
        } => Ok(format!(in alloc; "{v}")?),
        Arg::Given {
            v: Value::Str { s },
        } => Ok(String::from_str(alloc, text_of(s.bytes())?)?),
        Arg::Given {
            v: Value::File { bytes },
        }
        | Arg::Both { bytes } => { put_at(rt, alloc, n, place, bytes.bytes()) }
        Arg::OutFile | Arg::OutInt | Arg::OutStr => clear_at(rt, alloc, n, place),
    }
}

fn add_word(command: &mut Command, word: &str) -> Result<(), AllocError>
    ensures args { OnOk result (command_args command.new ≡ command_args command.old ++ word.now
        ∷ []) }
    ensures program { OnOk result (command_program command.new ≡ command_program command.old) }
    ensures place { IsPlain command.old → OnOk result (IsPlain command.new) }
{
    command.arg(word)?;
    Ok(())
}

/// The command of a job: its program with the operation's name and a word for each place. The files
/// that the words name are staged. Folder and environment are the master's own. What the child
/// reads is empty, and what it prints is dropped.
pub(crate) fn command_of<R: Files>(rt: &R, alloc: Global, job: &Job) -> Result<Command, Trouble>
    ensures program { IfOk result (λ command. command_program command ≡ job.now.program) }
    ensures args { IfOk result (λ command. command_args command ≡ job.now.op
        ∷ words_from job.now.n 1 job.now.args) }
    ensures plain { IfOk result IsPlain }
{
    let mut command = Command::new(alloc, text_of(job.program.bytes())?)?;
    add_word(&mut command, text_of(job.op.bytes())?)?;
    for (i, arg) in job.args.items().iter().enumerate() {
        let word = word_of(rt, alloc, job.n, i + 1, arg)?;
        add_word(&mut command, word.as_str())?;
    }
    command.stdin(Stdio::null());
    command.stdout(Stdio::null());
    command.stderr(Stdio::null());
    Ok(command)
}
