// Copies of jobs, and what they take.
ghost use Rattle.std.specs.Prelude.{◌≡◌, [], ◌∷◌, ◌++◌, IfOk, OnOk};
ghost use Rattle.gs_types.specs.Job.{inputs};

use gs_types::{Arg, Blob, Job, NoMemory, Sequence, Value};
use std::alloc::Global;

fn copy_arg(alloc: Global, arg: &Arg) -> Result<Arg, NoMemory>
    ensures { IfOk result (λ a. a ≡ arg.now) }
{
    Ok(match arg {
        Arg::Given { v } => Arg::Given { v: v.copy(alloc)? },
        Arg::Both { bytes } => Arg::Both {
            bytes: Blob::copy(alloc, bytes.bytes())?,
        },
        Arg::OutFile => Arg::OutFile,
        Arg::OutInt => Arg::OutInt,
        Arg::OutStr => Arg::OutStr,
    })
}

fn copy_args(alloc: Global, args: &[Arg]) -> Result<Sequence<Arg>, NoMemory>
    ensures { IfOk result (λ copies. copies ≡ args.now) }
{
    let mut copies = Vec::new(alloc);
    for arg in args {
        let copy = copy_arg(alloc, arg)?;
        copies.push(copy)?;
    }
    Ok(Sequence::of(copies))
}

/// The same job again.
pub(crate) fn copy_job(alloc: Global, job: &Job) -> Result<Job, NoMemory>
    ensures { IfOk result (λ j. j ≡ job.now) }
{
    Ok(Job {
        n: job.n,
        worker: job.worker,
        program: Blob::copy(alloc, job.program.bytes())?,
        op: Blob::copy(alloc, job.op.bytes())?,
        args: copy_args(alloc, job.args.items())?,
    })
}

// Puts what stands at a place at the end, where it is an input.
fn put_input(alloc: Global, arg: &Arg, ins: &mut Vec<Value>) -> Result<(), NoMemory>
    ensures { OnOk result (ins.new.items ≡ ins.old.items ++ inputs (arg.now ∷ [])) }
{
    match arg {
        Arg::Given { v } => ins.push(v.copy(alloc)?)?,
        Arg::Both { bytes } => ins.push(Value::File {
            bytes: Blob::copy(alloc, bytes.bytes())?,
        })?,
        Arg::OutFile | Arg::OutInt | Arg::OutStr => {}
    }
    Ok(())
}

/// The values that a job takes, in order.
pub(crate) fn inputs_of(alloc: Global, args: &[Arg]) -> Result<Vec<Value>, NoMemory>
    ensures { IfOk result (λ ins. ins.items ≡ inputs args.now) }
{
    let mut ins = Vec::new(alloc);
    for arg in args {
        put_input(alloc, arg, &mut ins)?;
    }
    Ok(ins)
}
