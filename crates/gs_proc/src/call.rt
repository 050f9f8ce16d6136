// A job in flight, without what it holds.
ghost use Rattle.std.specs.Prelude.{◌≡◌, map, IfOk};
ghost use Rattle.gs_proc.specs.Places.{place_of};

use gs_types::{Arg, Job, NoMemory, Value};
use std::alloc::Global;
use std::marker::Model;
use std::snapshot::Snapshot;

/// What a place of a task has: a given value that is a word, a given file, or a file from which a
/// file, a number or a string is taken.
#[derive(Clone, Copy, Debug, PartialEq, Eq)]
pub(crate) enum Place {
    Word,
    Input,
    File,
    Int,
    Text,
}

/// A job's number and its places. Clauses see it as the job.
#[derive(Drop)]
pub(crate) struct Call {
    n: u32,
    places: Vec<Place>,
    job: Snapshot<Job>,
}

impl Model for Call {
    ghost use Rattle.std.specs.Prelude.{◌≡◌, map};
    ghost use Rattle.gs_types.specs.declared.job.Job.{Job};
    ghost use Rattle.gs_proc.specs.Places.{place_of};

    ghost Value = { Job };

    ghost view = { λ c. c.job.value };

    ghost invariant = { λ c. (c.n ≡ c.job.value.n)
        × (c.places.items ≡ map place_of c.job.value.args) };
}

fn place_of(arg: &Arg) -> Place
    ensures { result ≡ place_of arg.now }
{
    match arg {
        Arg::Given {
            v: Value::Int { .. } | Value::Str { .. },
        } => Place::Word,
        Arg::Given {
            v: Value::File { .. },
        } => Place::Input,
        Arg::Both { .. } | Arg::OutFile => Place::File,
        Arg::OutInt => Place::Int,
        Arg::OutStr => Place::Text,
    }
}

fn places_of(alloc: Global, args: &[Arg]) -> Result<Vec<Place>, NoMemory>
    ensures { IfOk result (λ places. places.items ≡ map place_of args.now) }
{
    Ok(args.iter().map(|arg| place_of(arg)).collect(alloc)?)
}

impl Call {
    pub(crate) fn of(alloc: Global, job: &Job) -> Result<Call, NoMemory>
        ensures { IfOk result (λ call. call ≡ job.now) }
    {
        let places = places_of(alloc, job.args.items())?;
        Ok(Call {
            n: job.n,
            places,
            job: Snapshot::of(job),
        })
    }

    /// The task's number, from 1.
    pub(crate) fn n(&self) -> u32
        ensures { result ≡ self.now.n }
    {
        self.n
    }

    /// What its places give.
    pub(crate) fn places(&self) -> &[Place]
        ensures { result.now ≡ map place_of self.now.args }
    {
        self.places.as_slice()
    }
}
