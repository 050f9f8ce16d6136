// A link in memory, and the law of the kit.
ghost use Rattle.std.specs.Prelude.{◌≡◌, IfOk, IsSome};
ghost use Rattle.gs_site.specs.Memory.{jobs_of};

use crate::{Event, KitLaw, Link, MemLink, Past, Turn};
use gs_types::{Arg, Blob, Job, Law, NoMemory, Sequence, Text, Value};
use std::alloc::Global;
use std::test::Fail;

fn file(alloc: Global, bytes: &[u8]) -> Result<Value, NoMemory> {
    Ok(Value::File {
        bytes: Blob::copy(alloc, bytes)?,
    })
}

fn text(alloc: Global, bytes: &[u8]) -> Result<Value, Fail> {
    Ok(Value::Str {
        s: Text::read(alloc, bytes)?,
    })
}

// Task `n` on worker 0, which is to join "a" and "b".
fn joining(alloc: Global, n: u32, out: Arg) -> Result<Job, NoMemory>
    ensures { IfOk result (λ job. job.n ≡ n) }
{
    let mut args = Sequence::new(alloc);
    args.push(Arg::Given {
        v: file(alloc, b"a")?,
    })?;
    args.push(out)?;
    args.push(Arg::Given {
        v: file(alloc, b"b")?,
    })?;
    Ok(Job {
        n,
        worker: 0,
        program: Blob::copy(alloc, b"kit")?,
        op: Blob::copy(alloc, b"join")?,
        args,
    })
}

// A link on which task 1 and then task 2 was started.
fn two_started(alloc: Global, script: &[Turn], second: Arg) -> Result<MemLink<KitLaw>, Fail>
    ensures first { IfOk result (λ l. IsSome (jobs_of l 1)) }
    ensures second { IfOk result (λ l. IsSome (jobs_of l 2)) }
{
    let mut link = MemLink::new(alloc, KitLaw, Vec::from_slice(alloc, script)?);
    link.start(alloc, &joining(alloc, 1, Arg::OutFile)?)?;
    link.start(alloc, &joining(alloc, 2, second)?)?;
    Ok(link)
}

// The ends of both tasks.
fn two_ends(alloc: Global, link: &mut MemLink<KitLaw>) -> Result<(Event, Event), Fail>
    requires first { IsSome (jobs_of link.old 1) }
    requires second { IsSome (jobs_of link.old 2) }
{
    let first = link.next(alloc)?;
    let second = link.next(alloc)?;
    Ok((first, second))
}

const STARTED: [Past; 2] = [
    Past::Started { n: 1, worker: 0 },
    Past::Started { n: 2, worker: 0 },
];

fn is_joined(event: &Event) -> bool {
    match event {
        Event::Finished { outs, .. } => match outs.items() {
            [Value::File { bytes }] => bytes.bytes() == b"ab".as_slice(),
            _ => false,
        },
        Event::Failed { .. } => false,
    }
}

#[test]
fn ends_the_second_job_first(rt: HostRuntime) -> Result<(), Fail> {
    let alloc = rt.alloc();
    let script = [Turn {
        pick: 3,
        well: true,
    }];
    let mut link = two_started(alloc, &script, Arg::OutFile)?;
    let (first, second) = two_ends(alloc, &mut link)?;
    assert!(rt; is_joined(&first) && is_joined(&second));
    let past = [
        STARTED[0],
        STARTED[1],
        Past::Finished { n: 2 },
        Past::Finished { n: 1 },
    ];
    assert_eq!(rt; link.past(), past.as_slice());
    assert_eq!(rt; link.events(), 4);
    Ok(())
}

#[test]
fn fails_at_a_turn_and_where_the_law_gives_nothing(rt: HostRuntime) -> Result<(), Fail> {
    let alloc = rt.alloc();
    let script = [Turn {
        pick: 0,
        well: false,
    }];
    let mut link = two_started(alloc, &script, Arg::OutInt)?;
    let (first, second) = two_ends(alloc, &mut link)?;
    assert!(rt; matches!(&first, Event::Failed { n: 1 }));
    assert!(rt; matches!(&second, Event::Failed { n: 2 }));
    let past = [
        STARTED[0],
        STARTED[1],
        Past::Failed { n: 1 },
        Past::Failed { n: 2 },
    ];
    assert_eq!(rt; link.past(), past.as_slice());
    Ok(())
}

#[test]
fn abandons_with_and_without_jobs(rt: HostRuntime) -> Result<(), Fail> {
    let alloc = rt.alloc();
    let mut link = two_started(alloc, &[], Arg::OutFile)?;
    link.abandon();
    link.abandon();
    let past = [STARTED[0], STARTED[1], Past::Abandoned];
    assert_eq!(rt; link.past(), past.as_slice());
    Ok(())
}

// What the law of the kit gives: no output, or this file or number.
fn gives(alloc: Global, op: &[u8], ins: &[Value]) -> Result<Option<Value>, Fail> {
    match KitLaw.apply(alloc, op, ins)? {
        Some(mut outs) if outs.len() == 1 => Ok(outs.pop()),
        Some(_) => Err(Fail::new("one output is wanted")),
        None => Ok(None),
    }
}

#[test]
fn joins_grows_counts_and_refuses(rt: HostRuntime) -> Result<(), Fail> {
    let alloc = rt.alloc();
    let two = [file(alloc, b"left ")?, file(alloc, b"right")?];
    let joined = gives(alloc, b"join", &two)?;
    assert!(rt;
        matches!(&joined, Some(Value::File { bytes }) if bytes.bytes() == b"left right".as_slice())
    );
    let more = [file(alloc, b"old\n")?, text(alloc, b"new")?];
    let grown = gives(alloc, b"grow", &more)?;
    assert!(rt;
        matches!(&grown, Some(Value::File { bytes }) if bytes.bytes() == b"old\nnew\n".as_slice())
    );
    let counted = gives(alloc, b"count", &two[..1])?;
    assert!(rt; matches!(&counted, Some(Value::Int { v: 5 })));
    for op in [b"count".as_slice(), b"grow".as_slice(), b"joins".as_slice()] {
        assert!(rt; gives(alloc, op, &two)?.is_none());
    }
    Ok(())
}
