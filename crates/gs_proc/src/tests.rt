// Child programs that are scripts of `sh`, and what they write.
ghost use Rattle.std.specs.Prelude.{◌≡◌, IfOk, IsSome};
ghost use Rattle.gs_proc.specs.ProcLink.{jobs_of};

use crate::ProcLink;
use crate::number::{number_of, without_line_feed};
use gs_site::{Event, Link};
use gs_types::{Arg, Blob, Job, NoMemory, Sequence, Text, Value};
use std::alloc::Global;
use std::fs;
use std::test::Fail;

fn file(alloc: Global, bytes: &[u8]) -> Result<Value, NoMemory> {
    Ok(Value::File {
        bytes: Blob::copy(alloc, bytes)?,
    })
}

fn text(alloc: Global, bytes: &[u8]) -> Result<Value, Fail> {
    Ok(Value::Str {
        s: Text::read(alloc, bytes)?,
    })
}

// Task `n` of worker 0: this program with this operation.
fn job(alloc: Global, n: u32, program: &str, op: &str, args: Sequence<Arg>) -> Result<Job, NoMemory>
    ensures { IfOk result (λ job. job.n ≡ n) }
{
    Ok(Job {
        n,
        worker: 0,
        program: Blob::copy(alloc, program.as_bytes())?,
        op: Blob::copy(alloc, op.as_bytes())?,
        args,
    })
}

fn one(alloc: Global, arg: Arg) -> Result<Sequence<Arg>, NoMemory> {
    let mut args = Sequence::new(alloc);
    args.push(arg)?;
    Ok(args)
}

// What one task gives that runs alone, and the count of failures after it.
fn run(rt: &HostRuntime, job: &Job) -> Result<(Option<Sequence<Value>>, u64), Fail> {
    let alloc = rt.alloc();
    let mut link = ProcLink::new(rt.clone()?, alloc);
    match link.start(alloc, job) {
        Ok(()) => {}
        Err(_) => return Ok((None, link.faults())),
    }
    match link.next(alloc)? {
        Event::Finished { outs, .. } => Ok((Some(outs), link.faults())),
        Event::Failed { .. } => Ok((None, link.faults())),
    }
}

// The ends of both tasks in flight.
fn two_ends(alloc: Global, link: &mut ProcLink<HostRuntime>) -> Result<(Event, Event), Fail>
    requires first { IsSome (jobs_of link.old 1) }
    requires second { IsSome (jobs_of link.old 2) }
{
    let first = link.next(alloc)?;
    let second = link.next(alloc)?;
    Ok((first, second))
}

// Both ends of two tasks that run side by side.
fn run_two(rt: &HostRuntime, one: &Job, other: &Job) -> Result<(Event, Event), Fail>
    requires one { one.now.n ≡ 1 }
    requires other { other.now.n ≡ 2 }
{
    let alloc = rt.alloc();
    let mut link = ProcLink::new(rt.clone()?, alloc);
    link.start(alloc, one)?;
    link.start(alloc, other)?;
    two_ends(alloc, &mut link)
}

fn is_number(event: &Event, task: u32, number: i64) -> bool {
    match event {
        Event::Finished { n, outs } => match outs.items() {
            [Value::Int { v }] => *n == task && *v == number,
            _ => false,
        },
        Event::Failed { .. } => false,
    }
}

#[test]
fn tells_the_end_that_comes_first(rt: HostRuntime) -> Result<(), Fail> {
    let alloc = rt.alloc();
    fs::write(&rt, "proc_slow.sh", "sleep 2\nprintf 10 > \"$1\"\n")?;
    fs::write(&rt, "proc_fast.sh", "printf 20 > \"$1\"\n")?;
    let slow = job(alloc, 1, "sh", "proc_slow.sh", one(alloc, Arg::OutInt)?)?;
    let fast = job(alloc, 2, "sh", "proc_fast.sh", one(alloc, Arg::OutInt)?)?;
    let (first, second) = run_two(&rt, &slow, &fast)?;
    assert!(rt; is_number(&first, 2, 20));
    assert!(rt; is_number(&second, 1, 10));
    Ok(())
}

#[test]
fn passes_words_and_takes_results(rt: HostRuntime) -> Result<(), Fail> {
    let alloc = rt.alloc();
    let script =
        "cat \"$1\" \"$2\" > \"$3\"\nprintf more >> \"$2\"\nprintf '%s\\n' \"$4\" > \"$5\"\nprintf '%s\\n' \"$6\" > \"$7\"\n";
    fs::write(&rt, "proc_words.sh", script)?;
    let mut args = one(
        alloc,
        Arg::Given {
            v: file(alloc, b"ab")?,
        },
    )?;
    args.push(Arg::Both {
        bytes: Blob::copy(alloc, b"c")?,
    })?;
    args.push(Arg::OutFile)?;
    args.push(Arg::Given {
        v: text(alloc, b"x  y")?,
    })?;
    args.push(Arg::OutStr)?;
    args.push(Arg::Given {
        v: Value::Int { v: -7 },
    })?;
    args.push(Arg::OutInt)?;
    let (outs, faults) = run(&rt, &job(alloc, 11, "sh", "proc_words.sh", args)?)?;
    assert_eq!(rt; faults, 0);
    let outs = outs.ok_or("the task failed")?;
    let good = match outs.items() {
        [
            Value::File { bytes: both },
            Value::File { bytes: out },
            Value::Str { s },
            Value::Int { v },
        ] => {
            both.bytes() == b"cmore".as_slice()
                && out.bytes() == b"abc".as_slice()
                && s.bytes() == b"x  y".as_slice()
                && *v == -7
        }
        _ => false,
    };
    assert!(rt; good);
    assert!(rt; !fs::exists(&rt, ".gs.stage/11.1")? && !fs::exists(&rt, ".gs.stage/11.7")?);
    Ok(())
}

#[test]
fn reads_nothing_and_prints_to_nobody(rt: HostRuntime) -> Result<(), Fail> {
    let alloc = rt.alloc();
    let script =
        "i=$(readlink /proc/$$/fd/0)\no=$(readlink /proc/$$/fd/1)\ne=$(readlink /proc/$$/fd/2)\nprintf '%s' \"$i $o $e $(wc -c) $(pwd)\" > \"$1\"\n";
    fs::write(&rt, "proc_streams.sh", script)?;
    let (outs, _) = run(
        &rt,
        &job(alloc, 12, "sh", "proc_streams.sh", one(alloc, Arg::OutStr)?)?,
    )?;
    let outs = outs.ok_or("the task failed")?;
    let good = match outs.items() {
        [Value::Str { s }] => s.bytes().starts_with(b"/dev/null /dev/null /dev/null 0 /"),
        _ => false,
    };
    assert!(rt; good);
    Ok(())
}

#[test]
fn leaves_the_place_of_a_given_number_alone(rt: HostRuntime) -> Result<(), Fail> {
    let alloc = rt.alloc();
    fs::write(&rt, "proc_count.sh", "printf \"$1\" > \"$2\"\n")?;
    fs::create_dir_all(&rt, ".gs.stage")?;
    fs::write(&rt, ".gs.stage/41.1", "other")?;
    let mut args = one(
        alloc,
        Arg::Given {
            v: Value::Int { v: 7 },
        },
    )?;
    args.push(Arg::OutInt)?;
    let (outs, faults) = run(&rt, &job(alloc, 41, "sh", "proc_count.sh", args)?)?;
    assert_eq!(rt; faults, 0);
    assert!(rt; outs.is_some());
    assert!(rt; fs::exists(&rt, ".gs.stage/41.1")? && !fs::exists(&rt, ".gs.stage/41.2")?);
    Ok(())
}

#[test]
fn fails_and_counts(rt: HostRuntime) -> Result<(), Fail> {
    let alloc = rt.alloc();
    fs::write(&rt, "proc_plus.sh", "printf +5 > \"$1\"\n")?;
    fs::write(&rt, "proc_absent.sh", ":\n")?;
    fs::write(&rt, "proc_status.sh", "printf 5 > \"$1\"\nexit 3\n")?;
    fs::write(&rt, "proc_signal.sh", "printf 5 > \"$1\"\nkill -9 $$\n")?;
    let cases = [
        ("sh", "proc_plus.sh"),
        ("sh", "proc_absent.sh"),
        ("sh", "proc_status.sh"),
        ("sh", "proc_signal.sh"),
        ("no_such_program", "proc_plus.sh"),
    ];
    for (program, op) in cases {
        let (outs, faults) = run(&rt, &job(alloc, 21, program, op, one(alloc, Arg::OutInt)?)?)?;
        assert!(rt; outs.is_none(), "{program} {op}");
        assert_eq!(rt; faults, 1, "{program} {op}");
    }
    Ok(())
}

#[test]
fn takes_no_stale_file(rt: HostRuntime) -> Result<(), Fail> {
    let alloc = rt.alloc();
    fs::write(&rt, "proc_nothing.sh", ":\n")?;
    fs::create_dir_all(&rt, ".gs.stage")?;
    fs::write(&rt, ".gs.stage/31.1", "5")?;
    let (outs, faults) = run(
        &rt,
        &job(alloc, 31, "sh", "proc_nothing.sh", one(alloc, Arg::OutInt)?)?,
    )?;
    assert!(rt; outs.is_none());
    assert_eq!(rt; faults, 1);
    Ok(())
}

#[test]
fn reads_numbers_and_lines(rt: HostRuntime) {
    let numbers = [
        ("0", Some(0)),
        ("-0\n", Some(0)),
        ("-17\n", Some(-17)),
        ("0000000000000000005", Some(5)),
        ("9223372036854775807", Some(i64::MAX)),
        ("-9223372036854775808", Some(i64::MIN)),
        ("9223372036854775808", None),
        ("00000000000000000005", None),
        ("5\n\n", None),
        ("+5", None),
        ("-", None),
        ("", None),
        ("\n", None),
        ("5 ", None),
        ("--5", None),
    ];
    for (line, number) in numbers {
        assert_eq!(rt; number_of(line.as_bytes()), number, "{line:?}");
    }
    for (bytes, line) in [
        ("a\n", "a"),
        ("a\n\n", "a\n"),
        ("\n", ""),
        ("", ""),
        ("a", "a"),
    ] {
        assert_eq!(rt;
            without_line_feed(bytes.as_bytes()),
            line.as_bytes(),
            "{bytes:?}"
        );
    }
}
