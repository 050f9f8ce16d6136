// What each operation gives, case by case, and in which order a link ends its jobs.
ghost use Rattle.std.specs.Prelude.{◌≡◌, IfOk, IsSome};
ghost use Rattle.gs_filters.specs.Inside.{jobs_of};

use crate::{FilterLaw, InsideLink};
use gs_site::{Event, Link};
use gs_types::{Arg, Blob, FILE_LIMIT, Job, Law, NoMemory, STRING_LIMIT, Sequence, Text, Value};
use std::alloc::Global;
use std::test::Fail;

fn file(alloc: Global, bytes: &[u8]) -> Result<Value, NoMemory> {
    Ok(Value::File {
        bytes: Blob::copy(alloc, bytes)?,
    })
}

fn string(alloc: Global, text: &str) -> Result<Value, Fail> {
    Ok(Value::Str {
        s: Text::read(alloc, text.as_bytes())?,
    })
}

// What stands in a file that is the one output, a string's bytes, or a number's or two numbers'
// digits with a blank between.
fn shown(alloc: Global, outs: &[Value]) -> Result<Option<Vec<u8>>, Fail> {
    Ok(match outs {
        [Value::File { bytes }] => Some(Vec::from_slice(alloc, bytes.bytes())?),
        [Value::Str { s }] => Some(Vec::from_slice(alloc, s.bytes())?),
        [Value::Int { v }] => Some(format!(in alloc; "{v}")?.into_bytes()),
        [Value::Int { v: one }, Value::Int { v: other }] => {
            Some(format!(in alloc; "{one} {other}")?.into_bytes())
        }
        _ => None,
    })
}

fn gives(alloc: Global, op: &str, ins: &[Value], wanted: Option<&[u8]>) -> Result<bool, Fail> {
    match (FilterLaw.apply(alloc, op.as_bytes(), ins)?, wanted) {
        (Some(outs), Some(wanted)) => match shown(alloc, &outs)? {
            Some(bytes) => Ok(bytes.as_slice() == wanted),
            None => Ok(false),
        },
        (None, None) => Ok(true),
        _ => Ok(false),
    }
}

// An operation, a file, and what the operation gives of it.
const OF_FILE: [(&str, &str, Option<&str>); 40] = [
    ("copy", "", Some("")),
    ("copy", "a\r\0é", Some("a\r\0é")),
    ("sorted", "", Some("")),
    ("sorted", "b\na\nb", Some("a\nb\nb\n")),
    (
        "sorted",
        "ab\na\n\né\n\0\nA\r\n",
        Some("\n\0\nA\r\na\nab\né\n"),
    ),
    ("uniq", "", Some("")),
    ("uniq", "\n\na\na\r\na\na", Some("\na\na\r\na\n")),
    ("uniq", "é\né\n\0\n\0\n", Some("é\n\0\n")),
    ("reverse", "", Some("")),
    ("reverse", "a\n\nb\r\nc", Some("c\nb\r\n\na\n")),
    ("number", "", Some("")),
    ("number", "a\n\nc", Some("1\ta\n2\t\n3\tc\n")),
    ("sum", "", Some("0")),
    ("sum", "12\n-5\n", Some("7")),
    ("sum", "12\n-5", Some("7")),
    ("sum", "x\n", None),
    ("sum", "1\r\n", None),
    ("sum", "1\n\n", None),
    ("sum", "+1\n", None),
    ("sum", "0000000000000000001\n", Some("1")),
    ("sum", "00000000000000000001\n", None),
    ("sum", "9223372036854775807\n", Some("9223372036854775807")),
    ("sum", "9223372036854775808\n", None),
    (
        "sum",
        "-9223372036854775808\n",
        Some("-9223372036854775808"),
    ),
    ("sum", "-9223372036854775808\n-1\n1\n", None),
    ("sum", "9223372036854775807\n1\n-1\n", None),
    (
        "sum",
        "9223372036854775807\n-1\n1\n",
        Some("9223372036854775807"),
    ),
    ("count", "", Some("0 0")),
    ("count", "a\r\n\0é", Some("2 6")),
    ("count", "\n\n", Some("2 2")),
    ("first", "", Some("")),
    ("first", "\na", Some("")),
    ("first", "a\tb\r\nc", Some("a\tb\r")),
    ("first", "é\na", None),
    ("first", "a\0\n", None),
    (
        "digest",
        "",
        Some("e3b0c44298fc1c149afbf4c8996fb92427ae41e4649b934ca495991b7852b855"),
    ),
    (
        "digest",
        "abc",
        Some("ba7816bf8f01cfea414140de5dae2223b00361a396177a9cb410ff61f20015ad"),
    ),
    ("put", "a", None),
    ("join", "a", None),
    ("", "a", None),
];

#[test]
fn makes_a_file_or_values_of_a_file(rt: HostRuntime) -> Result<(), Fail> {
    let alloc = rt.alloc();
    for (op, text, wanted) in OF_FILE {
        let ins = [file(alloc, text.as_bytes())?];
        assert!(rt;
            gives(alloc, op, &ins, wanted.map(|text| text.as_bytes()))?,
            "{op} {text:?}"
        );
    }
    Ok(())
}

// An operation, a file, a number, and what the operation gives of both.
const OF_NUMBER: [(&str, &str, i64, Option<&str>); 16] = [
    ("head", "a\nb\nc", -1, None),
    ("head", "a\nb\nc", 0, Some("")),
    ("head", "a\nb\nc", 2, Some("a\nb\n")),
    ("head", "a\nb\nc", 3, Some("a\nb\nc\n")),
    ("head", "a\nb\nc", i64::MAX, Some("a\nb\nc\n")),
    ("tail", "a\nb\nc", i64::MIN, None),
    ("tail", "a\nb\nc", 0, Some("")),
    ("tail", "a\nb\nc", 2, Some("b\nc\n")),
    ("tail", "a\nb\nc\n", 3, Some("a\nb\nc\n")),
    ("tail", "", 4, Some("")),
    ("column", "a b\tc\n\n d \0é", 0, None),
    ("column", "a b\tc\n\n d \0é", 1, Some("a\n\nd\n")),
    ("column", "a b\tc\n\n d \0é", 2, Some("b\n\n\0é\n")),
    ("column", "a b\tc\n\n d \0é\r", 3, Some("c\n\n\n")),
    ("column", "a", i64::MAX, Some("\n")),
    ("copy", "a", 1, None),
];

#[test]
fn takes_lines_and_words_by_their_number(rt: HostRuntime) -> Result<(), Fail> {
    let alloc = rt.alloc();
    for (op, text, n, wanted) in OF_NUMBER {
        let ins = [file(alloc, text.as_bytes())?, Value::Int { v: n }];
        assert!(rt;
            gives(alloc, op, &ins, wanted.map(|text| text.as_bytes()))?,
            "{op} {n}"
        );
    }
    Ok(())
}

// What `split` gives, or none.
fn splits(alloc: Global, text: &str, n: i64) -> Result<Option<(Vec<u8>, Vec<u8>)>, Fail> {
    let ins = [file(alloc, text.as_bytes())?, Value::Int { v: n }];
    match FilterLaw.apply(alloc, b"split", &ins)? {
        Some(outs) => match outs.as_slice() {
            [Value::File { bytes: one }, Value::File { bytes: other }] => Ok(Some((
                Vec::from_slice(alloc, one.bytes())?,
                Vec::from_slice(alloc, other.bytes())?,
            ))),
            _ => Err(Fail::new("two files are wanted")),
        },
        None => Ok(None),
    }
}

#[test]
fn splits_behind_a_number_of_lines(rt: HostRuntime) -> Result<(), Fail> {
    let alloc = rt.alloc();
    let cases = [
        (0, "", "a\nb\nc\n"),
        (1, "a\n", "b\nc\n"),
        (3, "a\nb\nc\n", ""),
        (4, "a\nb\nc\n", ""),
    ];
    for (n, first, others) in cases {
        match splits(alloc, "a\nb\nc", n)? {
            Some((one, other)) => {
                assert_eq!(rt; one.as_slice(), first.as_bytes());
                assert_eq!(rt; other.as_slice(), others.as_bytes());
            }
            None => return Err(Fail::new("two files are wanted")),
        }
    }
    assert!(rt; splits(alloc, "a", -1)?.is_none());
    Ok(())
}

#[test]
fn takes_two_files_or_a_string(rt: HostRuntime) -> Result<(), Fail> {
    let alloc = rt.alloc();
    let files = [file(alloc, b"b\na")?, file(alloc, b"b\nc\n")?];
    assert!(rt; gives(alloc, "cat", &files, Some(b"b\nab\nc\n"))?);
    assert!(rt; gives(alloc, "append", &files, Some(b"b\nab\nc\n"))?);
    assert!(rt; gives(alloc, "merge", &files, Some(b"a\nb\nb\nc\n"))?);
    assert!(rt; gives(alloc, "sorted", &files, None)?);
    let start = [file(alloc, b"ab\nb\n\na\nba")?, string(alloc, "a")?];
    assert!(rt; gives(alloc, "starts", &start, Some(b"ab\na\n"))?);
    let every = [file(alloc, b"ab\n\n\xff")?, string(alloc, "")?];
    assert!(rt; gives(alloc, "starts", &every, Some(b"ab\n\n\xff\n"))?);
    assert!(rt; gives(alloc, "head", &every, None)?);
    let text = [string(alloc, "a\nb")?];
    assert!(rt; gives(alloc, "put", &text, Some(b"a\nb\n"))?);
    assert!(rt; gives(alloc, "copy", &text, None)?);
    assert!(rt; gives(alloc, "put", &[], None)?);
    Ok(())
}

// A line of this many letters, without its line feed.
fn letters(alloc: Global, n: usize) -> Result<Vec<u8>, NoMemory> {
    Ok(vec![in alloc; b'a'; n]?)
}

// What an operation gives of such a line: the line itself, or none.
fn keeps(alloc: Global, op: &str, n: usize) -> Result<bool, Fail> {
    let line = letters(alloc, n)?;
    gives(alloc, op, &[file(alloc, &line)?], Some(&line))
}

#[test]
fn outputs_past_a_limit_are_none(rt: HostRuntime) -> Result<(), Fail> {
    let alloc = rt.alloc();
    assert!(rt; keeps(alloc, "copy", FILE_LIMIT)?);
    assert!(rt; keeps(alloc, "first", STRING_LIMIT)?);
    let past = [file(alloc, &letters(alloc, STRING_LIMIT + 1)?)?];
    assert!(rt; gives(alloc, "first", &past, None)?);
    let largest = [file(alloc, &letters(alloc, FILE_LIMIT)?)?];
    assert!(rt; gives(alloc, "count", &largest, Some(b"1 16777216"))?);
    assert!(rt; gives(alloc, "sorted", &largest, None)?);
    Ok(())
}

// Task `n`: an operation on the file `b`, `a`.
fn job(alloc: Global, n: u32, op: &[u8], out: Arg) -> Result<Job, NoMemory>
    ensures { IfOk result (λ job. job.n ≡ n) }
{
    let mut args = Sequence::new(alloc);
    args.push(Arg::Given {
        v: file(alloc, b"b\na\n")?,
    })?;
    args.push(out)?;
    Ok(Job {
        n,
        worker: 0,
        program: Blob::copy(alloc, b"inside")?,
        op: Blob::copy(alloc, op)?,
        args,
    })
}

// A link on which task 2 and then task 1 was started, of which the second names no operation.
fn two_started(alloc: Global) -> Result<InsideLink, Fail>
    ensures first { IfOk result (λ l. IsSome (jobs_of l 2)) }
    ensures second { IfOk result (λ l. IsSome (jobs_of l 1)) }
{
    let mut link = InsideLink::new(alloc);
    link.start(alloc, &job(alloc, 2, b"sorted", Arg::OutFile)?)?;
    link.start(alloc, &job(alloc, 1, b"sort", Arg::OutFile)?)?;
    Ok(link)
}

// The ends of both tasks.
fn two_ends(alloc: Global, link: &mut InsideLink) -> Result<(Event, Event), Fail>
    requires first { IsSome (jobs_of link.old 2) }
    requires second { IsSome (jobs_of link.old 1) }
{
    let first = link.next(alloc)?;
    let second = link.next(alloc)?;
    Ok((first, second))
}

#[test]
fn ends_jobs_in_the_order_of_their_starts(rt: HostRuntime) -> Result<(), Fail> {
    let alloc = rt.alloc();
    let mut link = two_started(alloc)?;
    let (first, second) = two_ends(alloc, &mut link)?;
    let sorted = match &first {
        Event::Finished { n: 2, outs } => shown(alloc, outs.items())?,
        _ => None,
    };
    assert!(rt; sorted.is_some_and(|bytes| bytes.as_slice() == b"a\nb\n".as_slice()));
    assert!(rt; matches!(second, Event::Failed { n: 1 }));
    assert_eq!(rt; link.events(), 4);
    Ok(())
}
