// What words say.
use crate::{Command, Usage, read};
use std::alloc::Global;
use std::test::Fail;

fn words(alloc: Global, line: &str) -> Result<Vec<String>, Fail> {
    let mut words = Vec::new(alloc);
    for word in line.split(' ') {
        words.push(String::from_str(alloc, word)?)?;
    }
    Ok(words)
}

// The fuel, the window and the tries of a run of `i` and `p`.
fn numbers(command: &Command) -> Option<(u64, u32, u32)> {
    match command {
        Command::Run {
            idl,
            program,
            settings,
            ..
        } => {
            if idl.bytes() == b"i".as_slice() && program.bytes() == b"p".as_slice() {
                return Some((settings.fuel, settings.window, settings.tries));
            }
            None
        }
        _ => None,
    }
}

fn says_run(alloc: Global, line: &str, wanted: (u64, u32, u32)) -> Result<bool, Fail> {
    match read(&words(alloc, line)?) {
        Ok(command) => Ok(numbers(&command) == Some(wanted)),
        Err(_) => Ok(false),
    }
}

fn stops_at(alloc: Global, line: &str, place: u32) -> Result<bool, Fail> {
    match read(&words(alloc, line)?) {
        Ok(_) => Ok(false),
        Err(usage) => Ok(usage == Usage { word: place }),
    }
}

#[test]
fn runs_take_options_in_any_order(rt: HostRuntime) -> Result<(), Fail> {
    let alloc = rt.alloc();
    let defaults = (10_000_000, 1_000, 3);
    assert!(rt; says_run(alloc, "run i p w", defaults)?);
    assert!(rt; says_run(alloc, "run i p w --fuel 8", (8, 1_000, 3))?);
    assert!(rt;
        says_run(
            alloc,
            "run i p w --tries 100 --window 1",
            (10_000_000, 1, 100)
        )?
    );
    let all = "run i p w --window 010000 --tries 1 --fuel 00000000001000000000";
    assert!(rt; says_run(alloc, all, (1_000_000_000, 10_000, 1))?);
    Ok(())
}

#[test]
fn words_stop_at_the_first_that_no_command_goes_on_with(rt: HostRuntime) -> Result<(), Fail> {
    let alloc = rt.alloc();
    let cases = [
        ("go", 0),
        ("run", 1),
        ("run k.idl p.c", 3),
        ("run k.idl p.c .w", 3),
        ("run k.idl p.c w.txt --fuel 0", 5),
        ("run k.idl p.c w.txt --fuel", 5),
        ("run k.idl p.c w.txt --fuel 1000000001", 5),
        ("run k.idl p.c w.txt --window 10001", 5),
        ("run k.idl p.c w.txt --tries +1", 5),
        ("run k.idl p.c w.txt --tries 000000000000000000001", 5),
        ("run k.idl p.c w.txt --slots 1", 4),
        ("run k.idl p.c w.txt --fuel 1 --fuel 1", 6),
        (
            "run k.idl p.c w.txt --fuel 1 --window 1 --tries 1 --fuel 1",
            10,
        ),
        ("check k.idl", 2),
        ("check k.idl p.c x", 3),
        ("report x", 1),
        ("clean x", 1),
        ("self 1 2001", 2),
        ("self 18446744073709551616 1", 1),
        ("self 1 5 5", 3),
        ("plan d", 1),
        ("plan 0 d", 1),
        ("plan 1025 d", 1),
        ("plan 2", 2),
        ("plan 2 .d", 2),
        ("plan 2 d --fuel", 3),
    ];
    for (line, place) in cases {
        assert!(rt; stops_at(alloc, line, place)?, "{line}");
    }
    assert!(rt; matches!(read(&Vec::new(alloc)), Err(Usage { word: 0 })));
    Ok(())
}

#[test]
fn the_other_verbs_are_read(rt: HostRuntime) -> Result<(), Fail> {
    let alloc = rt.alloc();
    assert!(rt; matches!(read(&words(alloc, "report")?), Ok(Command::Report)));
    assert!(rt; matches!(read(&words(alloc, "clean")?), Ok(Command::Clean)));
    let most = "self 18446744073709551615 2000";
    assert!(rt;
        matches!(
            read(&words(alloc, most)?),
            Ok(Command::SelfRun {
                seed: u64::MAX,
                n: 2_000
            })
        )
    );
    match read(&words(alloc, "plan 01024 -d")?) {
        Ok(Command::Plan { slots, durations }) => {
            assert_eq!(rt; slots, 1_024);
            assert_eq!(rt; durations.bytes(), b"-d".as_slice());
        }
        _ => assert!(rt; false),
    }
    let names = read(&words(alloc, "check -a --fuel")?);
    assert!(rt; matches!(names, Ok(Command::Check { .. })));
    Ok(())
}
