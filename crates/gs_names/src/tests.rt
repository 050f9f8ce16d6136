// Names and their versions.
use crate::NameTable;
use gs_types::{Name, Version};
use std::test::Fail;

fn is_main(version: &Version, expected: u32) -> bool {
    matches!(version, Version::Main { k } if *k == expected)
}

// The version of the first name after the second was written often.
#[test]
fn a_version_stays_behind_a_million_writes(rt: HostRuntime) -> Result<(), Fail> {
    let a = Name::read(b"A")?;
    let b = Name::read(b"B")?;
    let mut table = NameTable::new(rt.alloc());
    let first = table.number(a.copy())?;
    let second = table.number(b.copy())?;
    assert_eq!(rt; first, 0);
    assert_eq!(rt; second, 1);
    table.reserve(1_000_001)?;
    table.write(&a, Version::Main { k: 1 });
    for _i in 0..1_000_000u32 {
        table.write(&b, Version::Main { k: 2 });
        assert!(rt; is_main(&table.current(&a), 1));
    }
    assert!(rt; is_main(&table.current(&b), 2));
    Ok(())
}

fn is_output(version: &Version, task: u32) -> bool {
    matches!(version, Version::Out { n, .. } if *n == task)
}

// `join("A", "B", "C"); join("B", "A", "C");`, and then the main program writes `A`, which was
// numbered first.
#[test]
fn finals_stand_in_the_order_of_first_writing(rt: HostRuntime) -> Result<(), Fail> {
    let a = Name::read(b"A")?;
    let c = Name::read(b"C")?;
    let mut table = NameTable::new(rt.alloc());
    let _ = table.number(a.copy())?;
    let number = table.number(c.copy())?;
    assert!(rt; *table.name(number) == c);
    assert_eq!(rt; table.number(a.copy())?, 0);
    assert_eq!(rt; table.count(), 2);
    assert!(rt; matches!(table.current(&c), Version::Original { .. }));
    table.reserve(3)?;
    table.write(&c, Version::Out { n: 1, place: 3 });
    table.write(&a, Version::Main { k: 1 });
    table.write(&c, Version::Out { n: 2, place: 3 });
    let finals = table.finals(rt.alloc())?;
    assert_eq!(rt; finals.len(), 2);
    assert!(rt; finals[0].0 == c && is_output(&finals[0].1, 2));
    assert!(rt; finals[1].0 == a && is_main(&finals[1].1, 1));
    Ok(())
}

// `grow("F", "1"); grow("F", "2"); count("F", n);`: the first call reads the user's own file, each
// later one what the one before wrote.
#[test]
fn a_call_reads_what_the_last_writer_gave(rt: HostRuntime) -> Result<(), Fail> {
    let f = Name::read(b"F")?;
    let mut table = NameTable::new(rt.alloc());
    assert_eq!(rt; table.number(f.copy())?, 0);
    table.reserve(2)?;
    assert!(rt; matches!(table.current(&f), Version::Original { .. }));
    table.write(&f, Version::Out { n: 1, place: 1 });
    assert!(rt; is_output(&table.current(&f), 1));
    table.write(&f, Version::Out { n: 2, place: 1 });
    assert!(rt; is_output(&table.current(&f), 2));
    let finals = table.finals(rt.alloc())?;
    assert_eq!(rt; finals.len(), 1);
    assert!(rt; finals[0].0 == f && is_output(&finals[0].1, 2));
    Ok(())
}

// `join("A", "B", "C"); grow("A", "x");`: both calls read the user's own `A`.
#[test]
fn a_call_reads_the_file_that_a_later_one_replaces(rt: HostRuntime) -> Result<(), Fail> {
    let a = Name::read(b"A")?;
    let c = Name::read(b"C")?;
    let mut table = NameTable::new(rt.alloc());
    let _ = table.number(a.copy())?;
    let _ = table.number(c.copy())?;
    table.reserve(2)?;
    assert!(rt; matches!(table.current(&a), Version::Original { .. }));
    table.write(&c, Version::Out { n: 1, place: 3 });
    assert!(rt; matches!(table.current(&a), Version::Original { .. }));
    table.write(&a, Version::Out { n: 2, place: 1 });
    assert!(rt; is_output(&table.current(&a), 2));
    assert!(rt; is_output(&table.current(&c), 1));
    Ok(())
}
