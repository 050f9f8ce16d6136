// The rows of worked examples.
use crate::desk::{IDL, LIST, PROGRAM, RUN, disk_of, name, reads, run, run_by, run_files, told};
use std::test::Fail;

#[test]
fn two_files_are_joined_into_a_third(rt: HostRuntime) -> Result<(), Fail> {
    let alloc = rt.alloc();
    let files: [(&[u8], &[u8]); 5] = [
        (b"k.idl", IDL),
        (b"p.c", PROGRAM),
        (b"w.txt", LIST),
        (b"A", b"a"),
        (b"B", b"b"),
    ];
    let made = run_files(&rt, alloc, &files)?;
    assert_eq!(rt; made.status, 0);
    assert!(rt; reads(&rt, &made.disk, b"C", b"ab"));
    assert!(rt; reads(&rt, &made.disk, b"A", b"a"));
    assert_eq!(rt; told(alloc, made.link.past())?.as_str(), "+1@0 -1 ");
    assert!(rt; made.err.bytes().is_empty());
    assert!(rt; made.out.bytes().is_empty());
    Ok(())
}

#[test]
fn a_file_that_is_not_there_is_a_fault_of_the_program(rt: HostRuntime) -> Result<(), Fail> {
    let alloc = rt.alloc();
    let program = b"main() {\n    GS_On();\n    join(\"A\", \"X\", \"C\");\n    GS_Off(0);\n}\n";
    let files: [(&[u8], &[u8]); 4] = [
        (b"k.idl", IDL),
        (b"p.c", program),
        (b"w.txt", LIST),
        (b"A", b"a"),
    ];
    let made = run_files(&rt, alloc, &files)?;
    assert_eq!(rt; made.status, 7);
    assert_eq!(rt;
        made.err.bytes(),
        b"gs: program fault: line 3: NoFile\n".as_slice()
    );
    assert_eq!(rt; made.disk.get(&name(&rt, b"C")), None);
    assert!(rt; made.link.past().is_empty());
    Ok(())
}

#[test]
fn a_lost_task_leaves_the_files_as_they_were(rt: HostRuntime) -> Result<(), Fail> {
    let alloc = rt.alloc();
    let files: [(&[u8], &[u8]); 5] = [
        (b"k.idl", IDL),
        (b"p.c", PROGRAM),
        (b"w.txt", LIST),
        (b"A", b"a"),
        (b"B", b"b"),
    ];
    let disk = disk_of(&rt, alloc, &files)?;
    let made = run_by(alloc, &RUN, disk, b"!!!")?;
    assert_eq!(rt; made.status, 9);
    assert_eq!(rt; made.err.bytes(), b"gs: task lost: 1\n".as_slice());
    assert_eq!(rt; made.disk.get(&name(&rt, b"C")), None);
    let history = "+1@0 !1 +1@0 !1 +1@0 !1 ";
    assert_eq!(rt; told(alloc, made.link.past())?.as_str(), history);
    Ok(())
}

#[test]
fn a_missing_word_and_a_missing_list_are_named(rt: HostRuntime) -> Result<(), Fail> {
    let alloc = rt.alloc();
    let empty = disk_of(&rt, alloc, &[])?;
    let short = run(
        alloc,
        &["run", "k.idl", "p.c"],
        empty,
        Vec::new(alloc),
        Vec::new(alloc),
    )?;
    assert_eq!(rt; short.status, 2);
    assert_eq!(rt; short.err.bytes(), b"gs: usage: word 3\n".as_slice());
    let files: [(&[u8], &[u8]); 2] = [(b"k.idl", IDL), (b"p.c", PROGRAM)];
    let absent = run_files(&rt, alloc, &files)?;
    assert_eq!(rt; absent.status, 3);
    assert_eq!(rt; absent.err.bytes(), b"gs: no text: w.txt\n".as_slice());
    Ok(())
}

#[test]
fn each_wrong_word_is_named_by_its_place(rt: HostRuntime) -> Result<(), Fail> {
    let alloc = rt.alloc();
    let none: [&str; 0] = [];
    let cases: [(&[&str], &[u8]); 7] = [
        (&none, b"gs: usage: word 0\n"),
        (&["walk", "k.idl", "p.c", "w.txt"], b"gs: usage: word 0\n"),
        (&["run", ".k", "p.c", "w.txt"], b"gs: usage: word 1\n"),
        (&["run", "k.idl", "p/c", "w.txt"], b"gs: usage: word 2\n"),
        (&["run", "k.idl", "p.c", ""], b"gs: usage: word 3\n"),
        (
            &["run", "k.idl", "p.c", "w.txt", "x"],
            b"gs: usage: word 4\n",
        ),
        (&["run"], b"gs: usage: word 1\n"),
    ];
    for (words, line) in cases {
        let disk = disk_of(&rt, alloc, &[])?;
        let made = run(alloc, words, disk, Vec::new(alloc), Vec::new(alloc))?;
        assert_eq!(rt; made.status, 2);
        assert_eq!(rt; made.err.bytes(), line);
    }
    Ok(())
}

#[test]
fn a_word_has_two_hundred_bytes_at_most(rt: HostRuntime) -> Result<(), Fail> {
    let alloc = rt.alloc();
    let ten = "abcdefghij";
    let mut long = String::new(alloc);
    for _ in 0..20 {
        long.push_str(ten)?;
    }
    let words = ["run", long.as_str(), "p.c", "w.txt"];
    let empty = disk_of(&rt, alloc, &[])?;
    let absent = run(alloc, &words, empty, Vec::new(alloc), Vec::new(alloc))?;
    assert_eq!(rt; absent.status, 3);
    assert_eq!(rt; absent.err.bytes().len(), 13 + 200 + 1);
    long.push_str("k")?;
    let words = ["run", long.as_str(), "p.c", "w.txt"];
    let empty = disk_of(&rt, alloc, &[])?;
    let wrong = run(alloc, &words, empty, Vec::new(alloc), Vec::new(alloc))?;
    assert_eq!(rt; wrong.status, 2);
    assert_eq!(rt; wrong.err.bytes(), b"gs: usage: word 1\n".as_slice());
    Ok(())
}
