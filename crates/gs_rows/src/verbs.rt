// The rows of reports, removals and plans, over the stores of whole runs.
use crate::desk::{Outcome, disk_of, name, run};
use std::alloc::Global;
use std::process::Abort;
use std::test::Fail;

const ROW_1: &[u8] =
    b"\x01\xcc\0\0\0\x01\x01\x05\0\0\0k.idl\x94\0\0\0interface KIT {\n    void join(in File a, \
        in File b, out File c);\n    void grow(inout File f, in string s);\n    void count(in Fi\
        le f, out int n);\n};\n\x03\0\0\0p.c\x1e\0\0\0main() { GS_On(); GS_Off(0); }\x01\x16\0\0\
        \0\x03\0\0\0\0\0\0\0\0\0\0\0\0\0\0\0\0\x01\0\0\0\x06\x01\x01\0\0\0\x04\0";

const ROW_5: &[u8] =
    b"\x01\x15\x01\0\0\x01\x01\x05\0\0\0k.idl\x94\0\0\0interface KIT {\n    void join(in File \
        a, in File b, out File c);\n    void grow(inout File f, in string s);\n    void count(in \
        File f, out int n);\n};\n\x03\0\0\0p.cg\0\0\0main() { int n; GS_On(); grow(\"F\", \"1\")\
        ; grow(\"F\", \"2\"); count(\"F\", n); printf(\"%d\\n\", n); GS_Off(0); }\x01\x11\0\0\0\
        \x02\x01\0\0\0\x01\x01\x01\x01\x02\0\0\0\0\0\0\0\x01\x11\0\0\0\x02\x02\0\0\0\x01\x01\x01\
        \x01\x04\0\0\0\0\0\0\0\x01\x11\0\0\0\x02\x03\0\0\0\x02\x01\x02\x02\x04\0\0\0\0\0\0\0\x01\
        o\0\0\0\x03\x01\0\0\0\x01\0\0\0F\x01\0\0\0\0\0\0\0\x01\x02\0\0\0\x01\x04\0\0\0\0\0\0\0\
        \x02\0\0\04\n\x01\0\0\0\x01\0\0\0n\x02\x04\0\0\0\0\0\0\0\x05\0\0\0\x01\x01\0\0\0\x01\x01\
        \0\0\0\0\x01\0\0\0\0\x01\x02\0\0\0\x01\x01\0\0\0\0\x01\0\0\0\0\x01\x03\0\0\0\x02\x01\0\0\
        \0\0\0\x07\x03\0\0\0\x02\x06\x01\x01\0\0\0\x04\0";

const ROW_7: &[u8] =
    b"\x01\xf6\0\0\0\x01\x01\x05\0\0\0k.idl\x94\0\0\0interface KIT {\n    void join(in File a, \
        in File b, out File c);\n    void grow(inout File f, in string s);\n    void count(in Fi\
        le f, out int n);\n};\n\x03\0\0\0p.cH\0\0\0main() { GS_On(); join(\"A\", \"B\", \"C\"); \
        join(\"B\", \"A\", \"C\"); GS_Off(0); }\x01\x11\0\0\0\x02\x02\0\0\0\0\x01\x03\x01\x02\0\
        \0\0\0\0\0\0\0";

const ROW_9: &[u8] =
    b"\x01\xe1\0\0\0\x01\x01\x05\0\0\0k.idl\x94\0\0\0interface KIT {\n    void join(in File a, \
        in File b, out File c);\n    void grow(inout File f, in string s);\n    void count(in Fi\
        le f, out int n);\n};\n\x03\0\0\0p.c3\0\0\0main() { GS_On(); join(\"A\", \"B\", \"C\"); \
        GS_Off(0); }\x01\x11\0\0\0\x02\x01\0\0\0\0\x01\x03\x01\x04\0\0\0\0\0\0\0\x01K\0\0\0\x03\
        \x03\0\0\0\x01\0\0\0A\x01\0\0\0B\x01\0\0\0C\x01\0\0\0\x02\0\0\0\x01\x01\0\0\0\x03\x04\0\
        \0\0\0\0\0\0\0\0\0\0\0\0\0\0\x02\0\0\0\x01\x01\0\0\0\0\x02\0\0\0\0\x01\0\0\0\x01\x02\0\0\
        \0\x06\0";

const ROW_19: &[u8] =
    b"\x01\x97\x01\0\0\x01\x01\x05\0\0\0k.idl\xa4\0\0\0interface STUDY {\n    void subst(in Fi\
        le cfg, in int v, out File job);\n    void simulate(in File job, out File res);\n    voi\
        d post(in File res, inout File all);\n};\n\x03\0\0\0p.c\xd9\0\0\0#include \"study.h\"\ni\
        nt main() {\n  int i;\n  GS_On();\n  for (i = 1; i <= 3; i++) {\n    subst(\"base.cfg\", \
        i, \"job.tmp\");\n    simulate(\"job.tmp\", \"res.tmp\");\n    post(\"res.tmp\", \"all.t\
        xt\");\n  }\n  GS_Off(0);\n  return 0;\n}\n\x01\x11\0\0\0\x02\x01\0\0\0\0\x01\x03\x01\
        \x07\0\0\0\0\0\0\0\x01\x11\0\0\0\x02\x02\0\0\0\x01\x01\x02\x01\x09\0\0\0\0\0\0\0\x01\x11\
        \0\0\0\x02\x03\0\0\0\x02\x01\x02\x01\x09\0\0\0\0\0\0\0\x01\x11\0\0\0\x02\x04\0\0\0\0\x01\
        \x03\x01\x07\0\0\0\0\0\0\0\x01\x11\0\0\0\x02\x05\0\0\0\x01\x01\x02\x01\x09\0\0\0\0\0\0\0\
        \x01\x11\0\0\0\x02\x06\0\0\0\x02\x01\x02\x01\x12\0\0\0\0\0\0\0\x01\x11\0\0\0\x02\x07\0\0\
        \0\0\x01\x03\x01\x07\0\0\0\0\0\0\0\x01\x11\0\0\0\x02\x08\0\0\0\x01\x01\x02\x01\x09\0\0\0\
        \0\0\0\0\x01\x11\0\0\0\x02\x09\0\0\0\x02\x01\x02\x01\x1b\0\0\0\0\0\0\0\x01#\x01\0\0\x03\
        \x04\0\0\0\x08\0\0\0base.cfg\x07\0\0\0job.tmp\x07\0\0\0res.tmp\x07\0\0\0all.txt\x03\0\0\
        \0\x01\0\0\0\x01\x07\0\0\0\x03\x07\0\0\0\0\0\0\0\x02\0\0\0\x01\x08\0\0\0\x02\x09\0\0\0\0\
        \0\0\0\x03\0\0\0\x01\x09\0\0\0\x02\x1b\0\0\0\0\0\0\0\0\0\0\0\x01\0\0\0\x01\0\0\0i\x02\
        \x04\0\0\0\0\0\0\0\n\0\0\0\x01\x01\0\0\0\0\x01\0\0\0\0\x01\x01\0\0\0\x01\x02\0\0\0\x01\
        \x01\x01\0\0\0\x01\x02\0\0\0\x01\x03\0\0\0\x02\x02\x02\0\0\0\x03\0\0\0\x01\x03\0\0\0\x01\
        \x04\0\0\0\0\x01\0\0\0\0\x01\x01\0\0\0\x01\x05\0\0\0\x01\x01\x01\0\0\0\x01\x02\0\0\0\x01\
        \x06\0\0\0\x02\x02\x02\0\0\0\x03\0\0\0\x01\x03\0\0\0\x01\x07\0\0\0\0\x01\0\0\0\0\x01\x01\
        \0\0\0\x01\x08\0\0\0\x01\x01\x01\0\0\0\x01\x02\0\0\0\x01\x09\0\0\0\x02\x02\x02\0\0\0\x03\
        \0\0\0\x01\x03\0\0\0\x06\x01\x01\0\0\0\x04\0";

const ROW_24: &[u8] =
    b"\x01\xe1\0\0\0\x01\x01\x05\0\0\0k.idl\x94\0\0\0interface KIT {\n    void join(in File a, \
        in File b, out File c);\n    void grow(inout File f, in string s);\n    void count(in Fi\
        le f, out int n);\n};\n\x03\0\0\0p.c3\0\0\0main() { GS_On(); join(\"A\", \"B\", \"C\"); \
        GS_Off(0); }\x01\x11\0\0\0\x02\x01\0\0\0\0\x01\x03\x01\x03\0\0\0\0\0\0\0\x01K\0\0\0\x03\
        \x03\0\0\0\x01\0\0\0A\x01\0\0\0B\x01\0\0\0C\x01\0\0\0\x02\0\0\0\x01\x01\0\0\0\x03\x03\0\
        \0\0\0\0\0\0\0\0\0\0\0\0\0\0\x02\0\0\0\x01\x01\0\0\0\0\x02\0\0\0\0\x01\0\0\0\x01\x02\0\0\
        \0\x06\x01\x01\0\0\0\x04\0";

// Serves these words over a folder with a store of this log and the files.
fn serve(
    rt: &impl Abort,
    alloc: Global,
    words: &[&str],
    log: &[u8],
    files: &[(&[u8], &[u8])],
) -> Result<Outcome, Fail> {
    let mut disk = disk_of(rt, alloc, files)?;
    assert!(*rt; disk.add(name(rt, b".gs.on"), b"").is_ok());
    assert!(*rt; disk.add(name(rt, b".gs.log"), log).is_ok());
    run(alloc, words, disk, Vec::new(alloc), Vec::new(alloc))
}

#[test]
fn a_closed_store_is_reported(rt: HostRuntime) -> Result<(), Fail> {
    let alloc = rt.alloc();
    let files: [(&[u8], &[u8]); 2] = [(b"C", b"abc"), (b".gs.o.1.3", b"abc")];
    let made = serve(&rt, alloc, &["report"], ROW_24, &files)?;
    let told = b"stage closed\nrun k.idl p.c\ndone 1 3:file:3\nfile C 3 \
        ba7816bf8f01cfea414140de5dae2223b00361a396177a9cb410ff61f20015ad\nactions 2\ntext 0\n";
    assert_eq!(rt; made.status, 0);
    assert_eq!(rt; made.out.bytes(), told.as_slice());
    assert!(rt; made.err.bytes().is_empty());
    assert!(rt; made.link.past().is_empty());
    Ok(())
}

#[test]
fn a_store_without_a_version_is_bad(rt: HostRuntime) -> Result<(), Fail> {
    let alloc = rt.alloc();
    let made = serve(&rt, alloc, &["report"], ROW_24, &[])?;
    assert_eq!(rt; made.status, 6);
    assert_eq!(rt;
        made.err.bytes(),
        b"gs: bad store: file .gs.o.1.3 kept 3 found none\n".as_slice()
    );
    let made = serve(&rt, alloc, &["report"], b"\x01\x03\0\0\0AB", &[])?;
    assert_eq!(rt; made.err.bytes(), b"gs: bad store: log at 0\n".as_slice());
    let made = serve(&rt, alloc, &["report"], b"\x01\x01\0\0\0\x05\0", &[])?;
    assert_eq!(rt; made.err.bytes(), b"gs: bad store: record 0\n".as_slice());
    Ok(())
}

#[test]
fn a_gated_store_is_not_removed(rt: HostRuntime) -> Result<(), Fail> {
    let alloc = rt.alloc();
    let files: [(&[u8], &[u8]); 2] = [(b"C", b"z"), (b".gs.o.1.3", b"aabb")];
    let made = serve(&rt, alloc, &["clean"], ROW_9, &files)?;
    assert_eq!(rt; made.status, 13);
    assert_eq!(rt; made.err.bytes(), b"gs: gated\n".as_slice());
    assert!(rt; made.disk.get(&name(&rt, b".gs.on")).is_some());
    assert!(rt; made.disk.get(&name(&rt, b".gs.log")) == Some(ROW_9));
    assert!(rt; made.disk.get(&name(&rt, b"C")) == Some(b"z".as_slice()));
    Ok(())
}

#[test]
fn a_closed_store_is_removed(rt: HostRuntime) -> Result<(), Fail> {
    let alloc = rt.alloc();
    let files: [(&[u8], &[u8]); 3] = [
        (b"F", b"1\n2\n"),
        (b".gs.o.1.1", b"1\n"),
        (b".gs.o.2.1", b"1\n2\n"),
    ];
    let made = serve(&rt, alloc, &["clean"], ROW_5, &files)?;
    assert_eq!(rt; made.status, 0);
    assert!(rt; made.out.bytes().is_empty());
    assert!(rt; made.err.bytes().is_empty());
    assert_eq!(rt; made.disk.get(&name(&rt, b".gs.on")), None);
    assert_eq!(rt; made.disk.get(&name(&rt, b".gs.log")), None);
    assert_eq!(rt; made.disk.get(&name(&rt, b".gs.o.1.1")), None);
    assert_eq!(rt; made.disk.get(&name(&rt, b".gs.o.2.1")), None);
    assert!(rt; made.disk.get(&name(&rt, b"F")) == Some(b"1\n2\n".as_slice()));
    let disk = disk_of(&rt, alloc, &[])?;
    let made = run(alloc, &["clean"], disk, Vec::new(alloc), Vec::new(alloc))?;
    assert_eq!(rt; made.status, 0);
    Ok(())
}

#[test]
fn the_study_is_planned_on_two_slots(rt: HostRuntime) -> Result<(), Fail> {
    let alloc = rt.alloc();
    let files: [(&[u8], &[u8]); 10] = [
        (b".gs.o.1.3", b"base 1\n"),
        (b".gs.o.2.2", b"r:base 1\n"),
        (b".gs.o.3.2", b"r:base 1\n"),
        (b".gs.o.4.3", b"base 2\n"),
        (b".gs.o.5.2", b"r:base 2\n"),
        (b".gs.o.6.2", b"r:base 1\nr:base 2\n"),
        (b".gs.o.7.3", b"base 3\n"),
        (b".gs.o.8.2", b"r:base 3\n"),
        (b".gs.o.9.2", b"r:base 1\nr:base 2\nr:base 3\n"),
        (b"d.txt", b"subst 1\nsimulate 4\npost 2\n"),
    ];
    let made = serve(&rt, alloc, &["plan", "2", "d.txt"], ROW_19, &files)?;
    let wanted = b"task 1 slot 0 start 0 end 1
task 2 slot 0 start 1 end 5
task 3 slot 0 start 5 end 7
task 4 slot 1 start 0 end 1
task 5 slot 1 start 1 end 5
task 6 slot 0 start 7 end 9
task 7 slot 1 start 5 end 6
task 8 slot 1 start 6 end 10
task 9 slot 0 start 10 end 12
end 12
work 21
chain 7 8 9
length 7
";
    assert_eq!(rt; made.status, 0);
    assert_eq!(rt; made.out.bytes(), wanted.as_slice());
    assert!(rt; made.err.bytes().is_empty());
    Ok(())
}

#[test]
fn tasks_that_follow_each_other_are_planned_on_one_slot(rt: HostRuntime) -> Result<(), Fail> {
    let alloc = rt.alloc();
    let files: [(&[u8], &[u8]); 3] = [
        (b".gs.o.1.1", b"1\n"),
        (b".gs.o.2.1", b"1\n2\n"),
        (b"d.txt", b""),
    ];
    let made = serve(&rt, alloc, &["plan", "3", "d.txt"], ROW_5, &files)?;
    let wanted = b"task 1 slot 0 start 0 end 1
task 2 slot 0 start 1 end 2
task 3 slot 0 start 2 end 3
end 3
work 3
chain 1 2 3
length 3
";
    assert_eq!(rt; made.status, 0);
    assert_eq!(rt; made.out.bytes(), wanted.as_slice());
    let empty: [(&[u8], &[u8]); 1] = [(b"d.txt", b"")];
    let made = serve(&rt, alloc, &["plan", "3", "d.txt"], ROW_1, &empty)?;
    assert_eq!(rt;
        made.out.bytes(),
        b"end 0\nwork 0\nchain\nlength 0\n".as_slice()
    );
    Ok(())
}

#[test]
fn a_run_that_goes_on_is_not_planned(rt: HostRuntime) -> Result<(), Fail> {
    let alloc = rt.alloc();
    let files: [(&[u8], &[u8]); 2] = [(b".gs.o.2.3", b"ba"), (b"d.txt", b"")];
    let made = serve(&rt, alloc, &["plan", "2", "d.txt"], ROW_7, &files)?;
    assert_eq!(rt; made.status, 15);
    assert_eq!(rt; made.err.bytes(), b"gs: no run\n".as_slice());
    let made = serve(&rt, alloc, &["plan", "2", "e.txt"], ROW_7, &files)?;
    assert_eq!(rt; made.status, 3);
    assert_eq!(rt; made.err.bytes(), b"gs: no text: e.txt\n".as_slice());
    Ok(())
}

#[test]
fn what_is_not_served_is_refused_at_its_word(rt: HostRuntime) -> Result<(), Fail> {
    let alloc = rt.alloc();
    let disk = disk_of(&rt, alloc, &[])?;
    let made = run(
        alloc,
        &["self", "0", "5"],
        disk,
        Vec::new(alloc),
        Vec::new(alloc),
    )?;
    assert_eq!(rt; made.status, 2);
    assert_eq!(rt; made.err.bytes(), b"gs: usage: word 0\n".as_slice());
    let disk = disk_of(&rt, alloc, &[])?;
    let words = ["run", "k.idl", "p.c", "w.txt", "--fuel", "0"];
    let made = run(alloc, &words, disk, Vec::new(alloc), Vec::new(alloc))?;
    assert_eq!(rt; made.status, 2);
    assert_eq!(rt; made.err.bytes(), b"gs: usage: word 5\n".as_slice());
    Ok(())
}
