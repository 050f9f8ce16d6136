// Worked rows over built-in operations.
use crate::inside::gs_inside;
use gs_disk::{DiskName, MemDisk, is_disk_name};
use gs_filters::InsideLink;
use gs_site::{Link, Site};
use gs_types::MemSink;
use std::alloc::Global;
use std::process::Abort;
use std::test::Fail;

const IDL: &[u8] = b"interface TEXT {\n\
    void sorted(in File a, out File b);\n\
    void uniq(in File a, out File b);\n\
    void count(in File a, out int lines, out int bytes);\n\
    void sum(in File a, out int n);\n\
};\n";

const SORT: &[u8] = b"main() { int lines; int bytes; GS_On();\n\
    sorted(\"A\", \"S\"); uniq(\"S\", \"U\"); count(\"U\", lines, bytes);\n\
    printf(\"%d %d\\n\", lines, bytes); GS_Off(0); }\n";

const SUM: &[u8] = b"main() { int n; GS_On(); sum(\"A\", n); printf(\"%d\\n\", n); GS_Off(0); }\n";

// What a run left: its status, its line, its output, its disk, and the number of the link's events.
#[derive(Drop)]
struct Outcome {
    status: u8,
    err: MemSink,
    out: MemSink,
    disk: MemDisk,
    events: u64,
}

fn name(rt: &impl Abort, bytes: &[u8]) -> DiskName {
    assert!(*rt; is_disk_name(bytes));
    DiskName::of(bytes)
}

// Runs a program over the file A.
fn ran(rt: &impl Abort, alloc: Global, program: &[u8], bytes: &[u8]) -> Result<Outcome, Fail> {
    let mut disk = MemDisk::new(alloc);
    assert!(*rt; disk.add(name(rt, b"k.idl"), IDL).is_ok());
    assert!(*rt; disk.add(name(rt, b"p.c"), program).is_ok());
    assert!(*rt; disk.add(name(rt, b"w.txt"), b"w1 1 inside *\n").is_ok());
    assert!(*rt; disk.add(name(rt, b"A"), bytes).is_ok());
    let mut words = Vec::new(alloc);
    for word in ["run", "k.idl", "p.c", "w.txt"] {
        words.push(String::from_str(alloc, word)?)?;
    }
    let mut site = Site::new(disk, InsideLink::new(alloc));
    let mut out = MemSink::new(alloc, 1000, Vec::new(alloc))?;
    let mut err = MemSink::new(alloc, 1000, Vec::new(alloc))?;
    let status = gs_inside(alloc, &words, &mut site, &mut out, &mut err);
    let (disk, link) = site.take_apart();
    Ok(Outcome {
        status,
        err,
        out,
        disk,
        events: link.events(),
    })
}

// A file of the disk is present and reads like this.
fn reads(rt: &impl Abort, disk: &MemDisk, file: &[u8], bytes: &[u8]) -> bool {
    let file = name(rt, file);
    match disk.get(&file) {
        Some(found) => found == bytes,
        None => false,
    }
}

#[test]
fn sorts_drops_repeats_and_counts(rt: HostRuntime) -> Result<(), Fail> {
    let alloc = rt.alloc();
    let made = ran(&rt, alloc, SORT, b"b\na\nb")?;
    assert_eq!(rt; made.status, 0);
    assert_eq!(rt; made.out.bytes(), b"2 4\n".as_slice());
    assert!(rt; made.err.bytes().is_empty());
    assert!(rt; reads(&rt, &made.disk, b"S", b"a\nb\nb\n"));
    assert!(rt; reads(&rt, &made.disk, b"U", b"a\nb\n"));
    assert_eq!(rt; made.events, 6);
    Ok(())
}

#[test]
fn sums_lines_or_loses_the_task(rt: HostRuntime) -> Result<(), Fail> {
    let alloc = rt.alloc();
    let made = ran(&rt, alloc, SUM, b"12\n-5\n")?;
    assert_eq!(rt; made.status, 0);
    assert_eq!(rt; made.out.bytes(), b"7\n".as_slice());
    let lost = ran(&rt, alloc, SUM, b"x\n")?;
    assert_eq!(rt; lost.status, 9);
    assert_eq!(rt; lost.err.bytes(), b"gs: task lost: 1\n".as_slice());
    assert!(rt; lost.out.bytes().is_empty());
    // three starts, and a failure of each
    assert_eq!(rt; lost.events, 6);
    Ok(())
}
