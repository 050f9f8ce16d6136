// Texts of the full grammars, in `run` and in `check`.
use crate::desk::{LIST, disk_of, name, reads, run, run_files, words_of};
use gs_run::gs;
use gs_site::{KitLaw, MemLink, Site};
use gs_types::MemSink;
use std::alloc::Global;
use std::process::Abort;
use std::test::Fail;

const KIT: &[u8] =
    b"interface KIT {\n    void join(in File a, in File b, out File c);\n    void grow(inout File f, in string s);\n    void count(in File f, out int n);\n};\n";

const SHORT: &[u8] = b"main(){int n;GS_On();if(n<1)count(\"F\",&n);GS_Off(0);}";

const PRINTED: &[u8] =
    b"main() {\n    int n;\n    GS_On();\n    if ((n < 1)) {\n        count(\"F\", &n);\n    }\n    GS_Off(0);\n}\n";

#[test]
fn a_run_reads_texts_by_their_grammars(rt: HostRuntime) -> Result<(), Fail> {
    let alloc = rt.alloc();
    let combination: &[u8] = b"interface K { void f(inout int n); };";
    let cases: [(&[u8], &[u8], &[u8]); 5] = [
        (
            KIT,
            b"/* joins */ int main(void) {  GS_On(); join((\"A\"), \"B\", // here\n\"C\"); GS_Off(0); return 0; }",
            b"",
        ),
        (
            KIT,
            b"main() { grow(\"A\", \"x\"); GS_On(); GS_Off(0); }",
            b"gs: bad text: p.c:1: Unexpected\n",
        ),
        (
            KIT,
            b"main() { int x; x = 9223372036854775808; GS_On(); GS_Off(0); }",
            b"gs: bad text: p.c:1: WideNumber\n",
        ),
        (combination, b"", b"gs: bad text: k.idl:1: BadCombination\n"),
        (
            KIT,
            b"main() {\nGS_On();\njoin(\"A\", \"B\"); GS_Off(0); }",
            b"gs: bad text: p.c:3: WrongCount\n",
        ),
    ];
    for (idl, program, line) in cases {
        let files: [(&[u8], &[u8]); 5] = [
            (b"k.idl", idl),
            (b"p.c", program),
            (b"w.txt", LIST),
            (b"A", b""),
            (b"B", b"xy"),
        ];
        let made = run_files(&rt, alloc, &files)?;
        assert_eq!(rt; made.err.bytes(), line);
        assert_eq!(rt; made.status, if line.is_empty() { 0 } else { 4 });
        assert_eq!(rt; reads(&rt, &made.disk, b"C", b"xy"), line.is_empty());
        assert!(rt; made.out.bytes().is_empty());
    }
    Ok(())
}

// Checks these files with an output that fails at the listed calls, and tells the status, the output and the line.
fn check(
    rt: &impl Abort,
    alloc: Global,
    files: &[(&[u8], &[u8])],
    failing: Vec<u64>,
) -> Result<(u8, MemSink, MemSink), Fail> {
    let disk = disk_of(rt, alloc, files)?;
    let words = words_of(alloc, &["check", "k.idl", "p.c"])?;
    let mut site = Site::new(disk, MemLink::new(alloc, KitLaw, Vec::new(alloc)));
    let mut out = MemSink::new(alloc, 1000, failing)?;
    let mut err = MemSink::new(alloc, 1000, Vec::new(alloc))?;
    let status = gs(alloc, &words, &mut site, &mut out, &mut err);
    Ok((status, out, err))
}

#[test]
fn a_check_prints_the_interface_and_the_program(rt: HostRuntime) -> Result<(), Fail> {
    let alloc = rt.alloc();
    let mut both = KIT.to_vec(alloc)?;
    both.extend_from_slice(PRINTED)?;
    let files: [(&[u8], &[u8]); 2] = [(b"k.idl", KIT), (b"p.c", SHORT)];
    let (status, out, err) = check(&rt, alloc, &files, Vec::new(alloc))?;
    assert_eq!(rt; status, 0);
    assert_eq!(rt; out.bytes(), both.as_slice());
    assert!(rt; err.bytes().is_empty());
    let mut first = Vec::new(alloc);
    first.push(1)?;
    let (status, out, err) = check(&rt, alloc, &files, first)?;
    assert_eq!(rt; status, 11);
    assert!(rt; out.bytes().is_empty());
    assert_eq!(rt; err.bytes(), b"gs: sink fault\n".as_slice());
    Ok(())
}

// A check of these files ends with this status and line, and writes nothing.
fn refuses(
    rt: &impl Abort,
    alloc: Global,
    files: &[(&[u8], &[u8])],
    wanted: u8,
    line: &[u8],
) -> Result<(), Fail> {
    let (status, out, err) = check(rt, alloc, files, Vec::new(alloc))?;
    assert_eq!(*rt; status, wanted);
    assert_eq!(*rt; err.bytes(), line);
    assert!(*rt; out.bytes().is_empty());
    Ok(())
}

#[test]
fn a_check_names_the_first_text_that_is_absent_too_long_or_wrong(
    rt: HostRuntime,
) -> Result<(), Fail> {
    let alloc = rt.alloc();
    let mut long = Vec::new(alloc);
    for _ in 0..65_537 {
        long.push(b' ')?;
    }
    let long = long.as_slice();
    refuses(&rt, alloc, &[(b"p.c", b"")], 3, b"gs: no text: k.idl\n")?;
    refuses(&rt, alloc, &[(b"k.idl", b"")], 3, b"gs: no text: p.c\n")?;
    refuses(
        &rt,
        alloc,
        &[(b"k.idl", long)],
        4,
        b"gs: bad text: k.idl:0: TooLong\n",
    )?;
    refuses(
        &rt,
        alloc,
        &[(b"k.idl", b""), (b"p.c", long)],
        4,
        b"gs: bad text: p.c:0: TooLong\n",
    )?;
    refuses(
        &rt,
        alloc,
        &[(b"k.idl", b"\n\n"), (b"p.c", b"")],
        4,
        b"gs: bad text: k.idl:3: Unexpected\n",
    )?;
    Ok(())
}

#[test]
fn a_check_that_the_disk_fails_is_a_disk_fault(rt: HostRuntime) -> Result<(), Fail> {
    let alloc = rt.alloc();
    let files: [(&[u8], &[u8]); 2] = [(b"k.idl", KIT), (b"p.c", SHORT)];
    let words = ["check", "k.idl", "p.c"];
    let whole = disk_of(&rt, alloc, &files)?;
    let calls = run(alloc, &words, whole, Vec::new(alloc), Vec::new(alloc))?
        .disk
        .calls();
    assert!(rt; calls < 50);
    for k in 0..calls {
        let mut disk = disk_of(&rt, alloc, &files)?;
        let mut failing = Vec::new(alloc);
        failing.push(k + 1)?;
        disk.fail_at(failing);
        let made = run(alloc, &words, disk, Vec::new(alloc), Vec::new(alloc))?;
        assert_eq!(rt; made.status, 10, "at call {k}");
        assert!(rt; made.out.bytes().is_empty());
        assert_eq!(rt; made.disk.get(&name(&rt, b"p.c")), Some(SHORT));
    }
    Ok(())
}
