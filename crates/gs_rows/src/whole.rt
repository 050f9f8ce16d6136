// Whole runs of one-line programs over the kit: status, line, text and files.
use crate::desk::{LIST, Outcome, reads, run_files};
use std::alloc::Global;
use std::process::Abort;
use std::test::Fail;

const KIT: &[u8] = b"interface KIT {
    void join(in File a, in File b, out File c);
    void grow(inout File f, in string s);
    void count(in File f, out int n);
    void two(out File a, out File b);
};
";

// Runs `main() { .. GS_Off(0); }` over `A` as `a`, `B` as `b`, and `F` empty.
fn run_kit(rt: &impl Abort, alloc: Global, statements: &[u8]) -> Result<Outcome, Fail> {
    let mut program = Vec::new(alloc);
    program.extend_from_slice(b"main() { ")?;
    program.extend_from_slice(statements)?;
    program.extend_from_slice(b" GS_Off(0); }")?;
    let files: [(&[u8], &[u8]); 6] = [
        (b"k.idl", KIT),
        (b"p.c", &program),
        (b"w.txt", LIST),
        (b"A", b"a"),
        (b"B", b"b"),
        (b"F", b""),
    ];
    run_files(rt, alloc, &files)
}

// Each program with its text, and a file with what it reads afterwards.
#[test]
fn programs_leave_files_and_text(rt: HostRuntime) -> Result<(), Fail> {
    let cases: [(&[u8], &[u8], &[u8], &[u8]); 7] = [
        (
            b"GS_On(); join(\"A\", \"B\", \"C\"); grow(\"A\", \"x\");",
            b"",
            b"A",
            b"ax\n",
        ),
        (
            b"GS_On(); join(\"A\", \"B\", \"C\"); grow(\"A\", \"x\");",
            b"",
            b"C",
            b"ab",
        ),
        (
            b"GS_On(); join(\"A\", \"B\", \"C\"); join(\"B\", \"A\", \"C\");",
            b"",
            b"C",
            b"ba",
        ),
        (
            b"int n; GS_On(); grow(\"F\", \"1\"); grow(\"F\", \"2\"); count(\"F\", n); printf(\"%d\\n\", n);",
            b"4\n",
            b"F",
            b"1\n2\n",
        ),
        (
            b"FILE *f; int n; GS_On(); f = GS_FOpen(\"Q\", A); fprintf(f, \"%d\\n\", 7); GS_FClose(f); count(\"Q\", n); printf(\"%d\", n);",
            b"2",
            b"Q",
            b"7\n",
        ),
        (b"GS_On(); join(\"A\", \"A\", \"A\");", b"", b"A", b"aa"),
        (
            b"int n; GS_On(); count(\"A\", n); n = 3; printf(\"%d\", n);",
            b"3",
            b"A",
            b"a",
        ),
    ];
    for (statements, text, file, bytes) in cases {
        let made = run_kit(&rt, rt.alloc(), statements)?;
        assert_eq!(rt; made.status, 0);
        assert_eq!(rt; made.out.bytes(), text);
        assert!(rt; made.err.bytes().is_empty());
        assert!(rt; reads(&rt, &made.disk, file, bytes));
    }
    Ok(())
}

#[test]
fn programs_that_go_wrong_leave_the_files(rt: HostRuntime) -> Result<(), Fail> {
    let cases: [(&[u8], &[u8]); 5] = [
        (
            b"int x; int y; x = -9223372036854775807 - 1; y = x / -1; GS_On();",
            b"gs: program fault: line 1: Overflow\n",
        ),
        (
            b"FILE *f; int n; GS_On(); f = GS_FOpen(\"Q\", W); count(\"Q\", n); GS_FClose(f);",
            b"gs: program fault: line 1: FileOpen\n",
        ),
        (
            b"GS_On(); two(\"X\", \"X\");",
            b"gs: program fault: line 1: SameOut\n",
        ),
        (
            b"GS_On(); grow(\"A\", \"x\"); join(\"A\", \"Missing\", \"C\");",
            b"gs: program fault: line 1: NoFile\n",
        ),
        (
            b"GS_On(); grow(\"A\", \"x\"); grow(\"k.idl\", \"x\");",
            b"gs: program fault: line 1: OwnText\n",
        ),
    ];
    for (statements, line) in cases {
        let made = run_kit(&rt, rt.alloc(), statements)?;
        assert_eq!(rt; made.status, 7);
        assert_eq!(rt; made.err.bytes(), line);
        assert!(rt; made.out.bytes().is_empty());
        assert!(rt; reads(&rt, &made.disk, b"A", b"a"));
    }
    Ok(())
}
