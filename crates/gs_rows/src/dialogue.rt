// Main programs with loops, prints, files of their own, and values of tasks.
use crate::desk::{LIST, Outcome, disk_of, reads, run, run_files};
use std::alloc::Global;
use std::process::Abort;
use std::test::Fail;

const KIT: &[u8] =
    b"interface KIT {\n    void join(in File a, in File b, out File c);\n    void grow(inout File f, in string s);\n    void count(in File f, out int n);\n};\n";

// Each file grows until it has more bytes than its number.
const STUDY: &[u8] = b"main() {
    int i;
    int n;
    char *s;
    FILE *f;
    GS_On();
    for (i = 1; i <= 3; i++) {
        sprintf(s, \"F%d\", i);
        grow(s, \"x\");
        count(s, &n);
        while (n < i + 1) {
            grow(s, \"y\");
            count(s, &n);
        }
        printf(\"%s %d\\n\", s, n);
    }
    f = GS_FOpen(\"LOG\", W);
    fprintf(f, \"done %d\\n\", i);
    GS_FClose(f);
    GS_Off(0);
}
";

// Runs a program over three empty files.
fn study(rt: &impl Abort, alloc: Global, program: &[u8]) -> Result<Outcome, Fail> {
    let files: [(&[u8], &[u8]); 6] = [
        (b"k.idl", KIT),
        (b"p.c", program),
        (b"w.txt", LIST),
        (b"F1", b""),
        (b"F2", b""),
        (b"F3", b""),
    ];
    run_files(rt, alloc, &files)
}

#[test]
fn a_study_leaves_its_files_and_prints(rt: HostRuntime) -> Result<(), Fail> {
    let alloc = rt.alloc();
    let made = study(&rt, alloc, STUDY)?;
    assert_eq!(rt; made.status, 0);
    assert!(rt; made.err.bytes().is_empty());
    assert!(rt; reads(&rt, &made.disk, b"F1", b"x\n"));
    assert!(rt; reads(&rt, &made.disk, b"F2", b"x\ny\n"));
    assert!(rt; reads(&rt, &made.disk, b"F3", b"x\ny\n"));
    assert!(rt; reads(&rt, &made.disk, b"LOG", b"done 4\n"));
    assert_eq!(rt; made.out.bytes(), b"F1 2\nF2 4\nF3 4\n".as_slice());
    // five calls of grow and five of count, each started and finished
    assert_eq!(rt; made.link.past().len(), 20);
    Ok(())
}

#[test]
fn a_program_reads_what_tasks_and_it_itself_wrote(rt: HostRuntime) -> Result<(), Fail> {
    let alloc = rt.alloc();
    let program = b"main() {
    int n;
    int r;
    char *s;
    FILE *f;
    GS_On();
    f = GS_FOpen(\"F1\", W);
    fprintf(f, \"7\\nlast\");
    GS_FClose(f);
    grow(\"F1\", \"!\");
    f = GS_FOpen(\"F1\", R);
    r = fgetline(f, s);
    n = atoi(s);
    while (r) {
        printf(\"[%s]\", s);
        r = fgetline(f, s);
    }
    GS_FClose(f);
    printf(\"%d\", n + 1);
    GS_Off(0);
}
";
    let made = study(&rt, alloc, program)?;
    assert!(rt; made.err.bytes().is_empty());
    assert_eq!(rt; made.status, 0);
    assert!(rt; reads(&rt, &made.disk, b"F1", b"7\nlast!\n"));
    assert_eq!(rt; made.out.bytes(), b"[7][last!]8".as_slice());
    Ok(())
}

#[test]
fn each_fault_of_a_program_has_its_line_and_leaves_the_files(rt: HostRuntime) -> Result<(), Fail> {
    let alloc = rt.alloc();
    let cases: [(&[u8], &[u8]); 6] = [
        (b"n = 1 / n;", b"gs: program fault: line 2: ZeroDivisor\n"),
        (
            b"n = 9223372036854775807;\nn++;",
            b"gs: program fault: line 3: Overflow\n",
        ),
        (
            b"grow(\"F/\", \"\");",
            b"gs: program fault: line 2: BadName\n",
        ),
        (
            b"grow(\"p.c\", \"\");",
            b"gs: program fault: line 2: OwnText\n",
        ),
        (
            b"grow(\"X\", \"\");",
            b"gs: program fault: line 2: NoFile\n",
        ),
        (
            b"f = GS_FOpen(\"F1\", W);",
            b"gs: program fault: line 2: StillOpen\n",
        ),
    ];
    for (statement, line) in cases {
        let mut program = Vec::new(alloc);
        program.extend_from_slice(b"main() { int n; FILE *f; GS_On(); grow(\"F1\", \"x\");\n")?;
        program.extend_from_slice(statement)?;
        program.extend_from_slice(b" GS_Off(0); }\n")?;
        let made = study(&rt, alloc, &program)?;
        assert_eq!(rt; made.err.bytes(), line);
        assert_eq!(rt; made.status, 7);
        assert!(rt; reads(&rt, &made.disk, b"F1", b""));
        assert!(rt; made.out.bytes().is_empty());
    }
    Ok(())
}

#[test]
fn a_run_takes_as_many_steps_as_it_is_given(rt: HostRuntime) -> Result<(), Fail> {
    let alloc = rt.alloc();
    let program = b"main() { int i; GS_On(); while (i < 3) { i = i + 1; } GS_Off(0); }";
    let files: [(&[u8], &[u8]); 3] = [(b"k.idl", KIT), (b"p.c", program), (b"w.txt", LIST)];
    let disk = disk_of(&rt, alloc, &files)?;
    let words = ["run", "k.idl", "p.c", "w.txt", "--fuel", "8"];
    let made = run(alloc, &words, disk, Vec::new(alloc), Vec::new(alloc))?;
    assert_eq!(rt; made.status, 8);
    assert_eq!(rt; made.err.bytes(), b"gs: fuel out: 8\n".as_slice());
    let disk = disk_of(&rt, alloc, &files)?;
    let words = ["run", "k.idl", "p.c", "w.txt", "--fuel", "9"];
    let made = run(alloc, &words, disk, Vec::new(alloc), Vec::new(alloc))?;
    assert_eq!(rt; made.status, 0);
    Ok(())
}
