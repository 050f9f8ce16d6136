// Near misses of the three texts, and long names.
use crate::desk::{IDL, LIST, PROGRAM, RUN, kit_disk, name, run_by, run_files};
use std::test::Fail;

fn replaced(
    text: &[u8],
    from: usize,
    to: usize,
    by: &[u8],
    into: &mut Vec<u8>,
) -> Result<(), Fail> {
    into.clear();
    if from <= to && to <= text.len() {
        into.extend_from_slice(&text[..from])?;
        into.extend_from_slice(by)?;
        into.extend_from_slice(&text[to..])?;
    }
    Ok(())
}

#[test]
fn a_near_miss_of_a_text_names_it(rt: HostRuntime) -> Result<(), Fail> {
    let alloc = rt.alloc();
    let mut text = Vec::new(alloc);
    // which text, and the bytes from one place to another that are put in place of its own
    let cases: [(u8, usize, usize, &[u8], &[u8]); 7] = [
        (0, 9, 10, b"", b"gs: bad text: k.idl:1: Unexpected\n"),
        (
            0,
            20,
            24,
            b"\r\nvoids",
            b"gs: bad text: k.idl:3: Unexpected\n",
        ),
        (1, 0, 4, b"mein", b"gs: bad text: p.c:1: Unexpected\n"),
        (1, 26, 30, b"/*\n*/move", b"gs: bad text: p.c:4: Unknown\n"),
        (1, 62, 63, b"", b"gs: bad text: p.c:6: Unexpected\n"),
        (2, 3, 4, b"0", b"gs: bad text: w.txt:1: BadSlots\n"),
        (2, 0, 12, b"\n# w1\n", b"gs: bad text: w.txt:0: Empty\n"),
    ];
    for (which, from, to, by, line) in cases {
        let whole = match which {
            0 => IDL,
            1 => PROGRAM,
            _ => LIST,
        };
        replaced(whole, from, to, by, &mut text)?;
        let idl = if which == 0 { text.as_slice() } else { IDL };
        let program = if which == 1 { text.as_slice() } else { PROGRAM };
        let list = if which == 2 { text.as_slice() } else { LIST };
        let files: [(&[u8], &[u8]); 5] = [
            (b"k.idl", idl),
            (b"p.c", program),
            (b"w.txt", list),
            (b"A", b"a"),
            (b"B", b"b"),
        ];
        let made = run_files(&rt, alloc, &files)?;
        assert_eq!(rt; made.status, 4);
        assert_eq!(rt; made.err.bytes(), line);
        assert_eq!(rt; made.disk.get(&name(&rt, b"C")), None);
    }
    Ok(())
}

#[test]
fn an_operation_that_is_called_has_a_worker(rt: HostRuntime) -> Result<(), Fail> {
    let alloc = rt.alloc();
    let program = b"main() { int n; GS_On(); count(\"A\", n); GS_Off(0); }";
    let disk = kit_disk(&rt, alloc, program, b"w1 1 ./kit join grow\n")?;
    let made = run_by(alloc, &RUN, disk, b"")?;
    assert_eq!(rt; made.status, 4);
    assert_eq!(rt;
        made.err.bytes(),
        b"gs: bad text: p.c:1: NoWorker\n".as_slice()
    );
    assert_eq!(rt; made.disk.get(&name(&rt, b".gs.on")), None);
    Ok(())
}

#[test]
fn an_output_may_not_be_a_text_of_the_run(rt: HostRuntime) -> Result<(), Fail> {
    let alloc = rt.alloc();
    let program =
        b"main() {\n    GS_On();\n    join(\"A\", \"B\", \"k.idl\");\n    GS_Off(0);\n}\n";
    let files: [(&[u8], &[u8]); 5] = [
        (b"k.idl", IDL),
        (b"p.c", program),
        (b"w.txt", b"w1 9 ./kit *"),
        (b"A", b"a"),
        (b"B", b"b"),
    ];
    let made = run_files(&rt, alloc, &files)?;
    assert_eq!(rt; made.status, 7);
    assert_eq!(rt;
        made.err.bytes(),
        b"gs: program fault: line 3: OwnText\n".as_slice()
    );
    Ok(())
}
