// Disks, links and sinks that fail.
use crate::desk::{IDL, LIST, PROGRAM, disk_of, name, run};
use gs_site::Turn;
use std::test::Fail;

const THREE: &[u8] =
    b"main() {\n    GS_On();\n    join(\"A\", \"B\", \"C\");\n    join(\"C\", \"A\", \"A\");\n    join(\"A\", \"C\", \"D\");\n    GS_Off(0);\n}\n";

#[test]
fn each_failing_call_of_the_disk_is_a_disk_fault(rt: HostRuntime) -> Result<(), Fail> {
    let alloc = rt.alloc();
    let files: [(&[u8], &[u8]); 5] = [
        (b"k.idl", IDL),
        (b"p.c", PROGRAM),
        (b"w.txt", LIST),
        (b"A", b"a"),
        (b"B", b"b"),
    ];
    let words = ["run", "k.idl", "p.c", "w.txt"];
    let whole = disk_of(&rt, alloc, &files)?;
    let done = run(alloc, &words, whole, Vec::new(alloc), Vec::new(alloc))?;
    assert_eq!(rt; done.status, 0);
    let calls = done.disk.calls();
    assert!(rt; calls < 100);
    for k in 0..calls {
        let mut disk = disk_of(&rt, alloc, &files)?;
        let mut failing = Vec::new(alloc);
        failing.push(k + 1)?;
        disk.fail_at(failing);
        let made = run(alloc, &words, disk, Vec::new(alloc), Vec::new(alloc))?;
        assert_eq!(rt; made.status, 10, "at call {k}");
        assert_eq!(rt; made.err.bytes(), b"gs: disk fault\n".as_slice());
        assert_eq!(rt; made.disk.get(&name(&rt, b"A")), Some(b"a".as_slice()));
    }
    Ok(())
}

#[test]
fn a_failing_line_changes_no_status(rt: HostRuntime) -> Result<(), Fail> {
    let alloc = rt.alloc();
    let disk = disk_of(&rt, alloc, &[])?;
    let mut failing = Vec::new(alloc);
    failing.push(1)?;
    let words = ["run", "k.idl", "p.c", "w.txt"];
    let made = run(alloc, &words, disk, Vec::new(alloc), failing)?;
    assert_eq!(rt; made.status, 3);
    assert!(rt; made.err.bytes().is_empty());
    Ok(())
}

#[test]
fn each_failing_turn_is_the_task_that_is_lost(rt: HostRuntime) -> Result<(), Fail> {
    let alloc = rt.alloc();
    let files: [(&[u8], &[u8]); 5] = [
        (b"k.idl", IDL),
        (b"p.c", THREE),
        (b"w.txt", LIST),
        (b"A", b"a"),
        (b"B", b"b"),
    ];
    let lines: [&[u8]; 3] = [
        b"gs: task lost: 1\n",
        b"gs: task lost: 2\n",
        b"gs: task lost: 3\n",
    ];
    let words = ["run", "k.idl", "p.c", "w.txt", "--tries", "1"];
    for (at, line) in lines.iter().enumerate() {
        let mut script = Vec::new(alloc);
        for turn in 0..3 {
            script.push(Turn {
                pick: 0,
                well: turn != at,
            })?;
        }
        let disk = disk_of(&rt, alloc, &files)?;
        let made = run(alloc, &words, disk, script, Vec::new(alloc))?;
        assert_eq!(rt; made.status, 9);
        assert_eq!(rt; made.err.bytes(), *line);
        assert_eq!(rt; made.link.past().len(), 2 * at + 2);
        assert_eq!(rt; made.disk.get(&name(&rt, b"A")), Some(b"a".as_slice()));
        assert_eq!(rt; made.disk.get(&name(&rt, b"C")), None);
        assert_eq!(rt; made.disk.get(&name(&rt, b"D")), None);
    }
    Ok(())
}
