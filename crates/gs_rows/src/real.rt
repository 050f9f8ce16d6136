// Runs over the real folder that the test runs in, with real programs.
use crate::desk::{IDL, PROGRAM, RUN, words_of};
use gs_folder::Folder;
use gs_proc::ProcLink;
use gs_run::gs;
use gs_site::Site;
use gs_types::MemSink;
use std::fs;
use std::test::Fail;

/// What a case sets up besides the texts, and what it must give.
#[derive(Clone, Copy)]
struct Case<'a> {
    list: &'a [u8],
    script: &'a [u8],
    status: u8,
    line: &'a [u8],
    made: Option<&'a [u8]>,
}

const LOST: &[u8] = b"gs: task lost: 1\n";

fn cases() -> [Case<'static>; 5] {
    [
        Case {
            list: b"w1 2 sh *\n",
            script: b"cat \"$1\" \"$2\" > \"$3\"\n",
            status: 0,
            line: b"",
            made: Some(b"xyz"),
        },
        Case {
            list: b"w1 2 sh *\n",
            script: b"exit 1\n",
            status: 9,
            line: LOST,
            made: None,
        },
        Case {
            list: b"w1 2 sh *\n",
            script: b"exit 0\n",
            status: 9,
            line: LOST,
            made: None,
        },
        Case {
            list: b"w1 2 ./absent *\n",
            script: b"",
            status: 9,
            line: LOST,
            made: None,
        },
        Case {
            list: b"w1 2 sh\n",
            script: b"",
            status: 4,
            line: b"gs: bad text: w.txt:1: BadLine\n",
            made: None,
        },
    ]
}

// Serves words over the folder that the test runs in: the status, and both outputs.
fn serve(rt: &HostRuntime, words: &[&str]) -> Result<(u8, MemSink, MemSink), Fail> {
    let alloc = rt.alloc();
    let words = words_of(alloc, words)?;
    let mut site = Site::new(Folder::here(rt, alloc), ProcLink::new(rt, alloc));
    let mut out = MemSink::new(alloc, 1000, Vec::new(alloc))?;
    let mut err = MemSink::new(alloc, 1000, Vec::new(alloc))?;
    let status = gs(alloc, &words, &mut site, &mut out, &mut err);
    Ok((status, out, err))
}

const MEET: &[u8] = b": > \"flags/$1\"
i=0
while [ $i -lt 1000000 ]; do
    [ -e \"flags/$2\" ] && { echo met > \"$3\"; exit 0; }
    i=$((i + 1))
done
exit 1
";

// Whether two children end well, each of which waits for what the other one makes.
fn both_meet(rt: &HostRuntime) -> Result<bool, Fail> {
    let idl = b"interface M { void meet(in string me, in string you, out File c); };";
    let program =
        b"main() { GS_On(); meet(\"a\", \"b\", \"X\"); meet(\"b\", \"a\", \"Y\"); GS_Off(0); }";
    fs::write(rt, "m.idl", idl.as_slice())?;
    fs::write(rt, "m.c", program.as_slice())?;
    fs::write(rt, "m.txt", b"w1 2 sh *\n".as_slice())?;
    fs::write(rt, "meet", MEET)?;
    fs::create_dir(rt, "flags")?;
    let (status, _out, _err) = serve(rt, &["run", "m.idl", "m.c", "m.txt", "--tries", "1"])?;
    if status != 0 {
        return Ok(false);
    }
    let first = fs::read(rt, "X")?;
    let then = fs::read(rt, "Y")?;
    let (cleaned, _out, _err) = serve(rt, &["clean"])?;
    for name in [
        "m.idl", "m.c", "m.txt", "meet", "X", "Y", "flags/a", "flags/b",
    ] {
        fs::remove_file(rt, name)?;
    }
    fs::remove_dir(rt, "flags")?;
    Ok(
        cleaned == 0
            && first.as_slice() == b"met\n".as_slice()
            && then.as_slice() == b"met\n".as_slice(),
    )
}

#[test]
fn real_programs_run_at_once_and_make_files_only_where_all_ends_well(
    rt: HostRuntime,
) -> Result<(), Fail> {
    fs::write(&rt, "k.idl", IDL)?;
    fs::write(&rt, "p.c", PROGRAM)?;
    fs::write(&rt, "A", b"x".as_slice())?;
    fs::write(&rt, "B", b"yz".as_slice())?;
    for case in cases() {
        fs::write(&rt, "w.txt", case.list)?;
        fs::write(&rt, "join", case.script)?;
        let (status, _out, err) = serve(&rt, &RUN)?;
        assert_eq!(rt; status, case.status);
        assert_eq!(rt; err.bytes(), case.line);
        match fs::read(&rt, "C") {
            Ok(bytes) => {
                assert_eq!(rt; case.made, Some(bytes.as_slice()));
                fs::remove_file(&rt, "C")?;
            }
            Err(_) => assert!(rt; case.made.is_none()),
        }
        let (status, _out, _err) = serve(&rt, &["clean"])?;
        assert_eq!(rt; status, 0);
    }
    for name in ["k.idl", "p.c", "w.txt", "join", "A", "B"] {
        fs::remove_file(&rt, name)?;
    }
    assert!(rt; both_meet(&rt)?);
    Ok(())
}
