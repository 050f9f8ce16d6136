// Limits of text, files, handles, tasks, names and actions: each at its last number, and one more.
use crate::desk::{ended, is_end, is_fault};
use gs_types::FaultKind;
use std::test::Fail;

#[test]
fn what_passes_a_limit_of_bytes_or_handles_is_a_fault(rt: HostRuntime) -> Result<(), Fail> {
    let cases: [(&[u8], u32, FaultKind); 6] = [
        (
            b"s = \"0123456789abcdef\"; for (i = 0; i < 6; i++) sprintf(s, \"%s%s\", s, s); \nsprintf(t, \"%s\", s);\nsprintf(s, \"%s\\n\", s);",
            4,
            FaultKind::StringTooLong,
        ),
        (
            b"s = \"0123456789abcdef\"; for (i = 0; i < 6; i++) sprintf(s, \"%s%s\", s, s); for (i = 0; i < 16383; i++) printf(\"%s\", s);\nprintf(\"%s\", s);\nprintf(\"\");\nprintf(\"\\n\");",
            5,
            FaultKind::TextTooLong,
        ),
        (
            b"s = \"0123456789abcdef\"; for (i = 0; i < 6; i++) sprintf(s, \"%s%s\", s, s); for (i = 0; i < 16383; i++) printf(\"%s\", s);\nprintf(\"%s%s\", s, \"x\");",
            3,
            FaultKind::TextTooLong,
        ),
        (
            b"s = \"0123456789abcdef\"; for (i = 0; i < 6; i++) sprintf(s, \"%s%s\", s, s); f = GS_FOpen(\"F\", W); for (i = 0; i < 16383; i++) fprintf(f, \"%s\", s);\nfprintf(f, \"%s\", s);\nfprintf(f, \"x\");",
            4,
            FaultKind::FileTooLong,
        ),
        (
            b"f = GS_FOpen(\"ff\", W); g = GS_FOpen(\"fg\", R); h = GS_FOpen(\"fh\", R); j = GS_FOpen(\"fj\", R); k = GS_FOpen(\"fk\", R); l = GS_FOpen(\"fl\", R); o = GS_FOpen(\"fo\", R); p = GS_FOpen(\"fp\", R); \nq = GS_FOpen(\"F\", W);",
            3,
            FaultKind::TooManyOpen,
        ),
        (
            b"f = GS_FOpen(\"ff\", W); g = GS_FOpen(\"fg\", R); h = GS_FOpen(\"fh\", R); j = GS_FOpen(\"fj\", R); k = GS_FOpen(\"fk\", R); l = GS_FOpen(\"fl\", R); o = GS_FOpen(\"fo\", R); p = GS_FOpen(\"fp\", R); \nGS_FClose(g);\nq = GS_FOpen(\"F\", R);\ng = GS_FOpen(\"G\", R);",
            5,
            FaultKind::TooManyOpen,
        ),
    ];
    for (statements, line, kind) in cases {
        let made = ended(rt.alloc(), statements, 1_000_000)?;
        assert!(rt; is_fault(&made.last, line, kind));
    }
    Ok(())
}

#[test]
fn what_passes_a_limit_of_tasks_names_or_actions_is_a_fault(rt: HostRuntime) -> Result<(), Fail> {
    let cases: [(&[u8], u32, FaultKind); 11] = [
        (
            b"for (i = 0; i < 10000; i++) two(\"X\", \"Y\");\ntwo(\"X\", \"Y\");",
            3,
            FaultKind::TooManyTasks,
        ),
        (
            b"while (1) {\n    n++;\n    word(s, n);\n}",
            4,
            FaultKind::TooManyTasks,
        ),
        (
            b"for (i = 0; i < 20000; i++) { sprintf(s, \"n%d\", i); f = GS_FOpen(s, W); GS_FClose(f); }\nf = GS_FOpen(\"n0\", R);\ng = GS_FOpen(\"X\", W);",
            4,
            FaultKind::TooManyNames,
        ),
        (
            b"for (i = 0; i < 19999; i++) { sprintf(s, \"n%d\", i); f = GS_FOpen(s, W); GS_FClose(f); }\ntwo(\"n0\", \"X\");\ntwo(\"n1\", \"Y\");",
            4,
            FaultKind::TooManyNames,
        ),
        (
            b"for (i = 0; i < 19999; i++) { sprintf(s, \"n%d\", i); f = GS_FOpen(s, W); GS_FClose(f); }\ntwo(\"X\", \"Y\");",
            3,
            FaultKind::TooManyNames,
        ),
        (
            b"for (i = 0; i < 50000; i++) GS_Barrier();\nf = GS_FOpen(\"F\", W);\ng = GS_FOpen(\"G\", R);",
            4,
            FaultKind::TooManyActions,
        ),
        (
            b"for (i = 0; i < 50000; i++) GS_Barrier();\n    GS_Barrier();",
            3,
            FaultKind::TooManyActions,
        ),
        (
            b"for (i = 0; i < 50000; i++) GS_Barrier();\nword(s, 1);",
            3,
            FaultKind::TooManyActions,
        ),
        (
            b"f = GS_FOpen(\"F\", W);\nfor (i = 0; i < 50000; i++) GS_Barrier();\nGS_FClose(f);",
            4,
            FaultKind::TooManyActions,
        ),
        (
            b"for (i = 0; i < 49999; i++) GS_Barrier();\nword(s, 1);\nif (\n  strcmp(s, \"w\")) ;",
            4,
            FaultKind::TooManyActions,
        ),
        (
            b"for (i = 0; i < 49999; i++) GS_Barrier();\nword(s, 1);",
            4,
            FaultKind::TooManyActions,
        ),
    ];
    for (statements, line, kind) in cases {
        let made = ended(rt.alloc(), statements, 1_000_000)?;
        assert!(rt; is_fault(&made.last, line, kind));
    }
    Ok(())
}

#[test]
fn what_reaches_a_limit_is_none(rt: HostRuntime) -> Result<(), Fail> {
    let alloc = rt.alloc();
    let cases: [&[u8]; 7] = [
        b"s = \"0123456789abcdef\"; for (i = 0; i < 6; i++) sprintf(s, \"%s%s\", s, s); for (i = 0; i < 16383; i++) printf(\"%s\", s); printf(\"%s\", s);",
        b"s = \"0123456789abcdef\"; for (i = 0; i < 6; i++) sprintf(s, \"%s%s\", s, s); f = GS_FOpen(\"F\", W); for (i = 0; i < 16383; i++) fprintf(f, \"%s\", s); fprintf(f, \"%s\", s); GS_FClose(f);",
        b"f = GS_FOpen(\"ff\", W); g = GS_FOpen(\"fg\", R); h = GS_FOpen(\"fh\", R); j = GS_FOpen(\"fj\", R); k = GS_FOpen(\"fk\", R); l = GS_FOpen(\"fl\", R); o = GS_FOpen(\"fo\", R); p = GS_FOpen(\"fp\", R); GS_FClose(f); GS_FClose(g); GS_FClose(h); GS_FClose(j); GS_FClose(k); GS_FClose(l); GS_FClose(o); GS_FClose(p); ",
        b"for (i = 0; i < 10000; i++) two(\"X\", \"Y\");",
        b"for (i = 0; i < 20000; i++) { sprintf(s, \"n%d\", i); f = GS_FOpen(s, W); GS_FClose(f); } f = GS_FOpen(\"n7\", W); GS_FClose(f);",
        b"f = GS_FOpen(\"F\", R); for (i = 0; i < 49999; i++) GS_Barrier(); GS_FClose(f);",
        b"for (i = 0; i < 49999; i++) GS_Barrier(); word(s, 1); s = \"x\";",
    ];
    for statements in cases {
        let made = ended(alloc, statements, 1_000_000)?;
        assert!(rt; is_end(&made.last));
    }
    Ok(())
}
