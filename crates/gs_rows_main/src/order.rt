// Which fault comes first where two stand together.
use crate::desk::{ended, is_fault, is_fuel_out};
use gs_types::FaultKind;
use std::test::Fail;

#[test]
fn the_first_of_two_faults_counts(rt: HostRuntime) -> Result<(), Fail> {
    let cases: [(&[u8], u32, FaultKind); 16] = [
        (
            b"f = GS_FOpen(\"F\", R);\nf = GS_FOpen(\"a/b\", R);",
            3,
            FaultKind::HandleOpen,
        ),
        (
            b"f = GS_FOpen(\"F\", W);\nf = GS_FOpen(\"F\", W);",
            3,
            FaultKind::HandleOpen,
        ),
        (b"fprintf(f, \"%d\", 1 / 0);", 2, FaultKind::ZeroDivisor),
        (
            b"f = GS_FOpen(\"Z\", R);\nfprintf(f, \"x\");",
            3,
            FaultKind::WrongMode,
        ),
        (
            b"f = GS_FOpen(\"V\", R);\nr = fgetline(f, s);",
            3,
            FaultKind::StringTooLong,
        ),
        (b"put(\"a/b\", 1 / 0);", 2, FaultKind::ZeroDivisor),
        (b"two(\"p.c\", \"a/b\");", 2, FaultKind::OwnText),
        (b"two(\"a/b\", \"p.c\");", 2, FaultKind::BadName),
        (
            b"f = GS_FOpen(\"F\", W);\njoin(\"F\", \"a/b\", \"C\");",
            3,
            FaultKind::FileOpen,
        ),
        (
            b"f = GS_FOpen(\"F\", W);\njoin(\"a/b\", \"F\", \"C\");",
            3,
            FaultKind::BadName,
        ),
        (b"two(\"p.c\", \"p.c\");", 2, FaultKind::OwnText),
        (
            b"f = GS_FOpen(\"F\", W);\ntwo(\"F\", \"F\");",
            3,
            FaultKind::FileOpen,
        ),
        (b"join(\"A\", \"L\", \"C\");", 2, FaultKind::NoFile),
        (b"join(\"L\", \"A\", \"C\");", 2, FaultKind::FileTooLong),
        (b"mix(\"A\", \"A\");", 2, FaultKind::SameOut),
        (b"join(\"A\", \"F\", \"p.c\");", 2, FaultKind::OwnText),
    ];
    for (statements, line, kind) in cases {
        let made = ended(rt.alloc(), statements, 100)?;
        assert!(rt; is_fault(&made.last, line, kind));
    }
    Ok(())
}

#[test]
fn the_first_of_two_limits_counts(rt: HostRuntime) -> Result<(), Fail> {
    let cases: [(&[u8], u32, FaultKind); 11] = [
        (
            b"f = GS_FOpen(\"ff\", W); g = GS_FOpen(\"fg\", R); h = GS_FOpen(\"fh\", R); j = GS_FOpen(\"fj\", R); k = GS_FOpen(\"fk\", R); l = GS_FOpen(\"fl\", R); o = GS_FOpen(\"fo\", R); p = GS_FOpen(\"fp\", R); \nq = GS_FOpen(\"p.c\", W);",
            3,
            FaultKind::OwnText,
        ),
        (
            b"f = GS_FOpen(\"ff\", W); g = GS_FOpen(\"fg\", R); h = GS_FOpen(\"fh\", R); j = GS_FOpen(\"fj\", R); k = GS_FOpen(\"fk\", R); l = GS_FOpen(\"fl\", R); o = GS_FOpen(\"fo\", R); p = GS_FOpen(\"fp\", R); \nq = GS_FOpen(\"ff\", R);",
            3,
            FaultKind::FileOpen,
        ),
        (
            b"for (i = 0; i < 20000; i++) { sprintf(s, \"n%d\", i); f = GS_FOpen(s, W); GS_FClose(f); }\nf = GS_FOpen(\"n0\", W); g = GS_FOpen(\"n1\", R); h = GS_FOpen(\"n2\", R); j = GS_FOpen(\"n3\", R); k = GS_FOpen(\"n4\", R); l = GS_FOpen(\"n5\", R); o = GS_FOpen(\"n6\", R); p = GS_FOpen(\"n7\", R); \nq = GS_FOpen(\"X\", W);",
            4,
            FaultKind::TooManyOpen,
        ),
        (
            b"for (i = 0; i < 20000; i++) { sprintf(s, \"n%d\", i); f = GS_FOpen(s, W); GS_FClose(f); } for (i = 0; i < 30000; i++) GS_Barrier();\nf = GS_FOpen(\"X\", R);",
            3,
            FaultKind::TooManyNames,
        ),
        (
            b"for (i = 0; i < 20000; i++) { sprintf(s, \"n%d\", i); f = GS_FOpen(s, W); GS_FClose(f); } for (i = 0; i < 30000; i++) GS_Barrier();\ntwo(\"X\", \"Y\");",
            3,
            FaultKind::TooManyNames,
        ),
        (
            b"for (i = 0; i < 50000; i++) GS_Barrier();\nf = GS_FOpen(\"A\", R);",
            3,
            FaultKind::TooManyActions,
        ),
        (
            b"for (i = 0; i < 50000; i++) GS_Barrier();\ngrow(\"A\", \"x\");",
            3,
            FaultKind::TooManyActions,
        ),
        (
            b"for (i = 0; i < 50000; i++) GS_Barrier();\nGS_FClose(f);",
            3,
            FaultKind::HandleClosed,
        ),
        (
            b"for (i = 0; i < 10000; i++) two(\"X\", \"Y\");\ntwo(\"X\", \"X\");",
            3,
            FaultKind::SameOut,
        ),
        (
            b"for (i = 0; i < 10000; i++) { sprintf(s, \"n%d\", i); sprintf(t, \"m%d\", i); two(s, t); }\ntwo(\"X\", \"Y\");",
            3,
            FaultKind::TooManyTasks,
        ),
        (
            b"for (i = 0; i < 10000; i++) two(\"X\", \"Y\"); for (i = 0; i < 40000; i++) GS_Barrier();\ntwo(\"X\", \"Y\");",
            3,
            FaultKind::TooManyTasks,
        ),
    ];
    for (statements, line, kind) in cases {
        let made = ended(rt.alloc(), statements, 1_000_000)?;
        assert!(rt; is_fault(&made.last, line, kind));
    }
    Ok(())
}

#[test]
fn a_step_is_due_before_its_statement_goes_wrong(rt: HostRuntime) -> Result<(), Fail> {
    let alloc = rt.alloc();
    let statements = b"n = 1;\nn = 1 / 0;".as_slice();
    let made = ended(alloc, statements, 3)?;
    assert!(rt; is_fault(&made.last, 3, FaultKind::ZeroDivisor));
    let made = ended(alloc, statements, 2)?;
    assert!(rt; is_fuel_out(&made.last));
    Ok(())
}

#[test]
fn a_handle_left_open_counts_before_values_are_waited_for(rt: HostRuntime) -> Result<(), Fail> {
    let made = ended(rt.alloc(), b"f = GS_FOpen(\"F\", R);\nword(s, 1);", 100)?;
    assert!(rt; is_fault(&made.last, 4, FaultKind::StillOpen));
    assert_eq!(rt; made.asked, 2);
    Ok(())
}
