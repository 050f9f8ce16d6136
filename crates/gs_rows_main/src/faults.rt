// Each fault of a program, with its line: that of the statement, or of the `if`, `while` or `for` of a test.
use crate::desk::{carried, ended, is_end, is_fault};
use gs_types::FaultKind;
use std::test::Fail;

#[test]
fn arithmetic_goes_wrong_at_its_statement(rt: HostRuntime) -> Result<(), Fail> {
    let cases: [(&[u8], u32, FaultKind); 14] = [
        (b"n = 9223372036854775807 + 1;", 2, FaultKind::Overflow),
        (
            b"\nn =\n    -9223372036854775807\n    - 2;",
            3,
            FaultKind::Overflow,
        ),
        (b"n = 9223372036854775807 * 2;", 2, FaultKind::Overflow),
        (
            b"n = (-9223372036854775807 - 1) / -1;",
            2,
            FaultKind::Overflow,
        ),
        (
            b"n = (-9223372036854775807 - 1) % -1;",
            2,
            FaultKind::Overflow,
        ),
        (b"n = -(-9223372036854775807 - 1);", 2, FaultKind::Overflow),
        (b"n = 9223372036854775807;\nn++;", 3, FaultKind::Overflow),
        (
            b"n = -9223372036854775807;\nn--;\nn -= 1;",
            4,
            FaultKind::Overflow,
        ),
        (
            b"n = atoi(\"9223372036854775808\");",
            2,
            FaultKind::Overflow,
        ),
        (b"n = 1 / 0;", 2, FaultKind::ZeroDivisor),
        (b"n = 1 % m;", 2, FaultKind::ZeroDivisor),
        (b"printf(\"%d\",\n    1 / m);", 2, FaultKind::ZeroDivisor),
        (
            b"\nsprintf(s, \"%d%d\", 1, 1 / 0);",
            3,
            FaultKind::ZeroDivisor,
        ),
        (b"put(\"X\",\n 1 % 0);", 2, FaultKind::ZeroDivisor),
    ];
    for (statements, line, kind) in cases {
        let made = ended(rt.alloc(), statements, 100)?;
        assert!(rt; is_fault(&made.last, line, kind));
    }
    Ok(())
}

#[test]
fn a_test_has_the_line_of_its_statement(rt: HostRuntime) -> Result<(), Fail> {
    let cases: [(&[u8], u32, FaultKind); 10] = [
        (
            b"n = 1;\nwhile (n <\n    9223372036854775807 + n) n++;",
            3,
            FaultKind::Overflow,
        ),
        (
            b"while (n < 3) {\n    n++;\n    m = 1 / (3 - n);\n}",
            4,
            FaultKind::ZeroDivisor,
        ),
        (
            b"n = 1;\nwhile (1 / n) {\n    n--;\n}",
            3,
            FaultKind::ZeroDivisor,
        ),
        (b"\nif (n ==\n    1 / n) ;", 3, FaultKind::ZeroDivisor),
        (b"if (1) {\n    n = 1 / n;\n}", 3, FaultKind::ZeroDivisor),
        (b"if (0) ;\nelse\n    n = 1 / n;", 4, FaultKind::ZeroDivisor),
        (
            b"for (\n    i = 1 / n;\n    ; ) ;",
            3,
            FaultKind::ZeroDivisor,
        ),
        (
            b"for (i = 0;\n    1 / i;\n    i++) ;",
            2,
            FaultKind::ZeroDivisor,
        ),
        (
            b"\nfor (i = 2;\n    1;\n    i = 1 / (i - 2)) ;",
            5,
            FaultKind::ZeroDivisor,
        ),
        (
            b"for (i = 0; ;\n    i++)\n    n = 1 / (2 - i);",
            4,
            FaultKind::ZeroDivisor,
        ),
    ];
    for (statements, line, kind) in cases {
        let made = ended(rt.alloc(), statements, 100)?;
        assert!(rt; is_fault(&made.last, line, kind));
    }
    Ok(())
}

#[test]
fn names_go_wrong(rt: HostRuntime) -> Result<(), Fail> {
    let cases: [(&[u8], u32, FaultKind); 12] = [
        (b"grow(\"\", \"x\");", 2, FaultKind::BadName),
        (b"f = GS_FOpen(\"a/b\", W);", 2, FaultKind::BadName),
        (
            b"join(\"F\",\n    \".x\",\n    \"C\");",
            2,
            FaultKind::BadName,
        ),
        (b"grow(\"A\", \"x\");", 2, FaultKind::NoFile),
        (
            b"f = GS_FOpen(\"A\", A);\nGS_FClose(f);\nf = GS_FOpen(\"A\", R);",
            4,
            FaultKind::NoFile,
        ),
        (b"\njoin(\"F\", \"A\", \"C\");", 3, FaultKind::NoFile),
        (b"grow(\"k.idl\", \"x\");", 2, FaultKind::OwnText),
        (
            b"join(\"p.c\", \"k.idl\", \"C\");\nf = GS_FOpen(\"p.c\", R);\ng = GS_FOpen(\"p.c\", A);",
            4,
            FaultKind::OwnText,
        ),
        (b"f =\n    GS_FOpen(\"k.idl\", W);", 2, FaultKind::OwnText),
        (b"two(\"X\", \"X\");", 2, FaultKind::SameOut),
        (
            b"mix(\"F\", \"G\");\nmix(\"F\", \"F\");",
            3,
            FaultKind::SameOut,
        ),
        (
            b"join(\"F\", \"G\", \"F\");\ntwo(\"X\",\n    \"X\");",
            3,
            FaultKind::SameOut,
        ),
    ];
    for (statements, line, kind) in cases {
        let made = ended(rt.alloc(), statements, 100)?;
        assert!(rt; is_fault(&made.last, line, kind));
    }
    Ok(())
}

#[test]
fn files_go_wrong(rt: HostRuntime) -> Result<(), Fail> {
    let cases: [(&[u8], u32, FaultKind); 21] = [
        (
            b"f = GS_FOpen(\"F\", W);\ngrow(\"F\", \"x\");",
            3,
            FaultKind::FileOpen,
        ),
        (
            b"f = GS_FOpen(\"F\", A);\ng = GS_FOpen(\"F\", R);",
            3,
            FaultKind::FileOpen,
        ),
        (
            b"f = GS_FOpen(\"F\", R);\ng = GS_FOpen(\"F\", R);\ngrow(\"F\", \"x\");\nh = GS_FOpen(\"F\", W);\ncount(\"F\", n);",
            6,
            FaultKind::FileOpen,
        ),
        (
            b"f = GS_FOpen(\"F\", R);\nf = GS_FOpen(\"G\", R);",
            3,
            FaultKind::HandleOpen,
        ),
        (
            b"f = GS_FOpen(\"F\", W);\nGS_FClose(f);\nf = GS_FOpen(\"F\", W);\nf = GS_FOpen(\"F\", A);",
            5,
            FaultKind::HandleOpen,
        ),
        (b"GS_FClose(f);", 2, FaultKind::HandleClosed),
        (
            b"f = GS_FOpen(\"F\", W);\nGS_FClose(f);\nfprintf(f, \"x\");",
            4,
            FaultKind::HandleClosed,
        ),
        (b"\nr = fgetline(\n    f, s);", 3, FaultKind::HandleClosed),
        (
            b"f = GS_FOpen(\"F\", R);\nfprintf(f, \"x\");",
            3,
            FaultKind::WrongMode,
        ),
        (
            b"f = GS_FOpen(\"T\", W);\nr = fgetline(f, s);",
            3,
            FaultKind::WrongMode,
        ),
        (
            b"f = GS_FOpen(\"T\", A);\nr = fgetline(f, s);",
            3,
            FaultKind::WrongMode,
        ),
        (
            b"f = GS_FOpen(\"B\", R);\nr = fgetline(f, s);",
            3,
            FaultKind::BadByte,
        ),
        (
            b"f = GS_FOpen(\"D\", R);\nr = fgetline(f, s);\nr = fgetline(f, s);",
            4,
            FaultKind::BadByte,
        ),
        (
            b"f = GS_FOpen(\"W\", R);\nr = fgetline(f, s);",
            3,
            FaultKind::StringTooLong,
        ),
        (
            b"f = GS_FOpen(\"S\", R);\nr = fgetline(f, s);\nsprintf(t, \"%s\", s);\nsprintf(t, \"%sx\", s);",
            5,
            FaultKind::StringTooLong,
        ),
        (b"grow(\"L\", \"x\");", 2, FaultKind::FileTooLong),
        (b"\nf = GS_FOpen(\"L\", R);", 3, FaultKind::FileTooLong),
        (b"f = GS_FOpen(\"L\", A);", 2, FaultKind::FileTooLong),
        (
            b"f = GS_FOpen(\"Z\", A);\nfprintf(f, \"\");\nfprintf(f, \"x\");",
            4,
            FaultKind::FileTooLong,
        ),
        (b"f = GS_FOpen(\"F\", R);", 3, FaultKind::StillOpen),
        (b"f = GS_FOpen(\"F\", W);\n", 4, FaultKind::StillOpen),
    ];
    for (statements, line, kind) in cases {
        let made = ended(rt.alloc(), statements, 100)?;
        assert!(rt; is_fault(&made.last, line, kind));
    }
    Ok(())
}

#[test]
fn an_initial_assignment_has_the_line_of_its_variable(rt: HostRuntime) -> Result<(), Fail> {
    let alloc = rt.alloc();
    let cases: [(&[u8], u32, FaultKind); 3] = [
        (
            b"main() { int x; int y; x = -9223372036854775807 - 1; y = x / -1; GS_On(); GS_Off(0); }",
            1,
            FaultKind::Overflow,
        ),
        (
            b"main() {\n int x,\n y =\n 1 / 0; GS_On(); GS_Off(0); }",
            3,
            FaultKind::ZeroDivisor,
        ),
        (
            b"main() {\n int x = 1;\n x =\n 1 / (x - 1); GS_On(); GS_Off(0); }",
            3,
            FaultKind::ZeroDivisor,
        ),
    ];
    for (text, line, kind) in cases {
        let made = carried(alloc, text, 100)?;
        assert!(rt; is_fault(&made.last, line, kind));
    }
    Ok(())
}

#[test]
fn what_is_at_a_limit_is_no_fault(rt: HostRuntime) -> Result<(), Fail> {
    let alloc = rt.alloc();
    let cases: [&[u8]; 8] = [
        b"n = -9223372036854775807 - 1; n = n % 2; n = -7 / 2 + 3;",
        b"n = 0 && 1 / 0; m = 2 || 1 / 0;",
        b"join(\"p.c\", \"k.idl\", \"C\");",
        b"join(\"F\", \"G\", \"F\"); mix(\"F\", \"G\");",
        b"f = GS_FOpen(\"A\", A); GS_FClose(f);",
        b"f = GS_FOpen(\"S\", R); r = fgetline(f, s); r = fgetline(f, s); GS_FClose(f);",
        b"f = GS_FOpen(\"Z\", A); fprintf(f, \"\"); GS_FClose(f);",
        b"f = GS_FOpen(\"F\", R); g = GS_FOpen(\"F\", R); count(\"F\", n); GS_FClose(f); GS_FClose(g);",
    ];
    for statements in cases {
        let made = ended(alloc, statements, 100)?;
        assert!(rt; is_end(&made.last));
    }
    Ok(())
}
