// Programs that are read, and texts that go wrong at their first place.
use crate::{ParseErr, ParseKind, parse};
use gs_tree::print;
use std::alloc::Global;
use std::test::Fail;

const WHOLE: &[u8] =
    b"#include <gs.h>\nint main(void) { int i = 1, n; char *s = \"a\\n\", *t; FILE *f;\n  n = i + 2 * 3;\n  t = \"x\";\n  GS_On();\n  for (i = 0; i < 3 || i == n && !i; i++) { subst(\"base.cfg\", i, &n); ; }\n  for (;;) if (atoi(s) - 1 - 2) n -= 4; else { n += -5; while (strcmp(s, t) != 0) n--; }\n  f = GS_FOpen(s, W); n = fgetline(f, s); fprintf(f, \"%d\", n % 2); GS_FClose(f);\n  GS_Barrier(); printf(\"%s %d\\\\\", s, (n)); sprintf(t, \"q\"); none();\n  { n = 9 / 3 * 2; }\n  GS_Off(0); return 0; }";

const PRINTED: &[u8] =
    b"main() {\n    int i;\n    int n;\n    char *s;\n    char *t;\n    FILE *f;\n    i = 1;\n    s = \"a\\n\";\n    n = (i + (2 * 3));\n    t = \"x\";\n    GS_On();\n    for (i = 0; ((i < 3) || ((i == n) && (!i))); i = (i + 1)) {\n        subst(\"base.cfg\", i, &n);\n        ;\n    }\n    for (; ; ) {\n        if (((atoi(s) - 1) - 2)) {\n            n = (n - 4);\n        } else {\n            n = (n + (-5));\n            while ((strcmp(s, t) != 0)) {\n                n = (n - 1);\n            }\n        }\n    }\n    f = GS_FOpen(s, W);\n    n = fgetline(f, s);\n    fprintf(f, \"%d\", (n % 2));\n    GS_FClose(f);\n    GS_Barrier();\n    printf(\"%s %d\\\\\", s, n);\n    sprintf(t, \"q\");\n    none();\n    {\n        n = ((9 / 3) * 2);\n    }\n    GS_Off(0);\n}\n";

fn is_at(alloc: Global, text: &[u8], line: u32, kind: ParseKind) -> bool {
    match parse(alloc, text) {
        Ok(_) => false,
        Err(e) => e == ParseErr::At { line, kind },
    }
}

#[test]
fn a_program_with_every_construct_is_read(rt: HostRuntime) -> Result<(), Fail> {
    let alloc = rt.alloc();
    let tree = parse(alloc, WHOLE)?;
    assert_eq!(rt; tree.off, 11);
    assert_eq!(rt; tree.vars.len(), 5);
    assert_eq!(rt; tree.first.len(), 4);
    assert_eq!(rt; tree.body.len(), 11);
    assert_eq!(rt; print(alloc, &tree)?.as_slice(), PRINTED);
    let again = parse(alloc, PRINTED)?;
    assert_eq!(rt; print(alloc, &again)?.as_slice(), PRINTED);
    Ok(())
}

#[test]
fn each_fault_stands_at_its_first_place(rt: HostRuntime) -> Result<(), Fail> {
    let alloc = rt.alloc();
    let cases: [(&[u8], u32, ParseKind); 24] = [
        (b"", 1, ParseKind::Unexpected),
        (b"main\n(\n", 3, ParseKind::Unexpected),
        (
            b"main() { grow(\"A\", \"x\"); GS_On(); GS_Off(0); }",
            1,
            ParseKind::Unexpected,
        ),
        (b"main() { GS_On(); GS_Off(1); }", 1, ParseKind::Unexpected),
        (
            b"main() { GS_On();\n GS_Off(0); }\n;",
            3,
            ParseKind::Unexpected,
        ),
        (b"char main() { GS_On();", 1, ParseKind::Unexpected),
        (b"main() { int *a;", 1, ParseKind::Unexpected),
        (b"main() { char *s, t;", 1, ParseKind::Unexpected),
        (b"main() { FILE *f = 0;", 1, ParseKind::Unexpected),
        (b"main() { x++;", 1, ParseKind::Unexpected),
        (
            b"main() { GS_On();\n if (1) ; else else",
            2,
            ParseKind::Unexpected,
        ),
        (
            b"main() { GS_On(); for (i = 0; ; &",
            1,
            ParseKind::Unexpected,
        ),
        (b"main() { GS_On(); f(& 1", 1, ParseKind::Unexpected),
        (b"main() { GS_On(); f(1,)", 1, ParseKind::Unexpected),
        (
            b"main() { GS_On(); f = GS_FOpen(s, X",
            1,
            ParseKind::Unexpected,
        ),
        (b"main() { GS_On(); printf(s", 1, ParseKind::Unexpected),
        (
            b"main() {\n int i = 9223372036854775808",
            2,
            ParseKind::WideNumber,
        ),
        (b"main() {\n int i = 08", 2, ParseKind::BadNumber),
        (b"main() { int $", 1, ParseKind::BadByte),
        (b"main() {\n/*", 2, ParseKind::OpenComment),
        (b"main() { char *s = \"a", 1, ParseKind::OpenString),
        (b"main() { char *s = \"\\q\"", 1, ParseKind::BadEscape),
        (b"main( ; $", 1, ParseKind::Unexpected),
        (
            b"a234567890123456789012345678901234567890123456789012345678901234_",
            1,
            ParseKind::LongName,
        ),
    ];
    for (text, line, kind) in cases {
        assert!(rt; is_at(alloc, text, line, kind));
    }
    Ok(())
}

// `main() {`, an initial assignment of 1 behind so many `opening` signs and before as many `closing` ones, and the rest.
fn nested(alloc: Global, count: usize, opening: u8, closing: &[u8]) -> Result<Vec<u8>, Fail> {
    let mut text = b"main() {\n i = ".to_vec(alloc)?;
    for _ in 0..count {
        text.push(opening)?;
    }
    text.extend_from_slice(b"1")?;
    for _ in 0..count {
        text.extend_from_slice(closing)?;
    }
    text.extend_from_slice(b";\n GS_On(); GS_Off(0); }")?;
    Ok(text)
}

#[test]
fn depth_and_length_are_limited(rt: HostRuntime) -> Result<(), Fail> {
    let alloc = rt.alloc();
    assert!(rt; parse(alloc, &nested(alloc, 64, b'(', b")")?).is_ok());
    assert!(rt;
        is_at(
            alloc,
            &nested(alloc, 65, b'(', b")")?,
            2,
            ParseKind::TooDeep
        )
    );
    assert!(rt; parse(alloc, &nested(alloc, 63, b'!', b"")?).is_ok());
    assert!(rt; is_at(alloc, &nested(alloc, 64, b'!', b"")?, 2, ParseKind::TooDeep));
    let mut text = vec![in alloc; b' '; 65536]?;
    assert!(rt; is_at(alloc, &text, 1, ParseKind::Unexpected));
    text.push(b' ')?;
    assert!(rt; is_at(alloc, &text, 0, ParseKind::TooLong));
    Ok(())
}
