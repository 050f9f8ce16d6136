// How many steps each statement takes: `GS_On` and `GS_Off` one each, and what stands between.
use crate::desk::{carried, ended, is_end, is_fault, is_fuel_out};
use gs_types::FaultKind;
use std::test::Fail;

#[test]
fn fuel_is_enough_exactly_from_the_need_on(rt: HostRuntime) -> Result<(), Fail> {
    let alloc = rt.alloc();
    let cases: [(&[u8], u64); 25] = [
        (b"", 2),
        (b";", 3),
        (b"n = 1;", 3),
        (b"n++;", 3),
        (b"n -= 2;", 3),
        (b"s = \"x\";", 3),
        (b"{ }", 2),
        (b"{ ; { n = 1; } }", 4),
        (b"if (1) n = 1;", 4),
        (b"if (0) n = 1;", 3),
        (b"if (0) ; else { ; ; }", 5),
        (b"while (0) ;", 3),
        (b"while (i < 3) { i = i + 1; }", 9),
        (b"for (i = 0; i < 3; i++) ;", 13),
        (b"for (; i < 2; ) i++;", 7),
        (b"printf(\"%d%%\", n);", 3),
        (b"sprintf(s, \"%s\", s);", 3),
        (
            b"f = GS_FOpen(\"F\", W); fprintf(f, \"x\"); GS_FClose(f);",
            5,
        ),
        (
            b"f = GS_FOpen(\"T\", R); r = fgetline(f, s); GS_FClose(f);",
            5,
        ),
        (b"GS_Barrier();", 3),
        (b"grow(\"F\", \"x\");", 3),
        (b"count(\"F\", n); m = n + n;", 4),
        (b"count(\"F\", n); while (n) n = 0;", 6),
        (b"count(\"F\", n); if (n == 1) ;", 5),
        (b"count(\"F\", n); count(\"F\", m);", 4),
    ];
    for (statements, need) in cases {
        let made = ended(alloc, statements, need)?;
        assert!(rt; is_end(&made.last));
        let made = ended(alloc, statements, need.saturating_add(1))?;
        assert!(rt; is_end(&made.last));
        let made = ended(alloc, statements, need.saturating_sub(1))?;
        assert!(rt; is_fuel_out(&made.last));
    }
    Ok(())
}

// Three turns of a test and two assignments, and then a test and the assignment that goes wrong.
#[test]
fn an_absent_test_takes_a_step(rt: HostRuntime) -> Result<(), Fail> {
    let alloc = rt.alloc();
    let statements = b"for (; ; ) {\n    m = 1 / (3 - n);\n    n++;\n}".as_slice();
    let made = ended(alloc, statements, 12)?;
    assert!(rt; is_fault(&made.last, 3, FaultKind::ZeroDivisor));
    let made = ended(alloc, statements, 11)?;
    assert!(rt; is_fuel_out(&made.last));
    Ok(())
}

#[test]
fn initial_assignments_take_steps(rt: HostRuntime) -> Result<(), Fail> {
    let alloc = rt.alloc();
    let text = b"main() { int i = 1, n; char *s = \"x\"; n = 2; GS_On(); GS_Off(0); }".as_slice();
    let made = carried(alloc, text, 5)?;
    assert!(rt; is_end(&made.last));
    let made = carried(alloc, text, 4)?;
    assert!(rt; is_fuel_out(&made.last));
    Ok(())
}
