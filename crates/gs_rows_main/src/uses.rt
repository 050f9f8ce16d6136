// Values of tasks, and a long program that isn't begun again at each question.
use crate::desk::{carried, ended, is_end, is_fuel_out};
use gs_types::{Note, VarNote};
use std::test::Fail;

// The note is of an int variable of this name, with this number.
fn notes_int(note: &VarNote, name: &[u8], number: i64) -> bool {
    match &note.v {
        Note::Int { v } => note.name.bytes() == name && *v == number,
        _ => false,
    }
}

// A task leaves its number.
#[test]
fn values_are_asked_for_at_their_first_use(rt: HostRuntime) -> Result<(), Fail> {
    let alloc = rt.alloc();
    let text =
        b"main() { int n; int m; GS_On(); count(\"F\", n); count(\"G\", m); printf(\"%d %d\", n, m); GS_Off(0); }".as_slice();
    let made = carried(alloc, text, 100)?;
    assert!(rt; is_end(&made.last));
    assert_eq!(rt; made.asked, 4);
    assert!(rt; made.main.text() == b"1 2".as_slice());
    let vars = made.main.vars(alloc)?;
    assert_eq!(rt; vars.len(), 2);
    assert!(rt; notes_int(&vars[0], b"n", 1));
    assert!(rt; notes_int(&vars[1], b"m", 2));
    Ok(())
}

#[test]
fn a_value_that_is_set_is_not_asked_for(rt: HostRuntime) -> Result<(), Fail> {
    let alloc = rt.alloc();
    let text = b"main() { int n; GS_On(); count(\"F\", n); n = 3; GS_Off(0); }".as_slice();
    let made = carried(alloc, text, 100)?;
    assert!(rt; is_end(&made.last));
    assert_eq!(rt; made.asked, 1);
    let vars = made.main.vars(alloc)?;
    assert_eq!(rt; vars.len(), 1);
    assert!(rt; notes_int(&vars[0], b"n", 3));
    Ok(())
}

#[test]
fn a_value_that_is_not_used_is_asked_for_at_the_end(rt: HostRuntime) -> Result<(), Fail> {
    let alloc = rt.alloc();
    let text = b"main() { int n; GS_On(); count(\"F\", n); GS_Off(0); }".as_slice();
    let made = carried(alloc, text, 100)?;
    assert!(rt; is_end(&made.last));
    assert_eq!(rt; made.asked, 2);
    let vars = made.main.vars(alloc)?;
    assert_eq!(rt; vars.len(), 1);
    assert!(rt; notes_int(&vars[0], b"n", 1));
    Ok(())
}

// What is printed of values that tasks leave, and how many questions come before the end.
#[test]
fn values_are_those_of_the_last_call(rt: HostRuntime) -> Result<(), Fail> {
    let alloc = rt.alloc();
    let cases: [(&[u8], u32, &[u8]); 8] = [
        (b"n = 5; count(\"F\", n); printf(\"%d\", n);", 2, b"1"),
        (
            b"count(\"F\", n); count(\"F\", n); printf(\"%d%d\", n, n);",
            3,
            b"22",
        ),
        (b"word(s, 1); printf(\"%s%s\", s, s); word(s, 1);", 4, b"ww"),
        (b"count(\"F\", n); m = 0 && n; n = 0;", 1, b""),
        (b"count(\"F\", n); m = 1 && n; printf(\"%d\", m);", 2, b"1"),
        (
            b"count(\"F\", n); for (; n < 3; n++) printf(\"%d\", n);",
            2,
            b"12",
        ),
        (
            b"word(s, 1); word(t, 1); printf(\"%d\", strcmp(s, t));",
            4,
            b"0",
        ),
        (
            b"f = GS_FOpen(\"T\", R); r = fgetline(f, s); while (r) { printf(\"[%s]\", s); r = fgetline(f, s); } GS_FClose(f);",
            1,
            b"[ab][][cd]",
        ),
    ];
    for (statements, asked, text) in cases {
        let made = ended(alloc, statements, 100)?;
        assert!(rt; is_end(&made.last));
        assert_eq!(rt; made.asked, asked);
        assert!(rt; made.main.text() == text);
    }
    Ok(())
}

#[test]
fn a_long_program_takes_its_steps_once(rt: HostRuntime) -> Result<(), Fail> {
    let alloc = rt.alloc();
    let text =
        b"main() { int i; GS_On(); while (i < 1000000) { i = i + 1; } for (i = 0; i < 2000; i++) { join(\"G\", \"G\", \"H\"); } GS_Off(0); }".as_slice();
    let made = carried(alloc, text, 2_006_005)?;
    assert!(rt; is_end(&made.last));
    assert_eq!(rt; made.asked, 2_000);
    let made = carried(alloc, text, 2_006_004)?;
    assert!(rt; is_fuel_out(&made.last));
    assert_eq!(rt; made.asked, 2_000);
    Ok(())
}
