//! The values of expressions, formats and lines.

use crate::arithmetic::order_of;
use crate::atoi::atoi;
use crate::{Formula, Line, TalkErr, Vars, eval, format, formulas, line, value, values};
use gs_tree::{Expr, Format, Ident, Op, Tree, Var, VarKind};
use gs_types::{FaultKind, NoMemory, Text, Value};
use std::alloc::{AllocError, Global};
use std::test::Fail;

fn num(v: i64) -> Expr {
    Expr::Num { line: 1, v }
}

fn lit(alloc: Global, s: &[u8]) -> Result<Expr, AllocError> {
    Ok(Expr::Lit {
        line: 1,
        s: s.to_vec(alloc)?,
    })
}

fn ident(alloc: Global, name: &[u8]) -> Result<Ident, AllocError> {
    Ok(Ident {
        line: 1,
        name: name.to_vec(alloc)?,
    })
}

fn var(alloc: Global, name: &[u8]) -> Result<Expr, AllocError> {
    Ok(Expr::Name {
        id: ident(alloc, name)?,
    })
}

fn two(alloc: Global, op: Op, a: Expr, b: Expr) -> Result<Expr, NoMemory> {
    Ok(Expr::Two {
        op,
        a: Box::new(alloc, a)?,
        b: Box::new(alloc, b)?,
    })
}

// `int n; char *s; FILE *f;`
fn declared(alloc: Global) -> Result<Vars, NoMemory> {
    let mut vars = Vec::new(alloc);
    vars.push(Var {
        name: ident(alloc, b"n")?,
        kind: VarKind::Int,
    })?;
    vars.push(Var {
        name: ident(alloc, b"s")?,
        kind: VarKind::Str,
    })?;
    vars.push(Var {
        name: ident(alloc, b"f")?,
        kind: VarKind::Handle,
    })?;
    Vars::new(
        alloc,
        &Tree {
            vars,
            first: Vec::new(alloc),
            body: Vec::new(alloc),
            off: 2,
        },
    )
}

// The number that an expression gives; 0 for another value.
fn number(alloc: Global, e: &Expr, vars: &Vars) -> Result<i64, TalkErr> {
    match eval(alloc, e, vars)? {
        Value::Int { v } => Ok(v),
        _ => Ok(0),
    }
}

fn fault(kind: FaultKind) -> Result<i64, TalkErr> {
    Err(TalkErr::Kind { kind })
}

#[test]
fn operators_at_their_edges(rt: HostRuntime) -> Result<(), Fail> {
    let alloc = rt.alloc();
    let vars = declared(alloc)?;
    let table = [
        (Op::Add, i64::MAX, 0, Ok(i64::MAX)),
        (Op::Add, i64::MAX, 1, fault(FaultKind::Overflow)),
        (Op::Sub, i64::MIN, 1, fault(FaultKind::Overflow)),
        (Op::Mul, i64::MIN, -1, fault(FaultKind::Overflow)),
        (
            Op::Mul,
            3_037_000_500,
            3_037_000_500,
            fault(FaultKind::Overflow),
        ),
        (Op::Div, -7, 2, Ok(-3)),
        (Op::Div, 7, 0, fault(FaultKind::ZeroDivisor)),
        (Op::Div, i64::MIN, -1, fault(FaultKind::Overflow)),
        (Op::Rem, -7, 2, Ok(-1)),
        (Op::Rem, 7, -2, Ok(1)),
        (Op::Rem, 7, 0, fault(FaultKind::ZeroDivisor)),
        (Op::Rem, i64::MIN, -1, fault(FaultKind::Overflow)),
        (Op::Eq, -1, -1, Ok(1)),
        (Op::Ne, -1, -1, Ok(0)),
        (Op::Lt, -1, 0, Ok(1)),
        (Op::Le, 1, 0, Ok(0)),
        (Op::Gt, i64::MIN, i64::MAX, Ok(0)),
        (Op::Ge, 5, 5, Ok(1)),
        (Op::And, 2, -3, Ok(1)),
        (Op::And, 2, 0, Ok(0)),
        (Op::Or, 0, 7, Ok(1)),
        (Op::Or, 0, 0, Ok(0)),
    ];
    for (op, a, b, wanted) in table {
        let e = two(alloc, op, num(a), num(b))?;
        assert!(rt; number(alloc, &e, &vars) == wanted);
    }
    let least = Expr::Neg {
        e: Box::new(alloc, num(i64::MIN))?,
    };
    assert!(rt; number(alloc, &least, &vars) == fault(FaultKind::Overflow));
    let not = Expr::Not {
        e: Box::new(alloc, num(0))?,
    };
    assert!(rt; number(alloc, &not, &vars) == Ok(1));
    Ok(())
}

#[test]
fn numbers_and_order_of_strings(rt: HostRuntime) -> Result<(), Fail> {
    let alloc = rt.alloc();
    let table: [(&[u8], Result<i64, FaultKind>); 10] = [
        (b"", Ok(0)),
        (b" \t\r\n42x", Ok(42)),
        (b"-7", Ok(-7)),
        (b"+007", Ok(7)),
        (b"+-7", Ok(0)),
        (b"- 7", Ok(0)),
        (b"9223372036854775807", Ok(i64::MAX)),
        (b"9223372036854775808", Err(FaultKind::Overflow)),
        (b"-9223372036854775808", Ok(i64::MIN)),
        (b"-18446744073709551617", Err(FaultKind::Overflow)),
    ];
    for (text, wanted) in table {
        assert!(rt; atoi(text) == wanted);
    }
    assert_eq!(rt; order_of(b"ab", b"abc"), -1);
    assert_eq!(rt; order_of(b"b", b"abc"), 1);
    assert_eq!(rt; order_of(b"", b""), 0);
    let vars = declared(alloc)?;
    let compared = Expr::Strcmp {
        a: Box::new(alloc, lit(alloc, b"a")?)?,
        b: Box::new(alloc, lit(alloc, b"B")?)?,
    };
    assert!(rt; number(alloc, &compared, &vars) == Ok(1));
    let read = Expr::Atoi {
        e: Box::new(alloc, lit(alloc, b"12")?)?,
    };
    assert!(rt; number(alloc, &read, &vars) == Ok(12));
    Ok(())
}

#[test]
fn a_pending_variable_is_needed_where_it_is_reached(rt: HostRuntime) -> Result<(), Fail> {
    let alloc = rt.alloc();
    let mut vars = declared(alloc)?;
    let need = Err(TalkErr::Need { n: 3, place: 2 });
    assert!(rt; vars.kind(b"n") == Some(VarKind::Int));
    vars.pend(b"n", 3, 2);
    assert!(rt; vars.pending(b"n") == Some((3, 2)));
    let e = two(alloc, Op::Or, num(1), var(alloc, b"n")?)?;
    assert!(rt; number(alloc, &e, &vars) == Ok(1));
    let e = two(alloc, Op::And, num(1), var(alloc, b"n")?)?;
    assert!(rt; number(alloc, &e, &vars) == need);
    let zero = two(alloc, Op::Div, num(1), num(0))?;
    let e = two(alloc, Op::Add, var(alloc, b"n")?, zero)?;
    assert!(rt; number(alloc, &e, &vars) == need);
    let zero = two(alloc, Op::Div, num(1), num(0))?;
    let e = two(alloc, Op::Add, zero, var(alloc, b"n")?)?;
    assert!(rt; number(alloc, &e, &vars) == fault(FaultKind::ZeroDivisor));
    assert!(rt; vars.kind(b"n") == Some(VarKind::Int));
    vars.set(b"n", Value::Int { v: 5 });
    assert!(rt; vars.pending(b"n") == None);
    assert!(rt; matches!(vars.get(b"n"), Some(Value::Int { v: 5 })));
    assert!(rt; vars.pending(b"f") == None);
    assert!(rt; vars.get(b"f").is_none());
    assert!(rt; number(alloc, &var(alloc, b"n")?, &vars) == Ok(5));
    Ok(())
}

#[test]
fn expressions_by_places(rt: HostRuntime) -> Result<(), Fail> {
    let alloc = rt.alloc();
    let vars = declared(alloc)?;
    let mut es = Vec::new(alloc);
    es.push(var(alloc, b"n")?)?;
    es.push(var(alloc, b"s")?)?;
    let all = formulas(alloc, &es, vars.names())?;
    assert_eq!(rt; all.len(), 2);
    assert!(rt; matches!(all.get(1), Some(Formula::At { i: 1 })));
    let found = values(alloc, &all, vars.slots())?;
    assert!(rt; matches!(found.get(1), Some(Value::Str { s }) if s.bytes().is_empty()));
    let negative = Formula::Neg {
        e: Box::new(alloc, Formula::Num { v: 4 })?,
    };
    let four = value(alloc, &negative, &[])?;
    assert!(rt; matches!(&four, Value::Int { v: -4 }));
    assert!(rt; values(alloc, &[], &[])?.is_empty());
    Ok(())
}

fn formatted(alloc: Global, text: &[u8], args: &[Value]) -> Result<Vec<u8>, NoMemory> {
    let f = Format {
        line: 1,
        s: text.to_vec(alloc)?,
    };
    Ok(format(alloc, &f, args)?.bytes().to_vec(alloc)?)
}

#[test]
fn formats_give_their_pieces_in_order(rt: HostRuntime) -> Result<(), Fail> {
    let alloc = rt.alloc();
    let mut args = Vec::new(alloc);
    args.push(Value::Int { v: i64::MIN })?;
    args.push(Value::Str {
        s: Text::read(alloc, b"a%d")?,
    })?;
    args.push(Value::Int { v: 0 })?;
    let text = formatted(alloc, b"x%d%%%s\n%d", &args)?;
    assert!(rt; text.as_slice() == b"x-9223372036854775808%a%d\n0".as_slice());
    assert!(rt; formatted(alloc, b"", &[])?.is_empty());
    Ok(())
}

// The line at a place, and what comes behind it; 0 and no bytes at the end.
fn got(alloc: Global, bytes: &[u8], at: usize) -> Result<(Vec<u8>, usize), TalkErr> {
    match line(alloc, bytes, at)? {
        Line::End => Ok((Vec::new(alloc), 0)),
        Line::Got { s, next } => match s.bytes().to_vec(alloc) {
            Ok(taken) => Ok((taken, next)),
            Err(_) => Err(TalkErr::NoMemory),
        },
    }
}

#[test]
fn lines_are_taken_one_by_one(rt: HostRuntime) -> Result<(), Fail> {
    let alloc = rt.alloc();
    let table: [(&[u8], usize, &[u8], usize); 6] = [
        (b"ab\n\nc\r", 0, b"ab", 3),
        (b"ab\n\nc\r", 3, b"", 4),
        (b"ab\n\nc\r", 4, b"c\r", 6),
        (b"ab\n\nc\r", 6, b"", 0),
        (b"ab\n", 3, b"", 0),
        (b"", 0, b"", 0),
    ];
    for (bytes, at, wanted, next) in table {
        let (taken, behind) = got(alloc, bytes, at)?;
        assert!(rt; taken.as_slice() == wanted);
        assert_eq!(rt; behind, next);
    }
    let mut long = vec![in alloc; b'a'; 1024]?;
    assert!(rt; matches!(got(alloc, &long, 0), Ok((taken, 1024)) if taken.len() == 1024));
    long.push(b'\x7f')?;
    let too_long = TalkErr::Kind {
        kind: FaultKind::StringTooLong,
    };
    assert!(rt; matches!(got(alloc, &long, 0), Err(e) if e == too_long));
    let bad = TalkErr::Kind {
        kind: FaultKind::BadByte,
    };
    assert!(rt; matches!(got(alloc, &long, 1), Err(e) if e == bad));
    Ok(())
}
