//! Orders of small programs, and of a long one.

use crate::{Handed, Order, Orders, orders_of};
use gs_idl::read;
use gs_tree::{Argument, Assign, Expr, Ident, NoMemory, Stmt, Tree};
use gs_types::Blob;
use std::alloc::{AllocError, Global};
use std::test::Fail;

const KIT: &[u8] = b"interface K { void count(in File f, out int n); };";

fn ident(alloc: Global, line: u32, name: &[u8]) -> Result<Ident, AllocError> {
    Ok(Ident {
        line,
        name: name.to_vec(alloc)?,
    })
}

// `n = 7` on this line.
fn assign(alloc: Global, line: u32) -> Result<Assign, AllocError> {
    Ok(Assign {
        to: ident(alloc, line, b"n")?,
        value: Expr::Num { line, v: 7 },
    })
}

fn n(alloc: Global, line: u32) -> Result<Expr, AllocError> {
    Ok(Expr::Name {
        id: ident(alloc, line, b"n")?,
    })
}

fn one(alloc: Global, s: Stmt) -> Result<Vec<Stmt>, AllocError> {
    let mut body = Vec::new(alloc);
    body.push(s)?;
    Ok(body)
}

// The orders of a program with the variable `n`, this body, and `GS_Off` on line 9.
fn orders(alloc: Global, body: Vec<Stmt>) -> Result<Orders, Fail> {
    let idl = read(alloc, KIT)?;
    let mut names = Vec::new(alloc);
    names.push(Blob::copy(alloc, b"n")?)?;
    let tree = Tree {
        vars: Vec::new(alloc),
        first: Vec::new(alloc),
        body,
        off: 9,
    };
    Ok(orders_of(alloc, &tree, &idl, &names)?)
}

// Where a test goes on: where it isn't 0, and where it is.
fn ways(o: &Order) -> Option<(usize, usize)> {
    match o {
        Order::Test { yes, no, .. } => Some((*yes, *no)),
        _ => None,
    }
}

// Where an assignment goes on, by its line.
fn after(o: &Order) -> Option<(u32, usize)> {
    match o {
        Order::Set { line, next, .. } => Some((*line, *next)),
        _ => None,
    }
}

#[test]
fn a_while_comes_back_to_its_test(rt: HostRuntime) -> Result<(), Fail> {
    let alloc = rt.alloc();
    let body = one(
        alloc,
        Stmt::Set {
            a: assign(alloc, 4)?,
        },
    )?;
    let cond = n(alloc, 3)?;
    let body = one(
        alloc,
        Stmt::While {
            line: 3,
            cond,
            body,
        },
    )?;
    let made = orders(alloc, body)?;
    assert!(rt; made.list.len() == 4 && made.start == 3);
    assert!(rt; ways(&made.list[1]) == Some((2, 0)));
    assert!(rt; after(&made.list[2]) == Some((4, 1)));
    Ok(())
}

#[test]
fn a_for_takes_its_step_before_its_test(rt: HostRuntime) -> Result<(), Fail> {
    let alloc = rt.alloc();
    let body = one(
        alloc,
        Stmt::Set {
            a: assign(alloc, 5)?,
        },
    )?;
    let made = orders(
        alloc,
        one(
            alloc,
            Stmt::For {
                line: 3,
                first: Some(assign(alloc, 3)?),
                cond: None,
                step: Some(assign(alloc, 4)?),
                body,
            },
        )?,
    )?;
    assert!(rt; made.list.len() == 6 && made.start == 5);
    assert!(rt; ways(&made.list[1]) == Some((3, 0)));
    assert!(rt; after(&made.list[2]) == Some((4, 1)));
    assert!(rt; after(&made.list[3]) == Some((5, 2)));
    assert!(rt; after(&made.list[4]) == Some((3, 1)));
    Ok(())
}

#[test]
fn a_call_hands_over_a_value_and_takes_an_output(rt: HostRuntime) -> Result<(), Fail> {
    let alloc = rt.alloc();
    let mut args = Vec::new(alloc);
    let s = b"F".to_vec(alloc)?;
    args.push(Argument {
        line: 3,
        by_address: false,
        e: Expr::Lit { line: 3, s },
    })?;
    args.push(Argument {
        line: 3,
        by_address: true,
        e: n(alloc, 3)?,
    })?;
    let op = ident(alloc, 3, b"count")?;
    let made = orders(alloc, one(alloc, Stmt::Call { op, args })?)?;
    assert!(rt; made.list.len() == 3);
    let mut held = false;
    if let Order::Call { op, args, next, .. } = &made.list[1] {
        if let [Handed::ByValue { .. }, Handed::Into { i }] = args.as_slice() {
            held = *op == 0 && *next == 0 && *i == 0;
        }
    }
    assert!(rt; held);
    Ok(())
}

#[test]
fn ten_thousand_statements_in_their_order(rt: HostRuntime) -> Result<(), Fail> {
    let alloc = rt.alloc();
    let mut body = Vec::new(alloc);
    for line in 1..10_001u32 {
        body.push(Stmt::Set {
            a: assign(alloc, line)?,
        })?;
    }
    let made = orders(alloc, body)?;
    assert!(rt; made.list.len() == 10_002);
    assert!(rt; after(&made.list[10_000]) == Some((1, 9_999)));
    assert!(rt; after(&made.list[1]) == Some((10_000, 0)));
    Ok(())
}
