// Worker lists, and a start after the other over one of 64 workers.
ghost use Rattle.std.specs.Prelude.{◌≡◌, ◌≤◌, ℕ, length, None, IfOk};
ghost use Rattle.gs_policy.specs.Facts.{AreFacts, IsCallable, Answers};
ghost use Rattle.gs_broker.specs.Choice.{AreInRange};
ghost use Rattle.gs_broker.specs.Broker.{job_in, spare_in};

use crate::{Broker, Ready, Workers, WorkersErr, WorkersKind};
use gs_idl::Idl;
use gs_policy::{CostLaw, Flat, Policy, Prices};
use std::alloc::{AllocError, Global};
use std::test::Fail;

const IDL: &[u8] = b"interface K { void join(in File a); void grow(in File a); }";

// The line and the kind of the fault; `None` where the text is read, or memory is wanting.
fn fault_of(alloc: Global, text: &[u8], idl: &Idl) -> Option<(u32, WorkersKind)> {
    match Workers::read(alloc, text, idl) {
        Err(WorkersErr::At { line, kind }) => Some((line, kind)),
        _ => None,
    }
}

#[test]
fn each_fault_has_its_line_and_its_place_in_the_order(rt: HostRuntime) -> Result<(), Fail> {
    let idl = gs_idl::read(rt.alloc(), IDL)?;
    let faults: [(&[u8], u32, WorkersKind); 24] = [
        (b"a 1 p \x01\n", 1, WorkersKind::BadByte),
        (b"a 1 p join\nb 1 p\xff join", 2, WorkersKind::BadByte),
        (b"a 1 p", 1, WorkersKind::BadLine),
        (b"\n\na 1 p#q *", 3, WorkersKind::BadLine),
        (b"a 1 p * *", 1, WorkersKind::BadLine),
        (b"a 1 p join *", 1, WorkersKind::BadLine),
        (b".a 1 p *", 1, WorkersKind::BadName),
        (b"a 1 p *\r\na/b 1 p *", 2, WorkersKind::BadName),
        (b"a 0 p *", 1, WorkersKind::BadSlots),
        (b"a 17 p *", 1, WorkersKind::BadSlots),
        (b"# x\na 01 p *", 2, WorkersKind::BadSlots),
        (b"a 1 p nope", 1, WorkersKind::UnknownOp),
        (b"a 1 p join nope", 1, WorkersKind::UnknownOp),
        (b"a 1 p *\n\na 2 q *", 3, WorkersKind::Twice),
        (b"a 1 p join grow join", 1, WorkersKind::Twice),
        (b"", 0, WorkersKind::Empty),
        (b" \t\r\n# a 1 p *\n", 0, WorkersKind::Empty),
        // On one line, and the first line first.
        (b".a 0 \x7f", 1, WorkersKind::BadByte),
        (b".a 0 p", 1, WorkersKind::BadLine),
        (b".a 0 p nope nope", 1, WorkersKind::BadName),
        (b"a 0 p nope nope", 1, WorkersKind::BadSlots),
        (b"a 1 p *\na 1 p nope nope", 2, WorkersKind::UnknownOp),
        (b"a 1 p *\na 1 p grow grow", 2, WorkersKind::Twice),
        (b"a 1 p *\na 1 p *\n\x01", 2, WorkersKind::Twice),
    ];
    for (text, line, kind) in faults {
        assert!(rt; fault_of(rt.alloc(), text, &idl) == Some((line, kind)));
    }
    Ok(())
}

#[test]
fn a_list_is_read_past_comments_tabs_and_returns(rt: HostRuntime) -> Result<(), Fail> {
    let idl = gs_idl::read(rt.alloc(), IDL)?;
    let text = b"# \x00\xff\n\ta\t16\t./p\tgrow#join\r\n\nb 1 q *";
    let workers = Workers::read(rt.alloc(), text, &idl)?;
    assert!(rt; workers.count() == 2);
    assert!(rt; workers.program(0) == b"./p".as_slice());
    assert!(rt; workers.program(1) == b"q".as_slice());
    assert!(rt; !workers.takes(0, 0));
    assert!(rt; workers.takes(0, 1));
    assert!(rt; workers.takes(1, 0));
    assert!(rt; workers.takes(1, 1));
    assert!(rt; !workers.takes(1, 2));
    assert!(rt; !workers.takes(2, 0));
    Ok(())
}

// A line `a 1 PROGRAM *` with a program of so many bytes.
fn with_program(alloc: Global, length: usize) -> Result<String, AllocError> {
    let mut text = String::from_str(alloc, "a 1 ")?;
    for _ in 0..length {
        text.push('p')?;
    }
    text.push_str(" *")?;
    Ok(text)
}

// So many workers of 16 slots, one on a line.
fn with_workers(alloc: Global, count: usize) -> Result<String, AllocError> {
    let mut text = String::new(alloc);
    for n in 0..count {
        let line = format!(in alloc; "w{n} 16 p *\n")?;
        text.push_str(line.as_str())?;
    }
    Ok(text)
}

#[test]
fn programs_workers_and_texts_have_their_limits(rt: HostRuntime) -> Result<(), Fail> {
    let idl = gs_idl::read(rt.alloc(), IDL)?;
    let short = with_program(rt.alloc(), 200)?;
    let long = with_program(rt.alloc(), 201)?;
    let most = with_workers(rt.alloc(), 64)?;
    let more = with_workers(rt.alloc(), 65)?;
    let endless = with_program(rt.alloc(), 65_531)?;
    let limit = with_program(rt.alloc(), 65_530)?;
    assert!(rt; Workers::read(rt.alloc(), short.as_bytes(), &idl)?.count() == 1);
    assert!(rt; Workers::read(rt.alloc(), most.as_bytes(), &idl)?.count() == 64);
    let too_long = fault_of(rt.alloc(), long.as_bytes(), &idl);
    assert!(rt; too_long == Some((1, WorkersKind::BadLine)));
    let too_many = fault_of(rt.alloc(), more.as_bytes(), &idl);
    assert!(rt; too_many == Some((65, WorkersKind::TooMany)));
    let text_too_long = fault_of(rt.alloc(), endless.as_bytes(), &idl);
    assert!(rt; text_too_long == Some((0, WorkersKind::TooLong)));
    let longest = fault_of(rt.alloc(), limit.as_bytes(), &idl);
    assert!(rt; longest == Some((1, WorkersKind::BadLine)));
    Ok(())
}

// So many tasks of the first operation, from 1 on.
fn tasks(alloc: Global, count: u32) -> Result<Vec<Ready>, AllocError>
    ensures ready { IfOk result (λ v. AreInRange v.items) }
    ensures count { IfOk result (λ v. length v.items ≡ count) }
{
    let mut ready = Vec::new(alloc);
    for n in 0..count {
        ready.push(Ready {
            n: n + 1,
            op: 0,
            bytes: 0,
        })?;
    }
    Ok(ready)
}

// Starts the tasks 1, 2 and so on, each by a choice among those that are left. How many were
// started.
fn start_all<F: Prices, C: CostLaw>(p: &Policy<F, C>, broker: &mut Broker, ready: &[Ready]) -> usize
    requires idle { (m : ℕ) → job_in broker.old m ≡ None }
    requires room { length ready.now ≤ spare_in broker.old }
    requires ready { AreInRange ready.now }
{
    for i in 0..ready.len() {
        match broker.pick(p, &ready[i..]) {
            Some((n, w)) if n as usize == i + 1 => broker.started(n, w),
            _ => return i,
        }
    }
    ready.len()
}

fn start_all_for<F: Prices + Drop, C: CostLaw>(
    f: F,
    law: &C,
    broker: &mut Broker,
    ready: &[Ready],
) -> usize
    requires facts { AreFacts (F.may f) }
    requires callable { IsCallable (F.may f) }
    requires answers { Answers (F.gives f) (C.cost law.now) }
    requires idle { (m : ℕ) → job_in broker.old m ≡ None }
    requires room { length ready.now ≤ spare_in broker.old }
    requires ready { AreInRange ready.now }
{
    let policy = Policy::new(f, law);
    start_all(&policy, broker, ready)
}

fn start_all_for_nothing(broker: &mut Broker, ready: &[Ready]) -> usize
    requires idle { (m : ℕ) → job_in broker.old m ≡ None }
    requires room { length ready.now ≤ spare_in broker.old }
    requires ready { AreInRange ready.now }
{
    start_all_for(
        |_op: u32, _worker: u32, _bytes: u64| -> u64
            ensures { result ≡ 0 }
        { 0 },
        &Flat,
        broker,
        ready,
    )
}

#[test]
fn a_thousand_tasks_start_one_after_the_other(rt: HostRuntime) -> Result<(), Fail> {
    let idl = gs_idl::read(rt.alloc(), IDL)?;
    let text = with_workers(rt.alloc(), 64)?;
    let workers = Workers::read(rt.alloc(), text.as_bytes(), &idl)?;
    let mut broker = Broker::new(rt.alloc(), workers, 3)?;
    broker.reserve(1_000)?;
    let ready = tasks(rt.alloc(), 1_000)?;
    let started = start_all_for_nothing(&mut broker, ready.as_slice());
    assert!(rt; started == 1_000);
    Ok(())
}
