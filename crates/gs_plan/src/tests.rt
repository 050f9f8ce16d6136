use crate::{DurErr, DurKind, PLAN_SLOTS, durations, fits, plan, text};
use gs_idl::Idl;
use gs_types::{Action, Blob, Sequence};
use std::alloc::{AllocError, Global};
use std::test::Fail;

fn kit(alloc: Global) -> Result<Idl, Fail> {
    let idl = gs_idl::read(
        alloc,
        b"interface KIT {
            void join(in File a, in File b, out File c);
            void grow(inout File f, in string s);
            void count(in File f, out int n);
        };",
    )?;
    Ok(idl)
}

fn study(alloc: Global) -> Result<Idl, Fail> {
    let idl = gs_idl::read(
        alloc,
        b"interface STUDY {
            void subst(in File cfg, in int v, out File job);
            void simulate(in File job, out File res);
            void post(in File res, inout File all);
        };",
    )?;
    Ok(idl)
}

fn names(alloc: Global, from: &[u32]) -> Result<Sequence<u32>, AllocError> {
    Ok(Sequence::of(from.to_vec(alloc)?))
}

fn call(
    alloc: Global,
    n: u32,
    op: u8,
    reads: &[u32],
    writes: &[u32],
) -> Result<Action, AllocError> {
    Ok(Action::Call {
        n,
        op,
        reads: names(alloc, reads)?,
        writes: names(alloc, writes)?,
    })
}

// The text of the plan, where the actions fit.
fn planned(
    alloc: Global,
    actions: &Vec<Action>,
    idl: &Idl,
    bytes: &[u8],
    slots: u32,
) -> Result<Option<Blob>, Fail> {
    let durations = durations(alloc, bytes, idl)?;
    let ops = idl.op_count();
    if slots < 1 || slots > PLAN_SLOTS || !fits(actions.as_slice(), ops) {
        return Ok(None);
    }
    let plan = plan(alloc, actions.as_slice(), durations.as_slice(), slots)?;
    Ok(Some(text(alloc, &plan)?))
}

#[test]
fn a_study_of_three_values_on_two_slots(rt: HostRuntime) -> Result<(), Fail> {
    let alloc = rt.alloc();
    let mut actions = Vec::new(alloc);
    for i in 0..3 {
        actions.push(call(alloc, 3 * i + 1, 0, &[0], &[1])?)?;
        actions.push(call(alloc, 3 * i + 2, 1, &[1], &[2])?)?;
        actions.push(call(alloc, 3 * i + 3, 2, &[2, 3], &[3])?)?;
    }
    actions.push(Action::End)?;
    let idl = study(alloc)?;
    let text = planned(
        alloc,
        &actions,
        &idl,
        b"subst 1\nsimulate 4 # long\n\npost 2",
        2,
    )?;
    let text = text.ok_or("the actions fit")?;
    let wanted = b"task 1 slot 0 start 0 end 1
task 2 slot 0 start 1 end 5
task 3 slot 0 start 5 end 7
task 4 slot 1 start 0 end 1
task 5 slot 1 start 1 end 5
task 6 slot 0 start 7 end 9
task 7 slot 1 start 5 end 6
task 8 slot 1 start 6 end 10
task 9 slot 0 start 10 end 12
end 12
work 21
chain 7 8 9
length 7
";
    assert_eq!(rt; text.bytes(), wanted.as_slice());
    Ok(())
}

#[test]
fn tasks_that_wait_for_each_other_stay_on_one_slot(rt: HostRuntime) -> Result<(), Fail> {
    let alloc = rt.alloc();
    let mut actions = Vec::new(alloc);
    actions.push(call(alloc, 1, 1, &[0], &[0])?)?;
    actions.push(call(alloc, 2, 1, &[0], &[0])?)?;
    actions.push(call(alloc, 3, 2, &[0], &[])?)?;
    actions.push(Action::Use { n: 3, place: 2 })?;
    actions.push(Action::End)?;
    let idl = kit(alloc)?;
    let text = planned(alloc, &actions, &idl, b"", 3)?.ok_or("the actions fit")?;
    let wanted = b"task 1 slot 0 start 0 end 1
task 2 slot 0 start 1 end 2
task 3 slot 0 start 2 end 3
end 3
work 3
chain 1 2 3
length 3
";
    assert_eq!(rt; text.bytes(), wanted.as_slice());
    Ok(())
}

#[test]
fn a_run_without_tasks_has_an_empty_chain(rt: HostRuntime) -> Result<(), Fail> {
    let alloc = rt.alloc();
    let mut actions = Vec::new(alloc);
    actions.push(Action::End)?;
    let idl = kit(alloc)?;
    let text = planned(alloc, &actions, &idl, b"", 3)?.ok_or("the actions fit")?;
    assert_eq!(rt;
        text.bytes(),
        b"end 0\nwork 0\nchain\nlength 0\n".as_slice()
    );
    Ok(())
}

#[test]
fn what_is_needed_ends_before_what_comes_behind(rt: HostRuntime) -> Result<(), Fail> {
    let alloc = rt.alloc();
    let mut actions = Vec::new(alloc);
    actions.push(call(alloc, 1, 2, &[0], &[])?)?;
    actions.push(call(alloc, 2, 0, &[1, 2], &[3])?)?;
    actions.push(Action::Use { n: 1, place: 2 })?;
    actions.push(call(alloc, 3, 1, &[4], &[4])?)?;
    actions.push(Action::Read { name: 3 })?;
    actions.push(Action::Write { name: 4 })?;
    actions.push(call(alloc, 4, 1, &[4], &[4])?)?;
    actions.push(Action::Barrier)?;
    actions.push(call(alloc, 5, 1, &[5], &[5])?)?;
    actions.push(Action::End)?;
    let idl = kit(alloc)?;
    let text = planned(alloc, &actions, &idl, b"join 5\ncount 3\ngrow 2", 3)?;
    let text = text.ok_or("the actions fit")?;
    let wanted = b"task 1 slot 0 start 0 end 3
task 2 slot 1 start 0 end 5
task 3 slot 0 start 3 end 5
task 4 slot 0 start 5 end 7
task 5 slot 0 start 7 end 9
end 9
work 14
chain 2 4 5
length 9
";
    assert_eq!(rt; text.bytes(), wanted.as_slice());
    Ok(())
}

fn kind_at(alloc: Global, idl: &Idl, bytes: &[u8]) -> Result<Option<(u32, DurKind)>, Fail> {
    match durations(alloc, bytes, idl) {
        Ok(_) => Ok(None),
        Err(DurErr::At { line, kind }) => Ok(Some((line, kind))),
        Err(DurErr::NoMemory) => Err(Fail::from("no memory")),
    }
}

#[test]
fn each_fault_of_a_durations_file_has_its_line(rt: HostRuntime) -> Result<(), Fail> {
    let alloc = rt.alloc();
    let idl = kit(alloc)?;
    assert_eq!(rt;
        kind_at(alloc, &idl, b"join 1\n\x01")?,
        Some((2, DurKind::BadByte))
    );
    assert_eq!(rt;
        kind_at(alloc, &idl, b"\n\njoin")?,
        Some((3, DurKind::BadLine))
    );
    assert_eq!(rt;
        kind_at(alloc, &idl, b"join 1 2")?,
        Some((1, DurKind::BadLine))
    );
    assert_eq!(rt;
        kind_at(alloc, &idl, b"* 1")?,
        Some((1, DurKind::UnknownOp))
    );
    assert_eq!(rt;
        kind_at(alloc, &idl, b"join 01")?,
        Some((1, DurKind::BadNumber))
    );
    assert_eq!(rt;
        kind_at(alloc, &idl, b"join +1")?,
        Some((1, DurKind::BadNumber))
    );
    assert_eq!(rt;
        kind_at(alloc, &idl, b"join 0")?,
        Some((1, DurKind::BadNumber))
    );
    assert_eq!(rt;
        kind_at(alloc, &idl, b"join 1000001")?,
        Some((1, DurKind::BadNumber))
    );
    assert_eq!(rt;
        kind_at(alloc, &idl, b"join 1\njoin 2")?,
        Some((2, DurKind::Twice))
    );
    assert_eq!(rt; kind_at(alloc, &idl, b"join 1000000 # 2\r\n")?, None);
    let long = vec![in alloc; b'\n'; 65_537]?;
    assert_eq!(rt;
        kind_at(alloc, &idl, long.as_slice())?,
        Some((0, DurKind::TooLong))
    );
    Ok(())
}

fn draw(x: &mut u64) -> u64 {
    *x = x
        .wrapping_mul(6_364_136_223_846_793_005)
        .wrapping_add(1_442_695_040_888_963_407);
    *x >> 32
}

// Each task reads what two earlier ones wrote, at random, and some wait for all.
fn random_run(alloc: Global, tasks: u32) -> Result<Vec<Action>, AllocError> {
    let mut x = 7;
    let mut actions = Vec::new(alloc);
    for n in 0..tasks {
        let a = (draw(&mut x) % (n as u64 + 1)) as u32;
        let b = (draw(&mut x) % (n as u64 + 1)) as u32;
        let op = (draw(&mut x) % 3) as u8;
        actions.push(call(alloc, n + 1, op, &[a, b], &[n])?)?;
        if draw(&mut x) % 500 == 0 {
            actions.push(Action::Barrier)?;
        }
    }
    actions.push(Action::End)?;
    Ok(actions)
}

fn plan_of(alloc: Global, tasks: u32) -> Result<Blob, Fail> {
    let actions = random_run(alloc, tasks)?;
    let idl = kit(alloc)?;
    let text = planned(
        alloc,
        &actions,
        &idl,
        b"join 3\ncount 50\ngrow 1000",
        PLAN_SLOTS,
    )?;
    Ok(text.ok_or("the actions fit")?)
}

#[test]
fn a_thousand_tasks_are_planned(rt: HostRuntime) -> Result<(), Fail> {
    assert_eq!(rt; plan_of(rt.alloc(), 1_000)?.bytes().is_empty(), false);
    Ok(())
}

#[test]
fn ten_thousand_tasks_are_planned(rt: HostRuntime) -> Result<(), Fail> {
    assert_eq!(rt; plan_of(rt.alloc(), 10_000)?.bytes().is_empty(), false);
    Ok(())
}
