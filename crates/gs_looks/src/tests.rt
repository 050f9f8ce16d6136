// What stands against calls.
use crate::{Judged, Looks, Seen, judge};
use gs_idl::{Idl, read};
use gs_names::NameTable;
use gs_talk::CallArg;
use gs_types::{Name, Version};
use std::alloc::Global;
use std::test::Fail;

fn join_of(alloc: Global) -> Result<Idl, Fail> {
    Ok(read(
        alloc,
        b"interface K { void join(in File a, inout File b, out File c); };",
    )?)
}

// `join("A", "B", "C")`
fn files(alloc: Global) -> Result<Vec<CallArg>, Fail> {
    let mut args = Vec::new(alloc);
    args.push(CallArg::File {
        name: Name::read(b"A")?,
    })?;
    args.push(CallArg::File {
        name: Name::read(b"B")?,
    })?;
    args.push(CallArg::File {
        name: Name::read(b"C")?,
    })?;
    Ok(args)
}

// `A` and then `B` are looked at, and `C` never.
#[test]
fn originals_are_looked_at_from_the_left(rt: HostRuntime) -> Result<(), Fail> {
    let alloc = rt.alloc();
    let idl = join_of(alloc)?;
    let args = files(alloc)?;
    let a = Name::read(b"A")?;
    let b = Name::read(b"B")?;
    let table = NameTable::new(alloc);
    let mut looks = Looks::new(alloc);
    let first = judge(&table, &looks, &[], &idl, 0, &args);
    assert!(rt; matches!(&first, Judged::Unseen { name } if *name == a));
    looks.add(a, Seen::Len { len: 3 })?;
    let second = judge(&table, &looks, &[], &idl, 0, &args);
    assert!(rt; matches!(&second, Judged::Unseen { name } if *name == b));
    looks.add(b, Seen::TooLong)?;
    assert!(rt; matches!(judge(&table, &looks, &[], &idl, 0, &args), Judged::TooLong));
    looks.clear();
    assert!(rt;
        matches!(
            judge(&table, &looks, &[], &idl, 0, &args),
            Judged::Unseen { .. }
        )
    );
    Ok(())
}

// What a task leaves isn't looked at; a content of the program goes by its length.
#[test]
fn outputs_are_not_looked_at(rt: HostRuntime) -> Result<(), Fail> {
    let alloc = rt.alloc();
    let idl = join_of(alloc)?;
    let args = files(alloc)?;
    let mut table = NameTable::new(alloc);
    table.reserve(2)?;
    table.write(&Name::read(b"A")?, Version::Out { n: 1, place: 3 });
    table.write(&Name::read(b"B")?, Version::Main { k: 2 });
    let looks = Looks::new(alloc);
    assert!(rt;
        matches!(
            judge(&table, &looks, &[1, 16_777_216], &idl, 0, &args),
            Judged::Fine
        )
    );
    assert!(rt;
        matches!(
            judge(&table, &looks, &[1, 16_777_217], &idl, 0, &args),
            Judged::TooLong
        )
    );
    assert!(rt; matches!(judge(&table, &looks, &[1], &idl, 0, &args), Judged::Absent));
    Ok(())
}
