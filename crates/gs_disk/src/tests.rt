ghost use Rattle.std.specs.Prelude.{◌≡◌, [], ◌∷◌, OnOk, Some};

use crate::{Disk, DiskErr, DiskName, Keep, MemDisk, Whole, is_disk_name, read_whole};
use std::alloc::Global;
use std::test::Fail;

fn make<D: Disk>(disk: &mut D, name: &DiskName) -> Result<(), DiskErr>
    ensures { D.tells → OnOk result ((D.state disk.new).folder name.now
        ≡ Some (97 ∷ 98 ∷ 99 ∷ [])) }
{
    disk.create(name)?;
    disk.write(name, 0, b"abc")?;
    disk.sync()?;
    Ok(())
}

#[test]
fn each_call_does_its_work(rt: HostRuntime) -> Result<(), Fail> {
    let alloc = rt.alloc();
    let mut disk = MemDisk::new(alloc);
    let log = DiskName::of(b".gs.log");
    let user = DiskName::of(b"a.txt");
    assert!(rt; is_disk_name(b"a-b_c.9") && !is_disk_name(b"a b"));
    make(&mut disk, &user)?;
    disk.add(log.copy(), b"xy")?;
    assert_eq!(rt; disk.calls(), 3);
    let names = disk.names(alloc)?;
    assert!(rt; names.len() == 2 && names[0] == log && names[1] == user);
    let mut buf = [0u8; 4];
    assert_eq!(rt; disk.read_into(&user, 1, &mut buf)?, 2);
    assert_eq!(rt; buf, [98, 99, 0, 0]);
    disk.remove(&user)?;
    disk.remove(&user)?;
    assert_eq!(rt; disk.len(&user)?, None);
    assert_eq!(rt; disk.len(&log)?, Some(2));
    disk.create(&log)?;
    assert!(rt; disk.get(&log) == Some(b"") && disk.get(&user) == None);
    assert_eq!(rt; disk.calls(), 10);
    Ok(())
}

#[test]
fn a_listed_call_fails_and_does_nothing(rt: HostRuntime) -> Result<(), Fail> {
    let alloc = rt.alloc();
    let mut disk = MemDisk::new(alloc);
    let name = DiskName::of(b"a");
    make(&mut disk, &name)?;
    disk.fail_at(vec![in alloc; 2, 4]?);
    disk.sync()?;
    assert_eq!(rt; disk.remove(&name), Err(DiskErr::Fault));
    assert!(rt; disk.get(&name) == Some(b"abc"));
    disk.remove(&name)?;
    assert_eq!(rt; disk.create(&name), Err(DiskErr::Fault));
    assert!(rt; disk.get(&name) == None);
    disk.create(&name)?;
    Ok(())
}

#[test]
fn a_write_overwrites_and_lengthens(rt: HostRuntime) -> Result<(), Fail> {
    let alloc = rt.alloc();
    let mut disk = MemDisk::new(alloc);
    let name = DiskName::of(b"a");
    make(&mut disk, &name)?;
    disk.write(&name, 1, b"X")?;
    assert!(rt; disk.get(&name) == Some(b"aXc"));
    disk.write(&name, 2, b"YZ")?;
    assert!(rt; disk.get(&name) == Some(b"aXYZ"));
    disk.write(&name, 4, b"!")?;
    assert!(rt; disk.get(&name) == Some(b"aXYZ!"));
    Ok(())
}

#[test]
fn a_file_is_read_whole_up_to_the_limit(rt: HostRuntime) -> Result<(), Fail> {
    let alloc = rt.alloc();
    let mut disk = MemDisk::new(alloc);
    let name = DiskName::of(b"a");
    let mut into = vec![in alloc; 7u8]?;
    assert_eq!(rt;
        read_whole(alloc, &mut disk, &name, 9, &mut into)?,
        Whole::Absent
    );
    disk.add(name.copy(), b"abc")?;
    assert_eq!(rt;
        read_whole(alloc, &mut disk, &name, 2, &mut into)?,
        Whole::TooLong { len: 3 }
    );
    assert!(rt; into.as_slice() == [7].as_slice());
    for limit in [3, 4] {
        assert_eq!(rt;
            read_whole(alloc, &mut disk, &name, limit, &mut into)?,
            Whole::Read { len: 3 }
        );
        assert!(rt; into.as_slice() == b"abc".as_slice(), "at {limit}");
    }
    Ok(())
}

/// `a` is synced, and then written past its end; `b` is created.
fn half_synced(alloc: Global) -> Result<MemDisk, DiskErr> {
    let mut disk = MemDisk::new(alloc);
    disk.add(DiskName::of(b"a"), b"abc")?;
    disk.write(&DiskName::of(b"a"), 1, b"XYZ")?;
    disk.create(&DiskName::of(b"b"))?;
    Ok(disk)
}

/// What a crash leaves of `a` and `b`.
fn is_left(alloc: Global, keep: Keep, a: Option<&[u8]>, b: Option<&[u8]>) -> Result<bool, DiskErr> {
    let left = half_synced(alloc)?.crash(keep)?;
    Ok(left.get(&DiskName::of(b"a")) == a && left.get(&DiskName::of(b"b")) == b)
}

#[test]
fn a_crash_leaves_what_is_to_be_kept(rt: HostRuntime) -> Result<(), Fail> {
    let alloc = rt.alloc();
    assert!(rt; is_left(alloc, Keep::Nothing, Some(b"abc"), None)?);
    assert!(rt; is_left(alloc, Keep::All, Some(b"aXYZ"), Some(b""))?);
    assert!(rt;
        is_left(
            alloc,
            Keep::Byte { b: 7 },
            Some(b"a\x07\x07\x07"),
            Some(b"\x07")
        )?
    );
    Ok(())
}

/// What a crash leaves of the synced `abc` where its removal was the first call that didn't work.
fn left_of_removal(alloc: Global, keep: Keep) -> Result<MemDisk, DiskErr> {
    let a = DiskName::of(b"a");
    let mut disk = MemDisk::new(alloc);
    disk.add(a.copy(), b"abc")?;
    disk.stop_after(0);
    let _ = disk.remove(&a);
    disk.crash(keep)
}

#[test]
fn a_stopped_removal_may_have_been_done(rt: HostRuntime) -> Result<(), Fail> {
    let alloc = rt.alloc();
    let a = DiskName::of(b"a");
    assert!(rt; left_of_removal(alloc, Keep::Nothing)?.get(&a) == Some(b"abc"));
    assert!(rt; left_of_removal(alloc, Keep::All)?.get(&a) == Some(b"abc"));
    assert!(rt; left_of_removal(alloc, Keep::Byte { b: 7 })?.get(&a) == Some(b"\x07"));
    Ok(())
}

#[test]
fn a_failed_sync_settles_nothing(rt: HostRuntime) -> Result<(), Fail> {
    let alloc = rt.alloc();
    let mut disk = half_synced(alloc)?;
    disk.fail_at(vec![in alloc; 1]?);
    assert_eq!(rt; disk.sync(), Err(DiskErr::Fault));
    let left = disk.crash(Keep::Nothing)?;
    assert!(rt; left.get(&DiskName::of(b"a")) == Some(b"abc"));
    assert!(rt; left.get(&DiskName::of(b"b")) == None);
    Ok(())
}

#[test]
fn a_file_that_is_added_settles_no_other(rt: HostRuntime) -> Result<(), Fail> {
    let alloc = rt.alloc();
    let (a, b) = (DiskName::of(b"a"), DiskName::of(b"b"));
    for (keep, want) in [
        (Keep::Nothing, b"abc".as_slice()),
        (Keep::All, b"aXYZ"),
        (Keep::Byte { b: 7 }, b"a\x07\x07\x07"),
    ] {
        let mut disk = half_synced(alloc)?;
        disk.add(b.copy(), b"new")?;
        let left = disk.crash(keep)?;
        assert!(rt; left.get(&a) == Some(want) && left.get(&b) == Some(b"new"));
    }
    Ok(())
}

#[test]
fn a_stop_leaves_a_call_in_progress(rt: HostRuntime) -> Result<(), Fail> {
    let alloc = rt.alloc();
    let a = DiskName::of(b"a");
    let mut disk = MemDisk::new(alloc);
    disk.add(a.copy(), b"abcd")?;
    disk.stop_after(1);
    assert_eq!(rt; disk.len(&a)?, Some(4));
    assert_eq!(rt; disk.write(&a, 1, b"XY"), Err(DiskErr::Fault));
    assert_eq!(rt; disk.sync(), Err(DiskErr::Fault));
    assert!(rt; disk.get(&a) == Some(b"abcd"));
    let left = disk.crash(Keep::Byte { b: 7 })?;
    assert!(rt; left.get(&a) == Some(b"a\x07\x07d") && left.calls() == 0);
    Ok(())
}
