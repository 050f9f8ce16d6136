use crate::Folder;
use gs_disk::{Disk, DiskErr, DiskName};
use std::alloc::Allocator;
use std::cell::Cell;
use std::fs::OpenOptions;
use std::io::ErrorKind;
use std::rt::Files;
use std::test::Fail;
use std::{fs, io};

/// The system, but for a path at which each call fails. At `*` each call fails. Files that are
/// opened are counted.
#[derive(Drop)]
struct Failing<R: Files + Drop> {
    rt: R,
    path: Cell<&'static str>,
    kind: ErrorKind,
    opened: Cell<u32>,
}

impl<R: Files + Drop> Failing<R> {
    fn check(&self, path: &str) -> io::Result<()> {
        let failing = self.path.get();
        if failing == "*" || failing == path {
            return Err(io::Error::from(self.kind));
        }
        Ok(())
    }
}

impl<R: Files + Drop> Files for Failing<R> {
    type File = R::File;

    type Dir = R::Dir;

    fn open_file(&self, how: &OpenOptions, path: &str) -> io::Result<R::File> {
        self.check(path)?;
        self.opened.set(self.opened.get().saturating_add(1));
        self.rt.open_file(how, path)
    }

    fn open_dir(&self, path: &str) -> io::Result<R::Dir> {
        self.check(path)?;
        self.rt.open_dir(path)
    }

    fn metadata(&self, path: &str) -> io::Result<fs::Metadata> {
        self.check(path)?;
        self.rt.metadata(path)
    }

    fn symlink_metadata(&self, path: &str) -> io::Result<fs::Metadata> {
        self.check(path)?;
        self.rt.symlink_metadata(path)
    }

    fn copy(&self, from: &str, to: &str) -> io::Result<u64> {
        self.rt.copy(from, to)
    }

    fn rename(&self, from: &str, to: &str) -> io::Result<()> {
        self.rt.rename(from, to)
    }

    fn remove_file(&self, path: &str) -> io::Result<()> {
        self.check(path)?;
        self.rt.remove_file(path)
    }

    fn create_dir(&self, path: &str) -> io::Result<()> {
        self.rt.create_dir(path)
    }

    fn remove_dir(&self, path: &str) -> io::Result<()> {
        self.rt.remove_dir(path)
    }

    fn remove_dir_all<B: Allocator>(&self, alloc: B, path: &str) -> io::Result<()> {
        self.rt.remove_dir_all(alloc, path)
    }
}

#[test]
fn an_error_of_the_system_keeps_its_kind(rt: HostRuntime) -> Result<(), Fail> {
    let alloc = rt.alloc();
    let name = DiskName::of(b"a");
    let mut buf = [0u8; 4];
    for (kind, want) in [
        (ErrorKind::PermissionDenied, DiskErr::Fault),
        (ErrorKind::OutOfMemory, DiskErr::Memory),
    ] {
        let system = Failing {
            rt: &rt,
            path: Cell::new("*"),
            kind,
            opened: Cell::new(0),
        };
        let mut disk = Folder::here((&system, alloc), alloc);
        assert_eq!(rt; disk.len(&name), Err(want));
        assert_eq!(rt; disk.read_into(&name, 0, &mut buf), Err(want));
        assert_eq!(rt; disk.create(&name), Err(want));
        assert_eq!(rt; disk.write(&name, 0, b"x"), Err(want));
        assert_eq!(rt; disk.remove(&name), Err(want));
        assert!(rt; matches!(disk.names(alloc), Err(e) if e == want));
        assert_eq!(rt; disk.sync(), Err(want));
    }
    Ok(())
}

#[test]
fn a_missing_file_is_absent(rt: HostRuntime) -> Result<(), Fail> {
    let alloc = rt.alloc();
    let name = DiskName::of(b"a");
    let mut buf = [0u8; 4];
    let system = Failing {
        rt: &rt,
        path: Cell::new("*"),
        kind: ErrorKind::NotFound,
        opened: Cell::new(0),
    };
    let mut disk = Folder::here((&system, alloc), alloc);
    assert_eq!(rt; disk.len(&name), Ok(None));
    assert_eq!(rt; disk.read_into(&name, 0, &mut buf), Ok(0));
    assert_eq!(rt; disk.remove(&name), Ok(()));
    assert_eq!(rt; disk.write(&name, 0, b"x"), Err(DiskErr::Fault));
    Ok(())
}

#[test]
fn a_file_is_made_written_read_and_removed(rt: HostRuntime) -> Result<(), Fail> {
    let alloc = rt.alloc();
    let mut disk = Folder::here(&rt, alloc);
    let name = DiskName::of(b".gs.test-of-folder");
    let mut buf = [0u8; 8];
    disk.create(&name)?;
    disk.write(&name, 0, b"abcdef")?;
    disk.write(&name, 2, b"X")?;
    disk.sync()?;
    assert_eq!(rt; disk.len(&name)?, Some(6));
    assert_eq!(rt; disk.read_into(&name, 1, &mut buf)?, 5);
    assert!(rt; &buf[..5] == b"bXdef".as_slice());
    assert_eq!(rt; disk.read_into(&name, 9, &mut buf)?, 0);
    assert!(rt; disk.names(alloc)?.contains(&name));
    disk.remove(&name)?;
    disk.sync()?;
    assert_eq!(rt; disk.len(&name)?, None);
    Ok(())
}

#[test]
fn a_sub_folder_is_absent(rt: HostRuntime) -> Result<(), Fail> {
    let alloc = rt.alloc();
    let mut disk = Folder::here(&rt, alloc);
    let name = DiskName::of(b"sub-folder-of-test");
    let mut buf = [0u8; 4];
    fs::create_dir(&rt, "sub-folder-of-test")?;
    assert_eq!(rt; disk.len(&name), Ok(None));
    assert_eq!(rt; disk.read_into(&name, 0, &mut buf), Ok(0));
    assert_eq!(rt; disk.remove(&name), Ok(()));
    assert!(rt; !disk.names(alloc)?.contains(&name));
    fs::remove_dir(&rt, "sub-folder-of-test")?;
    Ok(())
}

#[test]
fn a_touched_file_may_be_gone_at_sync(rt: HostRuntime) -> Result<(), Fail> {
    let mut disk = Folder::here(&rt, rt.alloc());
    disk.create(&DiskName::of(b"gone-file-of-test"))?;
    fs::remove_file(&rt, "gone-file-of-test")?;
    assert_eq!(rt; disk.sync(), Ok(()));
    Ok(())
}

#[test]
fn a_sync_reaches_what_was_touched(rt: HostRuntime) -> Result<(), Fail> {
    let alloc = rt.alloc();
    let name = DiskName::of(b"synced-file-of-test");
    let system = Failing {
        rt: &rt,
        path: Cell::new(""),
        kind: ErrorKind::PermissionDenied,
        opened: Cell::new(0),
    };
    let mut disk = Folder::here((&system, alloc), alloc);
    system.path.set(".");
    assert_eq!(rt;
        disk.sync(),
        Err(DiskErr::Fault),
        "the names, at the first sync"
    );
    system.path.set("");
    disk.create(&name)?;
    system.path.set("synced-file-of-test");
    assert_eq!(rt; disk.sync(), Err(DiskErr::Fault), "a file that was made");
    system.path.set("");
    disk.sync()?;
    disk.write(&name, 0, b"x")?;
    system.path.set(".");
    assert_eq!(rt; disk.sync(), Ok(()), "no names after a write");
    system.path.set("synced-file-of-test");
    assert_eq!(rt; disk.sync(), Ok(()), "no file that was synced already");
    system.path.set("");
    disk.remove(&name)?;
    system.path.set(".");
    assert_eq!(rt;
        disk.sync(),
        Err(DiskErr::Fault),
        "the names after a removal"
    );
    Ok(())
}

#[test]
fn a_first_sync_reaches_the_store(rt: HostRuntime) -> Result<(), Fail> {
    let alloc = rt.alloc();
    let name = DiskName::of(b".gs.store-file-of-test");
    Folder::here(&rt, alloc).create(&name)?;
    let system = Failing {
        rt: &rt,
        path: Cell::new(".gs.store-file-of-test"),
        kind: ErrorKind::PermissionDenied,
        opened: Cell::new(0),
    };
    let mut disk = Folder::here((&system, alloc), alloc);
    assert_eq!(rt; disk.sync(), Err(DiskErr::Fault));
    system.path.set("");
    disk.sync()?;
    system.path.set(".gs.store-file-of-test");
    assert_eq!(rt; disk.sync(), Ok(()), "only until a sync succeeds");
    system.path.set("");
    disk.remove(&name)?;
    Ok(())
}

#[test]
fn a_file_that_is_written_in_pieces_stays_open(rt: HostRuntime) -> Result<(), Fail> {
    let alloc = rt.alloc();
    let name = DiskName::of(b"file-in-pieces-of-test");
    let system = Failing {
        rt: &rt,
        path: Cell::new(""),
        kind: ErrorKind::PermissionDenied,
        opened: Cell::new(0),
    };
    let mut disk = Folder::here((&system, alloc), alloc);
    let mut buf = [0u8; 3];
    disk.create(&name)?;
    for at in 0..16u64 {
        disk.write(&name, at, b"abc")?;
        assert_eq!(rt; disk.read_into(&name, at, &mut buf)?, 3);
        assert!(rt; &buf == b"abc");
    }
    assert_eq!(rt; system.opened.get(), 3);
    disk.create(&name)?;
    assert_eq!(rt; disk.read_into(&name, 0, &mut buf)?, 0);
    disk.remove(&name)?;
    assert_eq!(rt; disk.read_into(&name, 0, &mut buf)?, 0);
    assert_eq!(rt; disk.write(&name, 0, b"abc"), Err(DiskErr::Fault));
    Ok(())
}
