// What std does with the files of the current directory. Only what `metadata` calls a file counts
// as one: a sub-folder or a pipe of such a name is absent.
ghost use Rattle.std.specs.Prelude.{◌≤◌, IfOk, length};

use gs_disk::{DiskName, is_disk_name};
use std::alloc::Global;
use std::fs::{File, OpenFile, OpenOptions};
use std::io::{ErrorKind, Read, Seek, SeekFrom, Write};
use std::rt::Files;
use std::{fs, io, str};

fn path_of(name: &DiskName) -> io::Result<&str> {
    match str::from_utf8(name.bytes()) {
        Ok(path) => Ok(path),
        Err(_) => Err(io::Error::from(ErrorKind::InvalidFilename)),
    }
}

/// The length of a file in bytes, or `None` where it is absent.
pub fn len<R: Files>(rt: &R, name: &DiskName) -> io::Result<Option<u64>> {
    match fs::metadata(rt, path_of(name)?) {
        Ok(metadata) if metadata.is_file() => Ok(Some(metadata.len())),
        Ok(_) => Ok(None),
        Err(e) if e.kind() == ErrorKind::NotFound => Ok(None),
        Err(e) => Err(e),
    }
}

/// The file, open to be read, or `None` where it is absent.
fn open_file<R: Files>(rt: &R, name: &DiskName) -> io::Result<Option<R::File>> {
    if len(rt, name)?.is_none() {
        return Ok(None);
    }
    match File::open(rt, path_of(name)?) {
        Ok(file) => Ok(Some(file)),
        Err(e) if e.kind() == ErrorKind::NotFound => Ok(None),
        Err(e) => Err(e),
    }
}

/// A file that stays open, and where it is read or written next.
#[derive(Drop)]
pub struct Open<F: Drop> {
    name: DiskName,
    file: F,
    at: u64,
}

impl<F: Seek + Drop> Open<F> {
    fn go_to(&mut self, at: u64) -> io::Result<()> {
        if self.at != at {
            self.file.seek(SeekFrom::Start(at))?;
            self.at = at;
        }
        Ok(())
    }
}

/// Closes the file where it is one of this name.
pub fn close<F: Drop>(kept: &mut Option<Open<F>>, name: &DiskName) {
    if let Some(open) = kept {
        if open.name == *name {
            *kept = None;
        }
    }
}

/// Fills the buffer from its front, as far as the file goes.
fn fill<F: Read>(file: &mut F, buf: &mut [u8]) -> io::Result<usize>
    ensures { IfOk result (λ n. n ≤ length buf.old) }
{
    let mut done = 0;
    while done < buf.len() {
        match file.read(&mut buf[done..])? {
            0 => return Ok(done),
            n => done += n,
        }
    }
    Ok(done)
}

/// The file, open to be read, which it may be already; `None` where it is absent.
fn reader<R: Files>(
    rt: &R,
    kept: Option<Open<R::File>>,
    name: &DiskName,
) -> io::Result<Option<Open<R::File>>> {
    if let Some(open) = kept {
        if open.name == *name {
            return Ok(Some(open));
        }
    }
    match open_file(rt, name)? {
        Some(file) => Ok(Some(Open {
            name: name.copy(),
            file,
            at: 0,
        })),
        None => Ok(None),
    }
}

/// The file, open to be written, which it may be already. It has to be there.
fn writer<R: Files>(
    rt: &R,
    kept: Option<Open<R::File>>,
    name: &DiskName,
) -> io::Result<Open<R::File>> {
    if let Some(open) = kept {
        if open.name == *name {
            return Ok(open);
        }
    }
    Ok(Open {
        name: name.copy(),
        file: OpenOptions::new().write(true).open(rt, path_of(name)?)?,
        at: 0,
    })
}

/// Reads from the offset `at` on to the buffer's front, as much as there is and fits. The file is
/// kept open; where this fails, none is.
pub fn read_at<R: Files>(
    rt: &R,
    kept: &mut Option<Open<R::File>>,
    name: &DiskName,
    at: u64,
    buf: &mut [u8],
) -> io::Result<usize>
    ensures { IfOk result (λ n. n ≤ length buf.old) }
{
    let Some(mut open) = reader(rt, kept.take(), name)? else {
        return Ok(0);
    };
    open.go_to(at)?;
    let done = fill(&mut open.file, buf)?;
    open.at = at.saturating_add(done as u64);
    *kept = Some(open);
    Ok(done)
}

pub fn create<R: Files>(rt: &R, name: &DiskName) -> io::Result<()> {
    File::create(rt, path_of(name)?)?;
    Ok(())
}

/// Writes from the offset `at` on. The file has to be there. It is kept open; where this fails,
/// none is.
pub fn write_at<R: Files>(
    rt: &R,
    kept: &mut Option<Open<R::File>>,
    name: &DiskName,
    at: u64,
    bytes: &[u8],
) -> io::Result<()> {
    let mut open = writer(rt, kept.take(), name)?;
    open.go_to(at)?;
    open.file.write_all(bytes)?;
    open.at = at.saturating_add(bytes.len() as u64);
    *kept = Some(open);
    Ok(())
}

/// Takes a file away. It may be gone already.
pub fn remove<R: Files>(rt: &R, name: &DiskName) -> io::Result<()> {
    match fs::remove_file(rt, path_of(name)?) {
        Ok(()) => Ok(()),
        Err(e) if e.kind() == ErrorKind::NotFound => Ok(()),
        Err(e) => Err(e),
    }
}

/// The files whose names begin so, in rising order.
pub fn names<R: Files + AllocGlobal + Clone>(
    rt: &R,
    alloc: Global,
    beginning: &[u8],
) -> io::Result<Vec<DiskName>> {
    let mut names = Vec::new(alloc);
    for entry in fs::read_dir(rt, ".")? {
        let entry = entry?;
        let bytes = entry.file_name().as_bytes();
        if bytes.starts_with(beginning) && is_disk_name(bytes) {
            let name = DiskName::of(bytes);
            if len(rt, &name)?.is_some() {
                names.push(name)?;
            }
        }
    }
    names.sort()?;
    Ok(names)
}

/// Has the system bring a file to the disk. It may be gone.
pub fn sync<R: Files>(rt: &R, name: &DiskName) -> io::Result<()> {
    match open_file(rt, name)? {
        Some(file) => file.sync_all(),
        None => Ok(()),
    }
}

/// Has the system bring the names of the folder to the disk.
pub fn sync_names<R: Files>(rt: &R) -> io::Result<()> {
    File::open(rt, ".")?.sync_all()
}
