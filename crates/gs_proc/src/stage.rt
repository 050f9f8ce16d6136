// The staging folder, through which files go to tasks and come back.
ghost use Rattle.std.specs.Prelude.{◌≡◌, ◌≤◌, IfOk, string_bytes, vec_len};
ghost use Rattle.gs_proc.specs.Places.{is_staged};
ghost use Rattle.gs_proc.specs.Words.{stage_path};

use crate::call::{Call, Place};
use crate::trouble::Trouble;
use std::alloc::{AllocError, Global};
use std::fs::File;
use std::io::{ErrorKind, Read};
use std::rt::Files;
use std::{fs, io};

/// The name of the file at a place of a task, both from 1: `.gs.stage/TASK.PLACE`.
pub(crate) fn path_of(alloc: Global, n: u32, place: usize) -> Result<String, AllocError>
    ensures { IfOk result (λ path. string_bytes path ≡ stage_path n place) }
{
    format!(in alloc; ".gs.stage/{n}.{place}")
}

/// Makes the folder where it is missing.
pub(crate) fn make_folder<R: Files>(rt: &R) -> io::Result<()> {
    match fs::create_dir(rt, ".gs.stage") {
        Err(error) if error.kind() != ErrorKind::AlreadyExists => Err(error),
        _ => Ok(()),
    }
}

/// Removes a file, where there is one.
pub(crate) fn remove<R: Files>(rt: &R, path: &str) -> io::Result<()> {
    match fs::remove_file(rt, path) {
        Err(error) if error.kind() != ErrorKind::NotFound => Err(error),
        _ => Ok(()),
    }
}

/// Writes a file anew.
pub(crate) fn put<R: Files>(rt: &R, path: &str, bytes: &[u8]) -> io::Result<()> {
    remove(rt, path)?;
    fs::write(rt, path, bytes)
}

/// Reads a file of at most `limit` bytes. A longer one, or anything that is no file, is a failure.
pub(crate) fn take<R: Files>(
    rt: &R,
    alloc: Global,
    path: &str,
    limit: usize,
) -> Result<Vec<u8>, Trouble>
    ensures { IfOk result (λ bytes. vec_len bytes ≤ limit) }
{
    let metadata = fs::metadata(rt, path)?;
    if !metadata.is_file() {
        return Err(Trouble::Failed);
    }
    let len = match usize::try_from(metadata.len()) {
        Ok(len) if len <= limit => len,
        _ => return Err(Trouble::Failed),
    };
    let mut bytes = vec![in alloc; 0u8; len]?;
    let mut file = File::open(rt, path)?;
    file.read_exact(&mut bytes)?;
    Ok(bytes)
}

// Whether a place has a file of the folder.
fn is_staged(place: Place) -> bool
    ensures { result ≡ is_staged place }
{
    !matches!(place, Place::Word)
}

/// Removes what is left of a task's files. One that can't be removed stays.
pub(crate) fn clear<R: Files>(rt: &R, alloc: Global, call: &Call) {
    for (i, place) in call.places().iter().enumerate() {
        if is_staged(*place) {
            if let Ok(path) = path_of(alloc, call.n(), i + 1) {
                let _ = remove(rt, path.as_str());
            }
        }
    }
}
