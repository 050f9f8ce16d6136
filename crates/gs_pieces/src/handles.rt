// Handles by their places.
ghost use Rattle.std.specs.Prelude.{◌≡◌, Some, None, set, slice_get, length, OnOk, option_copied, option_map, count_by, is_some, bytes_eq};
ghost use Rattle.std.specs.List.{list_any};
ghost use Rattle.gs_talk.specs.Talk as talk;

use crate::open_file::Opened;
use gs_types::{Name, NoMemory};

/// What is open at a handle.
pub fn opened_at(handles: &[Option<Opened>], i: usize) -> Option<&Opened>
    ensures { option_copied result ≡ talk.opened_by (slice_get handles.now i) }
{
    match handles.get(i) {
        Some(Some(h)) => Some(h),
        Some(None) => None,
        None => None,
    }
}

/// Something is open at a handle.
pub fn is_open(handles: &[Option<Opened>], i: usize) -> bool
    ensures { result ≡ is_some (talk.opened_by (slice_get handles.now i)) }
{
    match opened_at(handles, i) {
        Some(_) => true,
        None => false,
    }
}

/// Puts bytes behind the content of the file that is open at a handle. The only error is want of
/// memory.
pub fn append(handles: &mut Vec<Option<Opened>>, i: usize, out: &[u8]) -> Result<(), NoMemory>
    ensures { (h : talk.Opened) → talk.opened_by (slice_get handles.old.items i) ≡ Some h →
        OnOk result (handles.new.items
        ≡ set handles.old.items i (Some (talk.appended out.now h))) }
{
    if i < handles.len() {
        if let Some(h) = &mut handles[i] {
            h.append(out)?;
        }
    }
    Ok(())
}

/// The file that is open at a handle was read as far as this place.
pub fn go_to(handles: &mut Vec<Option<Opened>>, i: usize, next: usize)
    ensures { (h : talk.Opened) → talk.opened_by (slice_get handles.old.items i) ≡ Some h →
        handles.new.items ≡ set handles.old.items i (Some (talk.read_to next h)) }
{
    if i < handles.len() {
        if let Some(h) = &mut handles[i] {
            h.go_to(next);
        }
    }
}

/// Opens a handle, or closes it; gives what was open there.
pub fn change(handles: &mut Vec<Option<Opened>>, i: usize, to: Option<Opened>) -> Option<Opened>
    ensures was { result ≡ talk.opened_by (slice_get handles.old.items i) }
    ensures is { handles.new.items ≡ set handles.old.items i to }
{
    if i < handles.len() {
        std::mem::replace(&mut handles[i], to)
    } else {
        None
    }
}

/// The file of this name is open to be written.
pub fn is_written(handles: &[Option<Opened>], name: &Name) -> bool
    ensures { result ≡ list_any (talk.writes_name name.now) handles.now }
{
    handles.iter().any(|h| match h {
        Some(h) => h.is_written_as(name),
        None => false,
    })
}

/// How many handles are open.
pub fn open_count(handles: &[Option<Opened>]) -> usize
    ensures { result ≡ count_by is_some handles.now }
{
    handles.iter().filter(|h| h.is_some()).count()
}

/// Something is open at some handle.
pub fn is_any_open(handles: &[Option<Opened>]) -> bool
    ensures { result ≡ list_any is_some handles.now }
{
    handles.iter().any(|h| h.is_some())
}
