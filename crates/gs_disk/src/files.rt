// The files of a disk in memory: reading and changing a map from names to bytes.
ghost use Rattle.std.specs.Prelude.{◌≡◌, ◌≢◌, ◌+◌, ◌<◌, ◌≤◌, ◌⊎◌, ◌↔◌, ℕ, List, length, slice_index, take, drop, None, Some, IfOk, IfSome, IsSome, OnOk, OnErr, option_map};
ghost use Rattle.std.specs.BTreeMap.{keys, IsOrdered};
ghost use Rattle.std.specs.Ordering.{nat_cmp};
ghost use Rattle.std.specs.Cmp.Lexicographic.{slice_cmp};
ghost use Rattle.gs_disk.specs.Folder.{overwritten, IsRead, Has, Rise};
ghost use Rattle.gs_disk.specs.Mem.{files_of, folder_of, Puts};
ghost use Rattle.gs_disk.specs.Crash.{FillsRange};

use crate::DiskName;
use std::alloc::{AllocError, Global};
use std::collections::BTreeMap;

pub fn put(
    files: &mut BTreeMap<DiskName, Vec<u8>>,
    name: DiskName,
    bytes: Vec<u8>,
) -> Result<(), AllocError>
    ensures put { OnOk result (Puts name (Some bytes.items) (folder_of (files_of files.old))
        (folder_of (files_of files.new))) }
    ensures refused { OnErr result (files_of files.new ≡ files_of files.old) }
{
    files.insert(name, bytes)?;
    Ok(())
}

pub fn remove(files: &mut BTreeMap<DiskName, Vec<u8>>, name: &DiskName)
    ensures { Puts name.now None (folder_of (files_of files.old)) (folder_of (files_of files.new)) }
{
    files.remove(name);
}

pub fn get<'a>(files: &'a BTreeMap<DiskName, Vec<u8>>, name: &DiskName) -> Option<&'a [u8]>
    ensures { option_map (λ b. b.now) result ≡ folder_of (files_of files.now) name.now }
{
    match files.get(name) {
        Some(bytes) => Some(bytes.as_slice()),
        None => None,
    }
}

/// Reads the bytes of a file from `at` on to the buffer's front.
pub fn read_at(bytes: &[u8], at: u64, buf: &mut [u8]) -> usize
    ensures { IsRead at result (Some bytes.now) buf.old buf.new }
{
    if at >= bytes.len() as u64 {
        return 0;
    }
    let rest = &bytes[at as usize..];
    let n = rest.len().min(buf.len());
    buf[..n].copy_from_slice(&rest[..n]);
    n
}

/// The length of a file in bytes; `None` where it is absent.
pub fn len(files: &BTreeMap<DiskName, Vec<u8>>, name: &DiskName) -> Option<u64>
    ensures { result ≡ option_map length (folder_of (files_of files.now) name.now) }
{
    match get(files, name) {
        Some(bytes) => Some(bytes.len() as u64),
        None => None,
    }
}

/// Reads from `at` on to the buffer's front; nothing where the file is absent.
pub fn read(files: &BTreeMap<DiskName, Vec<u8>>, name: &DiskName, at: u64, buf: &mut [u8]) -> usize
    ensures { IsRead at result (folder_of (files_of files.now) name.now) buf.old buf.new }
{
    match get(files, name) {
        Some(bytes) => read_at(bytes, at, buf),
        None => 0,
    }
}

/// Replaces the bytes of a file from `at` on, and lengthens it where needed.
fn overwrite(file: &mut Vec<u8>, at: usize, bytes: &[u8]) -> Result<(), AllocError>
    requires { at ≤ length file.old.items }
    ensures written { OnOk result (file.new.items ≡ overwritten at bytes.now file.old.items) }
    ensures refused { OnErr result (file.new.items ≡ file.old.items) }
{
    let overlap = bytes.len().min(file.len() - at);
    file.extend_from_slice(&bytes[overlap..])?;
    file[at..at + overlap].copy_from_slice(&bytes[..overlap]);
    Ok(())
}

pub fn write(
    files: &mut BTreeMap<DiskName, Vec<u8>>,
    name: &DiskName,
    at: usize,
    bytes: &[u8],
) -> Result<(), AllocError>
    requires { IfSome (folder_of (files_of files.old) name.now) (λ file. at ≤ length file) }
    ensures written { OnOk result (IfSome (folder_of (files_of files.old) name.now)
        (λ file. Puts name.now (Some (overwritten at bytes.now file))
        (folder_of (files_of files.old)) (folder_of (files_of files.new)))) }
    ensures absent { folder_of (files_of files.old) name.now ≡ None
        → files_of files.new ≡ files_of files.old }
    ensures refused { OnErr result (files_of files.new ≡ files_of files.old) }
{
    match files.get_mut(name) {
        Some(file) => overwrite(file, at, bytes),
        None => Ok(()),
    }
}

fn copied_names(
    alloc: Global,
    files: &BTreeMap<DiskName, Vec<u8>>,
) -> Result<Vec<DiskName>, AllocError>
    ensures same { IfOk result (λ names. names.items ≡ keys files.now) }
    ensures ordered { IsOrdered (slice_cmp nat_cmp) files.now }
{
    let mut names = Vec::new(alloc);
    for name in files.keys() {
        names.push(name.copy())?;
    }
    Ok(names)
}

pub fn names(
    alloc: Global,
    files: &BTreeMap<DiskName, Vec<u8>>,
) -> Result<Vec<DiskName>, AllocError>
    ensures all { IfOk result (λ names. (x : List ℕ)
        → Has x names.items ↔ IsSome (folder_of (files_of files.now) x)) }
    ensures rising { IfOk result (λ names. Rise names.items) }
{
    let names = copied_names(alloc, files)?;
    Ok(names)
}

/// The bytes of a file again; `None` where it is absent.
pub fn copy(
    alloc: Global,
    files: &BTreeMap<DiskName, Vec<u8>>,
    name: &DiskName,
) -> Result<Option<Vec<u8>>, AllocError>
    ensures { IfOk result (λ copy. option_map (λ v. v.items) copy
        ≡ folder_of (files_of files.now) name.now) }
{
    match get(files, name) {
        Some(bytes) => Ok(Some(Vec::from_slice(alloc, bytes)?)),
        None => Ok(None),
    }
}

/// Up to `len` bytes of a file from `at` on, as many as there are.
pub fn part(alloc: Global, file: &[u8], at: usize, len: usize) -> Result<Vec<u8>, AllocError>
    requires { at ≤ length file.now }
    ensures { IfOk result (λ part. part.items ≡ take len (drop at file.now)) }
{
    let rest = &file[at..];
    let part = Vec::from_slice(alloc, &rest[..len.min(rest.len())])?;
    Ok(part)
}

/// Makes a file's bytes what they were before a write: cuts it at its old end, and puts the bytes
/// back.
fn restore(file: &mut Vec<u8>, at: usize, before: &[u8], end: usize)
    requires { (at + length before.now ≤ end) × (end ≤ length file.old.items) }
    ensures { file.new.items ≡ overwritten at before.now (take end file.old.items) }
{
    file.truncate(end);
    file[at..at + before.len()].copy_from_slice(before);
}

/// The same at the file of a name.
pub fn unwrite(
    files: &mut BTreeMap<DiskName, Vec<u8>>,
    name: &DiskName,
    at: usize,
    before: &[u8],
    end: usize,
)
    requires { IfSome (folder_of (files_of files.old) name.now)
        (λ file. (at + length before.now ≤ end) × (end ≤ length file)) }
    ensures { IfSome (folder_of (files_of files.old) name.now)
        (λ file. Puts name.now (Some (overwritten at before.now (take end file)))
        (folder_of (files_of files.old)) (folder_of (files_of files.new))) }
{
    match files.get_mut(name) {
        Some(file) => restore(file, at, before, end),
        None => (),
    }
}

/// Sets a range of a file to one byte, as far as the file goes.
fn fill_file(file: &mut Vec<u8>, at: usize, len: usize, b: u8)
    ensures long { length file.new.items ≡ length file.old.items }
    ensures kept { (k : ℕ) → k < length file.old.items → (k < at) ⊎ (at + len ≤ k)
        → slice_index file.new.items k ≡ slice_index file.old.items k }
    ensures filled { (k : ℕ) → k < length file.old.items → at ≤ k → k < at + len
        → slice_index file.new.items k ≡ b }
{
    let start = at.min(file.len());
    let end = start + len.min(file.len() - start);
    file[start..end].fill(b);
}

/// The same at the file of a name.
pub fn fill(files: &mut BTreeMap<DiskName, Vec<u8>>, name: &DiskName, at: usize, len: usize, b: u8)
    ensures others { (x : List ℕ) → x ≢ name.now → folder_of (files_of files.new) x
        ≡ folder_of (files_of files.old) x }
    ensures here { FillsRange at len b (folder_of (files_of files.old) name.now)
        (folder_of (files_of files.new) name.now) }
{
    match files.get_mut(name) {
        Some(file) => fill_file(file, at, len, b),
        None => (),
    }
}
