// What a crash leaves of a disk in memory.
ghost use Rattle.std.specs.Prelude.{◌≡◌, ◌∷◌, ℕ, List, [], Some, OnOk};
ghost use Rattle.gs_disk.specs.Folder.{Folder, Outside};
ghost use Rattle.gs_disk.specs.Mem.{files_of, folder_of, names_of, ranges_of};
ghost use Rattle.gs_disk.specs.Crash.{FillsFile};
ghost use Rattle.gs_disk.specs.Steps.{Undone, LeadBack, LeavesBy};

use crate::now::Touch;
use crate::{DiskName, files};
use std::alloc::{AllocError, Global};
use std::collections::BTreeMap;

/// Which image a crash leaves: the folder at the last sync, the folder as it reads, or one byte in
/// each free place.
#[derive(Clone, Copy, Debug, PartialEq, Eq)]
pub enum Keep {
    Nothing,
    All,
    Byte { b: u8 },
}

/// Undoes a call.
fn undo(files: &mut BTreeMap<DiskName, Vec<u8>>, touch: Touch) -> Result<(), AllocError>
    requires { (older : Folder) × Undone touch (folder_of (files_of files.old)) older }
    ensures { OnOk result (Undone touch (folder_of (files_of files.old))
        (folder_of (files_of files.new))) }
{
    match touch {
        Touch::Renamed { name, before } => match before {
            Some(bytes) => files::put(files, name, bytes),
            None => {
                files::remove(files, &name);
                Ok(())
            }
        },
        Touch::Written {
            name,
            at,
            len: _,
            before,
            end,
        } => {
            files::unwrite(files, &name, at, &before, end);
            Ok(())
        }
    }
}

/// Undoes the calls, the last of them first.
pub fn undo_all(
    files: &mut BTreeMap<DiskName, Vec<u8>>,
    mut touched: Vec<Touch>,
) -> Result<(), AllocError>
    requires { (synced : Folder) × LeadBack touched.items (folder_of (files_of files.old)) synced }
    ensures { OnOk result (LeadBack touched.items (folder_of (files_of files.old))
        (folder_of (files_of files.new))) }
{
    while let Some(touch) = touched.pop() {
        undo(files, touch)?;
    }
    Ok(())
}

/// Fills the range that a call wrote, as far as the file goes.
fn fill_range(files: &mut BTreeMap<DiskName, Vec<u8>>, touch: &Touch, b: u8)
    ensures { (x : List ℕ) → FillsFile (ranges_of (touch.now ∷ [])) x b
        (folder_of (files_of files.old) x) (folder_of (files_of files.new) x) }
{
    match touch {
        Touch::Written { name, at, len, .. } => files::fill(files, name, *at, *len, b),
        Touch::Renamed { .. } => (),
    }
}

/// Fills the ranges that were written, as far as the files go.
pub fn fill_ranges(files: &mut BTreeMap<DiskName, Vec<u8>>, touched: &[Touch], b: u8)
    ensures { (x : List ℕ) → FillsFile (ranges_of touched.now) x b
        (folder_of (files_of files.old) x) (folder_of (files_of files.new) x) }
{
    for touch in touched {
        fill_range(files, touch, b);
    }
}

/// Gives the name that a call created or removed the one byte.
fn fill_name(
    alloc: Global,
    files: &mut BTreeMap<DiskName, Vec<u8>>,
    touch: &Touch,
    b: u8,
) -> Result<(), AllocError>
    ensures named { OnOk result ((x : List ℕ) → (Outside (names_of (touch.now ∷ [])) x → ⊥)
        → folder_of (files_of files.new) x ≡ Some (b ∷ [])) }
    ensures others { OnOk result ((x : List ℕ) → Outside (names_of (touch.now ∷ [])) x
        → folder_of (files_of files.new) x ≡ folder_of (files_of files.old) x) }
{
    match touch {
        Touch::Renamed { name, .. } => {
            files::put(files, name.copy(), vec![in alloc; b]?)?;
            Ok(())
        }
        Touch::Written { .. } => Ok(()),
    }
}

/// Gives each name that was created or removed the one byte.
pub fn fill_names(
    alloc: Global,
    files: &mut BTreeMap<DiskName, Vec<u8>>,
    touched: &[Touch],
    b: u8,
) -> Result<(), AllocError>
    ensures named { OnOk result ((x : List ℕ) → (Outside (names_of touched.now) x → ⊥)
        → folder_of (files_of files.new) x ≡ Some (b ∷ [])) }
    ensures others { OnOk result ((x : List ℕ) → Outside (names_of touched.now) x
        → folder_of (files_of files.new) x ≡ folder_of (files_of files.old) x) }
{
    for touch in touched {
        fill_name(alloc, files, touch, b)?;
    }
    Ok(())
}

/// Makes the files what a crash leaves.
pub fn leave(
    alloc: Global,
    files: &mut BTreeMap<DiskName, Vec<u8>>,
    touched: Vec<Touch>,
    keep: Keep,
) -> Result<(), AllocError>
    requires { (synced : Folder) × LeadBack touched.items (folder_of (files_of files.old)) synced }
    ensures { OnOk result (LeavesBy keep touched.items (folder_of (files_of files.old))
        (folder_of (files_of files.new))) }
{
    match keep {
        Keep::Nothing => undo_all(files, touched),
        Keep::All => Ok(()),
        Keep::Byte { b } => {
            fill_ranges(files, &touched, b);
            fill_names(alloc, files, &touched, b)?;
            Ok(())
        }
    }
}
