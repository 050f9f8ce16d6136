// What the core, and a task, are given from the disk.
ghost use Rattle.std.specs.Prelude.{◌≡◌, ◌≤◌, [], ◌∷◌, length, Some, None, IfOk, IfErr};
ghost use Rattle.gs_disk.specs.Folder.{Same};
ghost use Rattle.gs_disk.specs.Moments.{Passes};
ghost use Rattle.gs_types.specs.declared.limits.TheConstants.{FILE_LIMIT};
ghost use Rattle.gs_types.specs.declared.note.Version.TheVariants as versions;
ghost use Rattle.gs_store.specs.Names.{version_name};
ghost use Rattle.gs_looks.specs.Looked.{IsSeen};
ghost use Rattle.gs_core.specs.Stages.{IsLoaded};
ghost use Rattle.gs_finish.specs.Finishing.{IsNotLost};
ghost use Rattle.gs_finish.specs.Halting.{HaltCaused, Lacks};
ghost use Rattle.gs_engine.specs.Reading.{held, file_input, IsOwn, AreGiven, LacksOne};

use gs_core::{Loaded, Seen, StartArg};
use gs_disk::{Disk, DiskName, Whole, read_whole};
use gs_finish::Halt;
use gs_store::{Store, version_file};
use gs_types::{Arg, Blob, FILE_LIMIT, Name, Sequence, Value, Version};
use std::alloc::Global;

/// The name of an original is a user's.
pub(crate) fn know_name(version: &Version)
    ensures { IsOwn version.now }
{
    if let Version::Original { name } = version {
        let _bytes = name.bytes();
    }
}

/// What stands under a user's name: it is absent, longer than a file may be, or of this length.
pub(crate) fn look<D: Disk>(disk: &mut D, name: &Name) -> Result<Seen, Halt>
    ensures own { IsOwn (versions.Original name.now) }
    ensures seen { D.tells
        → IfOk result (IsSeen (held (D.state disk.old).folder (versions.Original name.now))) }
    ensures outside { IfErr result IsNotLost }
    ensures same { D.tells → (D.state disk.new).folder ≡ (D.state disk.old).folder }
    ensures images { D.tells → Passes Same (D.state disk.old) (D.state disk.new) }
    ensures cause { HaltCaused (D.state disk.old) (D.state disk.new) result }
{
    match disk.len(&DiskName::of(name.bytes()))? {
        None => Ok(Seen::Absent),
        Some(len) => {
            if len > FILE_LIMIT as u64 {
                return Ok(Seen::TooLong);
            }
            Ok(Seen::Len { len })
        }
    }
}

// The bytes of a version whose length, of at most `FILE_LIMIT`, was kept.
fn read<D: Disk>(
    alloc: Global,
    store: &Store,
    disk: &mut D,
    version: &Version,
    kept: u64,
) -> Result<Blob, Halt>
    ensures value { D.tells → IfOk result
        (λ bytes. (D.state disk.old).folder (version_name version.now) ≡ Some bytes) }
    ensures long { D.tells → IfOk result (λ bytes. length bytes ≤ FILE_LIMIT) }
    ensures refused { D.tells
        → IfErr result (Lacks (D.state disk.old).folder version.now (Some kept)) }
    ensures same { D.tells → (D.state disk.new).folder ≡ (D.state disk.old).folder }
    ensures images { D.tells → Passes Same (D.state disk.old) (D.state disk.new) }
    ensures cause { HaltCaused (D.state disk.old) (D.state disk.new) result }
{
    if kept > FILE_LIMIT as u64 {
        return Err(Halt::NoMemory);
    }
    let bytes = store.read_version(alloc, disk, version, kept)?;
    Ok(bytes)
}

// What stands under a version of any length.
fn read_any<D: Disk>(alloc: Global, disk: &mut D, version: &Version) -> Result<Loaded, Halt>
    ensures loaded { D.tells
        → IfOk result (IsLoaded (held (D.state disk.old).folder version.now)) }
    ensures refused { D.tells
        → IfErr result (Lacks (D.state disk.old).folder version.now None) }
    ensures same { D.tells → (D.state disk.new).folder ≡ (D.state disk.old).folder }
    ensures images { D.tells → Passes Same (D.state disk.old) (D.state disk.new) }
    ensures cause { HaltCaused (D.state disk.old) (D.state disk.new) result }
{
    let mut bytes = Vec::new(alloc);
    match read_whole(
        alloc,
        disk,
        &version_file(version),
        FILE_LIMIT as u64,
        &mut bytes,
    )? {
        Whole::Absent => Ok(Loaded::Absent),
        Whole::TooLong { len: _ } => Ok(Loaded::TooLong),
        Whole::Read { len: _ } => Ok(Loaded::Bytes {
            bytes: Blob::of(bytes),
        }),
    }
}

/// What stands under a version: the file of one whose length was kept has it, or it is lost.
pub(crate) fn load<D: Disk>(
    alloc: Global,
    store: &Store,
    disk: &mut D,
    version: &Version,
    kept: Option<u64>,
) -> Result<Loaded, Halt>
    ensures loaded { D.tells
        → IfOk result (IsLoaded (held (D.state disk.old).folder version.now)) }
    ensures refused { D.tells
        → IfErr result (Lacks (D.state disk.old).folder version.now kept) }
    ensures same { D.tells → (D.state disk.new).folder ≡ (D.state disk.old).folder }
    ensures images { D.tells → Passes Same (D.state disk.old) (D.state disk.new) }
    ensures cause { HaltCaused (D.state disk.old) (D.state disk.new) result }
{
    match kept {
        None => read_any(alloc, disk, version),
        Some(kept) => match read(alloc, store, disk, version, kept) {
            Ok(bytes) => Ok(Loaded::Bytes { bytes }),
            Err(halt) => Err(halt),
        },
    }
}

// What a task gets at a place.
fn input<D: Disk>(alloc: Global, store: &Store, disk: &mut D, x: &StartArg) -> Result<Arg, Halt>
    ensures given { D.tells → IfOk result
        (λ a. AreGiven (D.state disk.old).folder (x.now ∷ []) (a ∷ [])) }
    ensures refused { D.tells → IfErr result (LacksOne (D.state disk.old).folder (x.now ∷ [])) }
    ensures same { D.tells → (D.state disk.new).folder ≡ (D.state disk.old).folder }
    ensures images { D.tells → Passes Same (D.state disk.old) (D.state disk.new) }
    ensures cause { HaltCaused (D.state disk.old) (D.state disk.new) result }
{
    match x {
        StartArg::From {
            version,
            kept,
            both,
        } => {
            know_name(version);
            match read(alloc, store, disk, version, *kept) {
                Ok(bytes) => Ok(file_input(bytes, *both)),
                Err(halt) => Err(halt),
            }
        }
        StartArg::Int { v } => Ok(Arg::Given {
            v: Value::Int { v: *v },
        }),
        StartArg::Str { s } => match s.copy(alloc) {
            Ok(s) => Ok(Arg::Given {
                v: Value::Str { s },
            }),
            Err(_) => Err(Halt::NoMemory),
        },
        StartArg::OutFile => Ok(Arg::OutFile),
        StartArg::OutInt => Ok(Arg::OutInt),
        StartArg::OutStr => Ok(Arg::OutStr),
    }
}

// A file that is passed in, and given back or not.
fn file_input(bytes: Blob, both: bool) -> Arg
    ensures { result ≡ file_input bytes both }
{
    if both {
        Arg::Both { bytes }
    } else {
        Arg::Given {
            v: Value::File { bytes },
        }
    }
}

/// What a task gets at its places, each file as it reads. A file whose length isn't the one that
/// was kept is lost.
pub(crate) fn inputs<D: Disk>(
    alloc: Global,
    store: &Store,
    disk: &mut D,
    xs: &[StartArg],
) -> Result<Sequence<Arg>, Halt>
    ensures given { D.tells → IfOk result (AreGiven (D.state disk.old).folder xs.now) }
    ensures refused { D.tells → IfErr result (LacksOne (D.state disk.old).folder xs.now) }
    ensures same { D.tells → (D.state disk.new).folder ≡ (D.state disk.old).folder }
    ensures images { D.tells → Passes Same (D.state disk.old) (D.state disk.new) }
    ensures cause { HaltCaused (D.state disk.old) (D.state disk.new) result }
{
    let mut args = Sequence::new(alloc);
    for x in xs {
        match input(alloc, store, disk, x) {
            Ok(arg) => {
                if args.push(arg).is_err() {
                    return Err(Halt::NoMemory);
                }
            }
            Err(halt) => return Err(halt),
        }
    }
    Ok(args)
}
