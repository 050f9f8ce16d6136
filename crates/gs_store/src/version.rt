// Reading a version.
ghost use Rattle.std.specs.Prelude.{◌≡◌, ◌≤◌, IfOk, IfErr};
ghost use Rattle.gs_types.specs.declared.limits.TheConstants.{FILE_LIMIT};
ghost use Rattle.gs_disk.specs.Folder.{Same};
ghost use Rattle.gs_disk.specs.Moments.{Passes};
ghost use Rattle.gs_store.specs.Loading.{RefusesFile, IsVersion};
ghost use Rattle.gs_store.specs.Told.{HasCause};

use crate::err::StoreErr;
use crate::names::{copy_version, version_file};
use crate::store::Store;
use gs_disk::{Disk, DiskErr, Whole, read_whole};
use gs_types::{Blob, Version};
use std::alloc::Global;

impl Store {
    /// The bytes of a version whose length of at most `FILE_LIMIT` was kept. `LostVersion` exactly
    /// where its file is absent or of another length.
    pub fn read_version<D: Disk>(
        &self,
        alloc: Global,
        disk: &mut D,
        v: &Version,
        kept: u64,
    ) -> Result<Blob, StoreErr>
        requires { kept ≤ FILE_LIMIT }
        ensures value { D.tells → IfOk result (IsVersion (D.state disk.old).folder v.now kept) }
        ensures refused { D.tells
            → IfErr result (RefusesFile (D.state disk.old).folder v.now kept) }
        ensures same { D.tells → (D.state disk.new).folder ≡ (D.state disk.old).folder }
        ensures images { D.tells → Passes Same (D.state disk.old) (D.state disk.new) }
        ensures cause { HasCause (D.state disk.old) (D.state disk.new) result }
    {
        let mut bytes = Vec::new(alloc);
        let found = match read_whole(alloc, disk, &version_file(v), kept, &mut bytes) {
            Ok(Whole::Absent) => None,
            Ok(Whole::TooLong { len }) => Some(len),
            Ok(Whole::Read { len }) => {
                if len == kept {
                    return Ok(Blob::of(bytes));
                }
                Some(len)
            }
            Err(DiskErr::Fault) => return Err(StoreErr::DiskFault),
            Err(DiskErr::Memory) => return Err(StoreErr::NoMemory),
        };
        Err(StoreErr::LostVersion {
            version: copy_version(v),
            kept,
            found,
        })
    }
}
