// A folder of files, as everything in `gs` sees it.
ghost use Rattle.std.specs.Prelude.{◌≡◌, ◌≤◌, List, [], ◌∷◌, ◌↔◌, ℕ, length, IfOk, OnOk, IfSome, IsSome, Some, None, option_map};
ghost use Rattle.gs_disk.specs.Folder.{DiskState, KeepsOthers, Tears, Same, overwritten, MayWrite, HasCause, IsRead, Rise, Has};
ghost use Rattle.gs_disk.specs.Moments.{Leaves, LeavesOnly, Passes, Remembers};

use crate::DiskName;
use std::alloc::Global;

/// Why a call of a disk failed: a fault, or want of memory. Each comes only where its count rose.
#[derive(Clone, Copy, Debug, PartialEq, Eq)]
pub enum DiskErr {
    Fault,
    Memory,
}

/// A folder: a finite map from names to bytes. A call that fails may have done all, a part or
/// nothing of its work. A crash may come at any moment, also within a call, and then leaves an
/// image: each clause `images` says which ones come with a call, and the clause `only` of `sync`
/// that none but the folder as it reads is left.
pub trait Disk {
    /// The folder as it reads is told, and which images there are.
    ghost tells: { Type 0 };

    ghost state: { Self → DiskState };

    /// The length of a file in bytes; `None` exactly where it is absent.
    fn len(&mut self, name: &DiskName) -> Result<Option<u64>, DiskErr>
        ensures value { tells → IfOk result
            (λ n. n ≡ option_map length ((state self.old).folder name.now)) }
        ensures same { tells → (state self.new).folder ≡ (state self.old).folder }
        ensures images { tells → Passes Same (state self.old) (state self.new) }
        ensures remembers { tells → Remembers (state self.old) (state self.new) }
        ensures cause { HasCause (state self.old) (state self.new) result };

    /// Reads from the offset `at` on to the buffer's front, as much as there is and fits; gives the
    /// number of bytes, 0 for an absent file.
    fn read_into(&mut self, name: &DiskName, at: u64, buf: &mut [u8]) -> Result<usize, DiskErr>
        ensures within { IfOk result (λ n. n ≤ length buf.old) }
        ensures value { tells → IfOk result (λ n. IsRead at n ((state self.old).folder name.now)
            buf.old buf.new) }
        ensures same { tells → (state self.new).folder ≡ (state self.old).folder }
        ensures images { tells → Passes Same (state self.old) (state self.new) }
        ensures remembers { tells → Remembers (state self.old) (state self.new) }
        ensures cause { HasCause (state self.old) (state self.new) result };

    /// Makes a file present and empty, whatever stood there.
    fn create(&mut self, name: &DiskName) -> Result<(), DiskErr>
        ensures made { tells → OnOk result ((state self.new).folder name.now ≡ Some []) }
        ensures others { tells → KeepsOthers (name.now ∷ []) (state self.old).folder
            (state self.new).folder }
        ensures images { tells → Passes (KeepsOthers (name.now ∷ [])) (state self.old)
            (state self.new) }
        ensures remembers { tells → Remembers (state self.old) (state self.new) }
        ensures cause { HasCause (state self.old) (state self.new) result };

    /// Replaces the bytes from the offset `at` on, and lengthens the file where needed. The file is
    /// present and at least `at` long, and no byte comes past 2^40.
    fn write(&mut self, name: &DiskName, at: u64, bytes: &[u8]) -> Result<(), DiskErr>
        requires { tells → MayWrite at (length bytes.now) ((state self.old).folder name.now) }
        ensures written { tells → OnOk result (IfSome ((state self.old).folder name.now)
            (λ old. (state self.new).folder name.now ≡ Some (overwritten at bytes.now old))) }
        ensures torn { tells → Tears name.now at (length bytes.now) (state self.old).folder
            (state self.new).folder }
        ensures images { tells → Passes (Tears name.now at (length bytes.now)) (state self.old)
            (state self.new) }
        ensures remembers { tells → Remembers (state self.old) (state self.new) }
        ensures cause { HasCause (state self.old) (state self.new) result };

    /// Makes a file absent. An absent file stays absent.
    fn remove(&mut self, name: &DiskName) -> Result<(), DiskErr>
        ensures gone { tells → OnOk result ((state self.new).folder name.now ≡ None) }
        ensures others { tells → KeepsOthers (name.now ∷ []) (state self.old).folder
            (state self.new).folder }
        ensures absent { tells → (state self.old).folder name.now ≡ None
            → (state self.new).folder name.now ≡ None }
        ensures images { tells → Passes (KeepsOthers (name.now ∷ [])) (state self.old)
            (state self.new) }
        ensures idle { tells → (state self.old).folder name.now ≡ None
            → Passes Same (state self.old) (state self.new) }
        ensures remembers { tells → Remembers (state self.old) (state self.new) }
        ensures cause { HasCause (state self.old) (state self.new) result };

    /// Each name of the folder once, in rising order of bytes.
    fn names(&mut self, alloc: Global) -> Result<Vec<DiskName>, DiskErr>
        ensures all { tells → IfOk result (λ names. (x : List ℕ)
            → Has x names.items ↔ IsSome ((state self.old).folder x)) }
        ensures rising { tells → IfOk result (λ names. Rise names.items) }
        ensures same { tells → (state self.new).folder ≡ (state self.old).folder }
        ensures images { tells → Passes Same (state self.old) (state self.new) }
        ensures remembers { tells → Remembers (state self.old) (state self.new) }
        ensures cause { HasCause (state self.old) (state self.new) result };

    /// Brings all that reads to the disk.
    fn sync(&mut self) -> Result<(), DiskErr>
        ensures same { tells → (state self.new).folder ≡ (state self.old).folder }
        ensures images { tells → Passes Same (state self.old) (state self.new) }
        ensures only { tells → OnOk result (LeavesOnly (state self.new).folder (state self.new)) }
        ensures remembers { tells → Remembers (state self.old) (state self.new) }
        ensures cause { HasCause (state self.old) (state self.new) result };

    /// The folder as it reads is one of the images.
    ghost reads_an_image: { tells → (d : Self) → Leaves (state d) (state d).folder };
}
