// The names of version files.
ghost use Rattle.std.specs.Prelude.{◌≡◌, ◌+◌, ◌++◌, ◌≤◌, length};
ghost use Rattle.arrayvec.specs.ArrayVec.{array_vec_len};
ghost use Rattle.gs_store.specs.Names.{out_name, main_name, version_name};

use arrayvec::ArrayVec;
use gs_disk::DiskName;
use gs_types::Version;
use itoa::Buffer;

fn put(to: &mut ArrayVec<u8, 64>, bytes: &[u8])
    requires { array_vec_len to.old + length bytes.now ≤ 64 }
    ensures { to.new.items ≡ to.old.items ++ bytes.now }
{
    match to.try_extend_from_slice(bytes) {
        Ok(()) => (),
        Err(_) => unreachable!(),
    }
}

#[tactic(auto, unfolding(crate::specs::Names::out_name))]
fn out_bytes(n: u32, place: u8) -> ArrayVec<u8, 64>
    ensures { result.items ≡ out_name n place }
{
    let mut name = ArrayVec::new();
    put(&mut name, b".gs.o.");
    put(&mut name, Buffer::new().format(n).as_bytes());
    put(&mut name, b".");
    put(&mut name, Buffer::new().format(place).as_bytes());
    name
}

/// The file of what task `n` gave at a place.
#[tactic(auto, using(crate::specs::Apart::out_is_name))]
pub fn out_file(n: u32, place: u8) -> DiskName
    ensures { result ≡ out_name n place }
{
    let name = out_bytes(n, place);
    DiskName::of(name.as_slice())
}

/// The file of the content `k` that the main program wrote.
#[tactic(auto, using(crate::specs::Apart::main_is_name), unfolding(crate::specs::Names::main_name))]
pub fn main_file(k: u32) -> DiskName
    ensures { result ≡ main_name k }
{
    let mut name = ArrayVec::new();
    put(&mut name, b".gs.m.");
    put(&mut name, Buffer::new().format(k).as_bytes());
    DiskName::of(name.as_slice())
}

/// The file of a version: a user's own file for an original.
pub fn version_file(v: &Version) -> DiskName
    ensures { result ≡ version_name v.now }
{
    match v {
        Version::Original { name } => DiskName::of(name.bytes()),
        Version::Out { n, place } => out_file(*n, *place),
        Version::Main { k } => main_file(*k),
    }
}

/// The same version again.
pub fn copy_version(v: &Version) -> Version
    ensures { result ≡ v.now }
{
    match v {
        Version::Original { name } => Version::Original { name: name.copy() },
        Version::Out { n, place } => Version::Out {
            n: *n,
            place: *place,
        },
        Version::Main { k } => Version::Main { k: *k },
    }
}
