// Writing fields.
ghost use Rattle.std.specs.Prelude.{◌≡◌, ◌++◌, ◌∷◌, [], ◌<◌, ◌^◌, length, OnOk, OnErr};
ghost use Rattle.std.specs.Int.{w32, w64};
ghost use Rattle.gs_fields.specs.Fields.{number, blob, signed};

use gs_types::NoMemory;

/// Appends a byte. On want of memory nothing changes, here and in the calls below.
pub fn put_u8(to: &mut Vec<u8>, v: u8) -> Result<(), NoMemory>
    ensures ok { OnOk result (to.new.items ≡ to.old.items ++ v ∷ []) }
    ensures err { OnErr result (to.new.items ≡ to.old.items) }
{
    to.push(v)?;
    Ok(())
}

/// Appends four bytes, the lowest first.
#[tactic(auto, unfolding(crate::specs::Fields::number))]
pub fn put_u32(to: &mut Vec<u8>, v: u32) -> Result<(), NoMemory>
    ensures ok { OnOk result (to.new.items ≡ to.old.items ++ number w32 v) }
    ensures err { OnErr result (to.new.items ≡ to.old.items) }
{
    to.extend_from_slice(&v.to_le_bytes())?;
    Ok(())
}

/// Appends eight bytes, the lowest first.
#[tactic(auto, unfolding(crate::specs::Fields::number))]
pub fn put_u64(to: &mut Vec<u8>, v: u64) -> Result<(), NoMemory>
    ensures ok { OnOk result (to.new.items ≡ to.old.items ++ number w64 v) }
    ensures err { OnErr result (to.new.items ≡ to.old.items) }
{
    to.extend_from_slice(&v.to_le_bytes())?;
    Ok(())
}

/// Appends eight bytes, the lowest first, in two's complement.
#[tactic(auto, unfolding(crate::specs::Fields::number))]
pub fn put_i64(to: &mut Vec<u8>, v: i64) -> Result<(), NoMemory>
    ensures ok { OnOk result (to.new.items ≡ to.old.items ++ signed v) }
    ensures err { OnErr result (to.new.items ≡ to.old.items) }
{
    to.extend_from_slice(&v.to_le_bytes())?;
    Ok(())
}

/// Appends the length, four bytes, of at most 2^32 - 1 bytes, and then the bytes.
pub fn put_blob(to: &mut Vec<u8>, v: &[u8]) -> Result<(), NoMemory>
    requires { length v.now < 2 ^ 32 }
    ensures ok { OnOk result (to.new.items ≡ to.old.items ++ blob v.now) }
    ensures err { OnErr result (to.new.items ≡ to.old.items) }
{
    let before = to.len();
    put_u32(to, v.len() as u32)?;
    if to.extend_from_slice(v).is_err() {
        to.truncate(before);
        return Err(NoMemory);
    }
    Ok(())
}
