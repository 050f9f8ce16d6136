// The bytes of a record.
ghost use Rattle.std.specs.Prelude.{◌≡◌, ◌++◌, ◌+◌, ◌≤◌, [], ◌∷◌, ℕ, List, length, take, drop, IfOk, MatchOption};
ghost use Rattle.std.specs.Int.{w32, to_le_bytes};
ghost use Rattle.gs_types.specs.Bytes.{IsBytes};
ghost use Rattle.gs_log.specs.Grammar.{Begins};

use crate::MAX_PAYLOAD;
use std::alloc::{AllocError, Global};

/// What stands behind the gate of a record: its length, its payload and the next gate, closed.
pub fn closed_record(alloc: Global, payload: &[u8]) -> Result<Vec<u8>, AllocError>
    requires { length payload.now ≤ MAX_PAYLOAD }
    ensures { IfOk result (λ made. made.items
        ≡ (to_le_bytes w32 (length payload.now) ++ payload.now) ++ 0 ∷ []) }
{
    let mut closed = Vec::with_capacity(alloc, payload.len() + 5)?;
    closed.extend_from_slice(&(payload.len() as u32).to_le_bytes())?;
    closed.extend_from_slice(payload)?;
    closed.push(0)?;
    Ok(closed)
}

/// The payload of the record that begins behind a gate; `None` where none is whole, or no byte
/// follows it.
pub fn first_payload(behind: &[u8]) -> Option<&[u8]>
    ensures { MatchOption result ((payload : List ℕ) → Begins payload behind.now
        → ⊥) (λ payload. Begins payload.now behind.now) }
{
    if behind.len() < 4 {
        return None;
    }
    let len = u32::from_le_bytes([behind[0], behind[1], behind[2], behind[3]]) as usize;
    let rest = &behind[4..];
    if len > MAX_PAYLOAD || rest.len() <= len {
        return None;
    }
    Some(&rest[..len])
}

/// So many bytes of a piece, from `start` on.
pub fn part(piece: &[u8], start: usize, len: usize) -> &[u8]
    requires { start + len ≤ length piece.now }
    ensures value { result.now ≡ take len (drop start piece.now) }
    ensures bytes { IsBytes result.now }
{
    let rest = &piece[start..];
    &rest[..len]
}
