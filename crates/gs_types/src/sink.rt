// Where text goes.
ghost use Rattle.std.specs.Prelude.{◌≡◌, ℕ, ◌<◌, ◌≤◌, List, ◌++◌, length, take, IfOk, OnOk, IsErr};
ghost use Rattle.gs_types.specs.Counts.{Caused};
ghost use Rattle.gs_types.specs.Sink.{after_write};

/// A sink took nothing of a piece.
#[derive(Clone, Copy, Debug, PartialEq, Eq)]
pub struct SinkFailed;

/// Takes bytes, a piece at a time.
pub trait Sink {
    /// The bytes that were written are told.
    ghost tells: { Type 0 };

    ghost written: { Self → List ℕ };

    ghost faults: { Self → ℕ };

    /// Writes a first part of the piece, at least one byte where it has one, and gives the number
    /// of bytes. `SinkFailed` only where the count of faults rose; then nothing of the piece went
    /// out.
    fn write(&mut self, bytes: &[u8]) -> Result<usize, SinkFailed>
        ensures part { IfOk result (λ n. (n ≤ length bytes.now) × (0 < length bytes.now → 0 < n)) }
        ensures written { tells → written self.new ≡ after_write (written self.old) bytes.now
            result }
        ensures cause { Caused (IsErr result) (faults self.old) (faults self.new) };
}

/// Writes all bytes, piece by piece. `SinkFailed` only where the count of faults rose; then a first
/// part was written.
pub fn put_all<S: Sink>(sink: &mut S, bytes: &[u8]) -> Result<(), SinkFailed>
    ensures all { S.tells → OnOk result (S.written sink.new ≡ S.written sink.old ++ bytes.now) }
    ensures first_part { S.tells
        → ((k : ℕ) × (k ≤ length bytes.now)
        × (S.written sink.new ≡ S.written sink.old ++ take k bytes.now)) }
    ensures cause { Caused (IsErr result) (S.faults sink.old) (S.faults sink.new) }
{
    let mut done = 0;
    while done < bytes.len() {
        done += sink.write(&bytes[done..])?;
    }
    Ok(())
}
