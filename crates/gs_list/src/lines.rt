// The lines of a text.
ghost use Rattle.std.specs.Prelude.{◌≤◌, ◌+◌, length, IfOk};
ghost use Rattle.gs_list.specs.Lines.{AreLines, spelled};

use std::alloc::{AllocError, Global};

/// The lines of a text, of which there is one at least. A line feed ends a line and is no part of
/// it; the last line is what stands behind the last line feed.
pub fn lines_of(alloc: Global, bytes: &[u8]) -> Result<Vec<&[u8]>, AllocError>
    ensures lines { IfOk result (λ v. AreLines bytes.now (spelled v.items)) }
    ensures few { IfOk result (λ v. length v.items ≤ length bytes.now + 1) }
{
    bytes.split(|b| *b == b'\n').collect(alloc)
}
