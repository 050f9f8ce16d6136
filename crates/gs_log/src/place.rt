// Where a payload is in memory.

/// `len` bytes of a piece, from `start` on.
#[derive(Clone, Copy, Drop)]
pub struct Place {
    pub piece: usize,
    pub start: usize,
    pub len: usize,
}
