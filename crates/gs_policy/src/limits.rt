// Limits of costs.

/// Bytes over which a cost is asked for: those of 16 files of the greatest length.
pub const BYTES_LIMIT: u64 = 268_435_456;

/// The greatest cost of a start.
pub const COST_LIMIT: u64 = 1_000_000;
