// How much a log may hold.

/// The bytes that a payload may have.
pub const MAX_PAYLOAD: usize = 33_554_432;

/// The records that a log may have.
pub const MAX_RECORDS: usize = 32_767;
