//! Fields of bytes: numbers and byte strings, one after the other, as the store's entries have
//! them; and formats, which are fields put together.
#![tactic(auto)]

mod fields;
mod writing;

pub use fields::{Fields, Short};
pub use writing::{put_blob, put_i64, put_u8, put_u32, put_u64};

#[cfg(test)]
mod tests;
