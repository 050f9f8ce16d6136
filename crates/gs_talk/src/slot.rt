// What a variable holds.
use gs_types::Value;

/// A variable's value, or the task and the place, from 1, that it waits for.
#[derive(Debug, Drop)]
pub enum Slot {
    Held { v: Value },
    Due { n: u32, place: u8 },
}
