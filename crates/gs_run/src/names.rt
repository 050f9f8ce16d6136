// What a run and a check are told.
use gs_types::{Name, Settings};

/// The names of the three texts of a run, and what it is told.
#[derive(Drop)]
pub(crate) struct Words {
    pub idl: Name,
    pub program: Name,
    pub workers: Name,
    pub settings: Settings,
}

/// The names of the two texts of a check.
#[derive(Drop)]
pub(crate) struct CheckWords {
    pub idl: Name,
    pub program: Name,
}
