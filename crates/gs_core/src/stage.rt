// What is needed from the disk, and where that stands.
ghost use Rattle.std.specs.Prelude.{◌≡◌};
ghost use Rattle.gs_core.specs.Stages.{with_seen, with_saved, reopened};

use gs_looks::Seen;
use gs_types::{Blob, Name, Version};
use std::mem;

/// What is needed next: a look at a file of the user's; the content of a version, with its length
/// in bytes where a task or the program made it; the keeping of a content that the program closed,
/// by its number from 1; or nothing, until a job ends.
#[derive(Drop)]
pub enum Step {
    Look { name: Name },
    Load { version: Version, kept: Option<u64> },
    Save { k: u32, bytes: Blob },
    Settled,
}

/// What was read of a version: it is absent, longer than a file may be, or these are its bytes.
#[derive(Drop)]
pub enum Loaded {
    Absent,
    TooLong,
    Bytes { bytes: Blob },
}

/// Where the last step stands: each that was asked, and then answered.
#[derive(Drop)]
pub(crate) enum Stage {
    Open,
    Looking { name: Name },
    Looked { name: Name, seen: Seen },
    Loading,
    Loaded { loaded: Loaded },
    Saving { len: u64 },
    Saved { len: u64 },
    Settled,
}

/// The file was looked at.
pub(crate) fn seen_now(stage: &mut Stage, seen: Seen)
    ensures { stage.new ≡ with_seen seen stage.old }
{
    match mem::replace(stage, Stage::Open) {
        Stage::Looking { name } => *stage = Stage::Looked { name, seen },
        _other => {}
    }
}

/// The content is kept.
pub(crate) fn saved_now(stage: &mut Stage)
    ensures { stage.new ≡ with_saved stage.old }
{
    match mem::replace(stage, Stage::Open) {
        Stage::Saving { len } => *stage = Stage::Saved { len },
        _other => {}
    }
}

/// A job has ended: the program may go further.
pub(crate) fn reopened(stage: &mut Stage)
    ensures { stage.new ≡ reopened stage.old }
{
    match mem::replace(stage, Stage::Open) {
        Stage::Settled => {}
        other => *stage = other,
    }
}
