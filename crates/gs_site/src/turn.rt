// The script of a link in memory.
ghost use Rattle.std.specs.Prelude.{◌≡◌, drop};
ghost use Rattle.gs_site.specs.Turns.{turn_now};

/// How the next task ends: the job at place `pick` modulo the number of jobs, in the order of their
/// starts, ends by its law where `well` holds, and else fails.
#[derive(Clone, Copy, Debug, PartialEq, Eq)]
pub struct Turn {
    pub pick: u32,
    pub well: bool,
}

/// The turn at a place. Behind the last one it is the first job's, and ends well.
pub(crate) fn turn_at(script: &[Turn], at: usize) -> Turn
    ensures { result ≡ turn_now (drop at script.now) }
{
    match script.get(at) {
        Some(turn) => *turn,
        None => Turn {
            pick: 0,
            well: true,
        },
    }
}

/// The place of the next turn.
pub(crate) fn place_behind(script: &[Turn], at: usize) -> usize
    ensures { drop result script.now ≡ drop 1 (drop at script.now) }
{
    if at < script.len() { at + 1 } else { at }
}
