// How a run has ended.
ghost use Rattle.std.specs.Prelude.{◌≡◌};
ghost use Rattle.gs_core.specs.Verdicts.{last_verdict, stopped};

use gs_talk::Question;
use gs_types::FaultKind;

/// How the run has ended: it goes on; the program has ended, run out of steps, or failed at a line;
/// a task has failed too often; the workers of a task have; or the entry with this index has a task
/// of another form.
#[derive(Clone, Copy, Debug, PartialEq, Eq, Drop)]
pub enum Verdict {
    More,
    Ended,
    FuelOut,
    Fault { line: u32, kind: FaultKind },
    TaskLost { n: u32 },
    WorkersLost { n: u32 },
    Misfit { index: u32 },
}

/// How the run ends by the question, where each task has finished.
fn last_verdict(q: &Question) -> Verdict
    ensures { result ≡ last_verdict q.now }
{
    match q {
        Question::Call { .. } => Verdict::More,
        Question::Use { .. } => Verdict::More,
        Question::OpenFile { .. } => Verdict::More,
        Question::CloseFile { .. } => Verdict::More,
        Question::Barrier => Verdict::More,
        Question::End => Verdict::Ended,
        Question::Fault { line, kind } => Verdict::Fault {
            line: *line,
            kind: *kind,
        },
        Question::FuelOut => Verdict::FuelOut,
    }
}

/// How the run ends where nothing is lost.
pub(crate) fn stopped(asked: &Option<Question>, is_done: bool) -> Verdict
    ensures { result ≡ stopped asked.now is_done }
{
    match asked {
        None => Verdict::More,
        Some(q) => {
            if is_done {
                return last_verdict(q);
            }
            Verdict::More
        }
    }
}
