// Which actions a plan takes.
ghost use Rattle.std.specs.Bool.{Decides};
ghost use Rattle.gs_plan.specs.Fits.{IsInPlace, Fit};

use gs_types::{ACTION_LIMIT, Action, TASK_LIMIT};

// Whether the action may stand behind so many calls.
fn is_in_place(action: &Action, ops: u8, calls: u32) -> bool
    ensures { Decides result (IsInPlace ops calls action.now) }
{
    match action {
        Action::Call { n, op, .. } => *n > calls && *n - calls == 1 && *op < ops,
        Action::Use { n, .. } => 1 <= *n && *n <= calls,
        Action::Result { n } => 1 <= *n && *n <= calls,
        _ => true,
    }
}

/// Whether the actions, oldest first, are ones that `plan` takes: at most 50,001, calls numbered
/// from 1 in their order, at most 10,000, of operations below `ops`, and each use or wait of a
/// task behind its call.
pub fn fits(actions: &[Action], ops: u8) -> bool
    ensures { Decides result (Fit ops actions.now) }
{
    if actions.len() > ACTION_LIMIT + 1 {
        return false;
    }
    let mut calls = 0;
    for action in actions {
        if !is_in_place(action, ops, calls) {
            return false;
        }
        if let Action::Call { .. } = action {
            calls += 1;
        }
    }
    calls as usize <= TASK_LIMIT
}
