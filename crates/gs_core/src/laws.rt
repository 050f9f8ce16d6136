//! Laws of a core, as contracts of functions that do nothing.

ghost use Rattle.gs_core.specs.Laws.{IdleHasEnded, ListedGoOn};

/// A run never stands still: where the core has settled, no start is due and no task is in flight,
/// the verdict is never that it goes on.
pub fn idle_has_ended()
    ensures { IdleHasEnded }
{}

/// A window from 1 on, and workers that a text lists, are all that this asks of a run.
pub fn listed_go_on()
    ensures { ListedGoOn }
{}
