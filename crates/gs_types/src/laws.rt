// Laws of histories.
ghost use Rattle.gs_types.specs.HistoryLaws.{SinceIsWhatCameAfter, RefusedIsStartedAndFailed};

/// What came after a mark is the part of a history since it.
pub fn since_is_what_came_after()
    ensures { SinceIsWhatCameAfter }
{}

/// A refused start of a task that isn't in flight counts as a start and then a failure: of the
/// task, and of the worker.
pub fn refused_is_started_and_failed()
    ensures { RefusedIsStartedAndFailed }
{}
