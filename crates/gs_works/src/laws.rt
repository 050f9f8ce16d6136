//! Laws of a queue that stands for a history, as contracts of functions that do nothing.

ghost use Rattle.gs_works.specs.Laws.{
  AbandonedIsBefore,
  BeginningIsBefore,
  BeginningLists,
  BeginningWorks,
  FailedLists,
  FailedLoss,
  FailedWorks,
  FinishedIsBefore,
  FinishedLists,
  FinishedWorks,
  LeastIsStranded,
  LeastStartIsDue,
  LossStays,
  NoLossIsBefore,
  NoStartIsQuiet,
  NoneCalled,
  NoneIsStranded,
  ReadyCalled,
  ReadyIsCalled,
  RefusedLists,
  RefusedLoss,
  RefusedWorks,
  SameLists,
  SameWorks,
  SettledLoss,
  StartedLists,
  StartedWorks,
  WaitingCalled,
};

/// A queue over an unused broker stands for what was recorded before, its list is right before the
/// first question, and nothing was lost.
pub fn begins()
    ensures works { BeginningWorks }
    ensures lists { BeginningLists }
    ensures before { BeginningIsBefore }
{}

/// Where the jobs and counts stay the same, the queue stands for the same history; where the list
/// stays the same, it is right for the same questions.
pub fn stays()
    ensures works { SameWorks }
    ensures lists { SameLists }
{}

/// After one more question the list is right where a ready task that was called is listed.
pub fn called()
    ensures none { NoneCalled }
    ensures ready { ReadyCalled }
    ensures waiting { WaitingCalled }
{}

/// A start that the queue counts is a start of the history.
pub fn started()
    ensures works { StartedWorks }
    ensures lists { StartedLists }
{}

/// A task that the queue ends has finished in the history; the list is right where those tasks are
/// listed that are ready by it.
pub fn finished()
    ensures works { FinishedWorks }
    ensures lists { FinishedLists }
{}

/// A failure that the queue counts is one of the history, of a job in flight or of a refused start,
/// and the task is listed again.
pub fn failed()
    ensures works { FailedWorks }
    ensures lists { FailedLists }
    ensures refused_works { RefusedWorks }
    ensures refused_lists { RefusedLists }
{}

/// At the frontier each ready task was called, the least start of the queue is due, and where the
/// queue has none, nothing can start.
pub fn starts_are_due()
    ensures called { ReadyIsCalled }
    ensures due { LeastStartIsDue }
    ensures quiet { NoStartIsQuiet }
{}

/// At the frontier the least stranded task of the queue is the least of the history, or neither has
/// one.
pub fn stranded()
    ensures none { NoneIsStranded }
    ensures least { LeastIsStranded }
{}

/// At the frontier a look at the queue says what is lost, and so does a failure, where nothing was
/// lost before; a loss stays the loss.
pub fn losses()
    ensures settled { SettledLoss }
    ensures failed { FailedLoss }
    ensures refused { RefusedLoss }
    ensures stays { LossStays }
{}

/// Where nothing was lost, nothing was lost before the last event, nor before one more that fails
/// no task.
pub fn nothing_lost_before()
    ensures now { NoLossIsBefore }
    ensures finished { FinishedIsBefore }
    ensures abandoned { AbandonedIsBefore }
{}
