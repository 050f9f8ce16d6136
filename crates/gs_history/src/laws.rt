//! Laws of histories, as contracts of functions that do nothing.

ghost use Rattle.gs_history.specs.Needs.{FrontierIsOfNeeds};
ghost use Rattle.gs_history.specs.Refusals.{CallsByVersions};
ghost use Rattle.gs_history.specs.Laws.{
  DoneIsTrue,
  EachStartsOnce,
  FlyingIsOpen,
  InputsAreVersions,
  LossIsLoss,
  NoDeadlock,
  NotesFitUnlessMisfit,
  NotesOfAnyFuel,
  OneLoss,
  SlotsSuffice,
  StartsLoseNothing,
  StoppedIsEnded,
};

/// What the program asks is within the frontier exactly where the tasks are done that its action
/// needs, and a call's task has room in the window.
pub fn frontier_is_of_needs()
    ensures { FrontierIsOfNeeds }
{}

/// A call is answered by the originals that it reads and by what the program closed, whether or not
/// the tasks are done whose outputs it reads.
pub fn calls_by_versions()
    ensures { CallsByVersions }
{}

/// A history has one loss at most, and none where nothing was lost; a start loses nothing.
pub fn losses()
    ensures one { OneLoss }
    ensures none { LossIsLoss }
    ensures started { StartsLoseNothing }
{}

/// A task in flight was called within the frontier, and its inputs are there.
pub fn flying_is_open()
    ensures { FlyingIsOpen }
{}

/// What is done gave what it gives in the sequential run; and where the program's last question
/// comes and each task is done, the sequential run ends in that question.
pub fn done_is_true()
    ensures done { DoneIsTrue }
    ensures ended { StoppedIsEnded }
{}

/// What was recorded of a task at some fuel is right at each fuel.
pub fn notes_of_any_fuel()
    ensures { NotesOfAnyFuel }
{}

/// Where no question so far called a task of another form than its note, the notes fit.
pub fn notes_fit()
    ensures { NotesFitUnlessMisfit }
{}

/// The tasks that a task truly depends on are done exactly where the versions are there that it
/// reads.
pub fn inputs_are_versions()
    ensures { InputsAreVersions }
{}

/// A task that is started was neither done nor in flight, with nothing lost before; and no worker
/// ever has more jobs than slots.
pub fn starts_are_due()
    ensures once { EachStartsOnce }
    ensures slots { SlotsSuffice }
{}

/// Something is always due: where no job is in flight, nothing may start and nothing was lost, the
/// program has asked its last question, and each task is done.
pub fn no_deadlock()
    ensures { NoDeadlock }
{}
