//! Laws, as contracts of functions that do nothing.

ghost use Rattle.gs_talk_laws.specs.Fuels.{
  SmallerIsCut,
  MoreFuel,
  FuelPrefix,
  SameStandings,
  TasksGoOn,
  SameTasks,
  SameClosed,
  SameEnd,
  OneEnd,
};
ghost use Rattle.gs_talk_laws.specs.Ends.{EachRunEnds, EndsStay};
ghost use Rattle.gs_talk_laws.specs.Depends.{
  DependsOnWhatItReads,
  LastWriterWrote,
  ReadsWhatItDependsOn,
};
ghost use Rattle.gs_talk_laws.specs.Uses.{UsesAreDue, CallsFit};
ghost use Rattle.gs_talk_laws.specs.Stuck.{FilesAreKnown, StuckIsLost, UsesAreOfTasks};
ghost use Rattle.gs_talk_laws.specs.Versions.{
  ClosedStay,
  FilesAreVersions,
  LatestIsStored,
  ReadingsStay,
  TasksReadVersions,
  TasksStay,
  WritingsAreStored,
};

/// More fuel asks the same.
pub fn more_fuel()
    ensures dialogues { SmallerIsCut }
    ensures questions { MoreFuel }
    ensures exchanges { FuelPrefix }
    ensures standings { SameStandings }
{}

/// A task or a content that two fuels have is the same.
pub fn two_fuels()
    ensures go_on { TasksGoOn }
    ensures tasks { SameTasks }
    ensures closed { SameClosed }
{}

/// An end other than by fuel is the same at every fuel at which an end comes.
pub fn same_end()
    ensures greater { SameEnd }
    ensures any { OneEnd }
{}

/// A use names a task that was called, at a place where it leaves a number or a string, once.
pub fn uses_are_due()
    ensures { UsesAreDue }
{}

/// What a call passes fits the operation's parameters.
pub fn calls_fit()
    ensures { CallsFit }
{}

/// Each run ends or is stuck, after as many answers as there may be actions, and stays so.
pub fn each_run_ends()
    ensures ends { EachRunEnds }
    ensures stay { EndsStay }
{}

/// Each file holds what its last version holds: its original, what a task left, or what the program
/// closed.
pub fn files_are_versions()
    ensures files { FilesAreVersions }
    ensures writings { WritingsAreStored }
    ensures latest { LatestIsStored }
{}

/// Each task takes what the versions hold that it reads, none of them its own or a later task's,
/// and gives what the law says.
pub fn tasks_read_versions()
    ensures { TasksReadVersions }
{}

/// What a run has called, closed and read at some moment stays.
pub fn all_stays()
    ensures tasks { TasksStay }
    ensures closed { ClosedStay }
    ensures readings { ReadingsStay }
{}

/// A run is stuck only while a task is lost; a use names one of its tasks.
pub fn stuck_is_lost()
    ensures uses { UsesAreOfTasks }
    ensures files { FilesAreKnown }
    ensures stuck { StuckIsLost }
{}

/// A task truly depends on exactly those tasks whose outputs it reads.
pub fn depends_on_what_it_reads()
    ensures writers { LastWriterWrote }
    ensures reads { ReadsWhatItDependsOn }
    ensures depends { DependsOnWhatItReads }
{}
