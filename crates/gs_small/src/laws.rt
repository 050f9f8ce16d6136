//! A law of the sequential run, as a contract of a function that does nothing.

ghost use Rattle.gs_small.specs.Laws.{TasksAreSmall};

/// Where an interface is sized, costs tell apart each task's operation, and the length of what it
/// reads.
pub fn tasks_are_small()
    ensures { TasksAreSmall }
{}
