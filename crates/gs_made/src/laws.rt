//! Laws of made texts, as contracts of functions that do nothing.

ghost use Rattle.gs_idl.specs.Interface.{IsWellFormed};
ghost use Rattle.gs_made.specs.Texts.{self_interface};
ghost use Rattle.gs_made.specs.Laws.{EachTakesAll, HasNoFault, SaysInterface, SaysProgram, SaysWorkers};
ghost use Rattle.gs_made.specs.Readings.{InterfaceIsRight, OneInterface, OneList, OneProgram, ProgramIsRight, WorkersAreRight};
ghost use Rattle.gs_made.specs.Runs.{MadeRunsEnd};

/// The text of the interface says it, and it keeps the rules of interfaces.
pub fn interface_is_said()
    ensures says { SaysInterface }
    ensures keeps_rules { IsWellFormed self_interface }
{}

/// The text of the workers says them, and each takes each operation.
pub fn workers_are_said()
    ensures says { SaysWorkers }
    ensures take_all { EachTakesAll }
{}

/// The text of a program of at most 2,000 tasks says the program.
pub fn program_is_said()
    ensures { SaysProgram }
{}

/// The texts that are made say nothing else.
pub fn nothing_else_is_said()
    ensures interface { OneInterface }
    ensures program { OneProgram }
    ensures workers { OneList }
{}

/// No text that is made is at fault.
pub fn none_is_at_fault()
    ensures interface { InterfaceIsRight }
    ensures program { ProgramIsRight }
    ensures workers { WorkersAreRight }
{}

/// Each program that is made passes its checks.
pub fn program_has_no_fault()
    ensures { HasNoFault }
{}

/// The sequential run of a program of at most 2,000 tasks ends after a call of each, none lost.
pub fn run_ends()
    ensures { MadeRunsEnd }
{}
