//! Laws of durations files and of plans.
ghost use Rattle.gs_plan.specs.Laws.{SaysOneList, FailsOnce, OneSchedule, OneChain};

/// A text says at most one list of durations.
pub fn says_one_list()
    ensures { SaysOneList }
{}

/// A text that says no durations goes wrong first on one line and in one way.
pub fn fails_once()
    ensures { FailsOnce }
{}

/// A run has one schedule by the rule on so many slots.
pub fn there_is_one_schedule()
    ensures { OneSchedule }
{}

/// A schedule has one chain.
pub fn there_is_one_chain()
    ensures { OneChain }
{}
