//! Laws of dialogues.
ghost use Rattle.gs_talk.specs.Laws.{BeginsAgain, AllBeginAgain, PassedBeginAgain};

/// An evaluation gives its value or meets its fault; or it asks for a variable's value, and begins
/// again.
pub fn begins_again()
    ensures one { BeginsAgain }
    ensures several { AllBeginAgain }
    ensures passed { PassedBeginAgain }
{}
