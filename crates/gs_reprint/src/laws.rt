//! Laws of the reader and the printer together.
ghost use Rattle.gs_reprint.specs.Laws.{PrintsOnce, ReadsBack, ReadsWithin, SaysAgain};

/// What signs say is within the limits of depth, and spelled as the signs are.
pub fn reads_within()
    ensures { ReadsWithin }
{}

/// The signs of a printed program within the limits say it again.
pub fn says_again()
    ensures { SaysAgain }
{}

/// The printed form of what a text says, where it isn't too long, says the same but for the lines.
pub fn reads_back()
    ensures { ReadsBack }
{}

/// Whatever that printed form says is what the text says but for the lines.
pub fn prints_once()
    ensures { PrintsOnce }
{}
