//! Laws of worker lists.
ghost use Rattle.gs_broker.specs.TextLaws.{SaysOneList, FailsOnce, TellEntries};

/// A text says at most one list.
pub fn says_one_list()
    ensures { SaysOneList }
{}

/// A text that says no list goes wrong first on one line and in one way.
pub fn fails_once()
    ensures { FailsOnce }
{}

/// What `count`, `takes` and `program` say of a list is what stands in its entries, of which
/// `Workers::read` tells that they are what the text says.
pub fn tell_entries()
    ensures { TellEntries }
{}
