//! Laws of interface texts, as contracts of functions that do nothing.

ghost use Rattle.gs_idl.specs.Laws.{SaysOne, PrintsBack};

/// A text says at most one interface.
pub fn says_one()
    ensures { SaysOne }
{}

/// The printed form of what a text says is read back as the same, where it has at most 65,536
/// bytes.
pub fn prints_back()
    ensures { PrintsBack }
{}
