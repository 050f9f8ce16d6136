//! Laws of the checks, as contracts of functions that do nothing.

ghost use Rattle.gs_check.specs.Laws.{PassesNodeByNode, SameKeywords, SameLetters};

/// A program without a fault passes, node by node.
pub fn passes_node_by_node()
    ensures { PassesNodeByNode }
{}

/// What no operation may be called is what a main program has for itself.
pub fn same_keywords()
    ensures { SameKeywords }
{}

/// Names begin and go on with the same bytes in both texts.
pub fn same_letters()
    ensures { SameLetters }
{}
