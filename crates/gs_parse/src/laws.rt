//! Laws of the grammar and of the texts.

ghost use Rattle.gs_parse.specs.Laws.{LexicalFault, OneFault, OneMeaning, OneProgram, SamePlace, SaysOrFails};

/// Signs of one place differ only in what they hold.
pub fn same_place()
    ensures { SamePlace }
{}

/// A list of signs says at most one thing.
pub fn one_meaning()
    ensures { OneMeaning }
{}

/// A text says at most one program.
pub fn one_program()
    ensures { OneProgram }
{}

/// A text that says a program is at no fault.
pub fn says_or_fails()
    ensures { SaysOrFails }
{}

/// A text's fault has one line and one kind.
pub fn one_fault()
    ensures { OneFault }
{}

/// A lexical fault is told as such.
pub fn lexical_fault()
    ensures { LexicalFault }
{}
