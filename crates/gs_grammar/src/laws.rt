//! The productions and the reader's grammar say the same.
ghost use Rattle.gs_grammar.specs.Laws.{OneProgram, SameLimited, SameTexts, SameUnlimited};

/// Without limits of depth, signs say a program by the productions exactly where they say it by the reader's grammar.
pub fn both_say_the_same()
    ensures { SameUnlimited }
{}

/// The reader's grammar says within its limits exactly the programs of the productions, with at most 64 parentheses of
/// grouping open at once, whose expressions and statements are at most 64 deep.
pub fn both_have_the_same_limits()
    ensures { SameLimited }
{}

/// The texts that the reader takes are those of the productions.
pub fn both_take_the_same_texts()
    ensures { SameTexts }
{}

/// The productions are not ambiguous.
pub fn one_program()
    ensures { OneProgram }
{}
