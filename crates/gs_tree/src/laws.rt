//! Laws of the lexical grammar and of formats.
ghost use Rattle.gs_tree.specs.Laws.{KindsOfPieces, OneReading};

/// A text has one list of tokens at most.
pub fn one_reading()
    ensures { OneReading }
{}

/// A format takes the kinds of its pieces.
pub fn kinds_of_pieces()
    ensures { KindsOfPieces }
{}
