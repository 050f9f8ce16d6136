//! Laws of lines and words.
ghost use Rattle.gs_list.specs.Laws.{EachTextHasItsLines, EachLineHasItsWords};

/// A text has one list of lines.
pub fn each_text_has_its_lines()
    ensures { EachTextHasItsLines }
{}

/// A line has one list of words, or a byte stands on it that may not, and not both.
pub fn each_line_has_its_words()
    ensures { EachLineHasItsWords }
{}
