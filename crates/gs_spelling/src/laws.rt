//! Laws of printed programs and their signs.
ghost use Rattle.gs_spelling.specs.Laws.{PrintsItsSigns, TextsAreSpelled};

/// What a text holds is spelled so that it can be written.
pub fn texts_are_spelled()
    ensures { TextsAreSpelled }
{}

/// The text of a printed program has the program's signs.
pub fn prints_its_signs()
    ensures { PrintsItsSigns }
{}
