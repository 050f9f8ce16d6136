// Laws, as contracts of functions that do nothing.
ghost use Rattle.gs_own_texts.specs.Laws.{OwnTextsStay, OwnTextsUnwritten};

/// The files of a run's own texts stay as they are at first, and none of its writings is of one.
pub fn own_texts_stay()
    ensures stay { OwnTextsStay }
    ensures unwritten { OwnTextsUnwritten }
{}
