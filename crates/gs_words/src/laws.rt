// Laws of words.
ghost use Rattle.gs_words.specs.Laws.{FailsOnce, SaysOne, SaysOrFails};

/// Words say one command at most, or go wrong at one place.
pub fn one_reading()
    ensures one { SaysOne }
    ensures either { SaysOrFails }
    ensures once { FailsOnce }
{}
