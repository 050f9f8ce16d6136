// Laws of what operations give.
ghost use Rattle.gs_report.specs.Laws.{HashGives, MarkGives};

/// `hash` gives the digest of one file followed by the other, which fits its places.
pub fn hash_gives_a_file()
    ensures { HashGives }
{}

/// `mark` gives the digest of a file followed by the decimal of a number, which fits its places.
pub fn mark_gives_a_file()
    ensures { MarkGives }
{}
