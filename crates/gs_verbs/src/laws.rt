// Laws of the stores of folders.
ghost use Rattle.gs_verbs.specs.Laws.{HasOneStore, HasNoBadStore};

/// A folder has the entries of one store at most, and where it has a store, none of the ways in
/// which a folder has none.
pub fn one_store()
    ensures one { HasOneStore }
    ensures good { HasNoBadStore }
{}
