//! The law of an interface text's fault.
ghost use Rattle.gs_idl_faults.specs.Laws.{OneFault};

/// A text has at most one fault: one line and one kind.
pub fn one_fault()
    ensures { OneFault }
{}
