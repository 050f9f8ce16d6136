// Whether a record is of these texts.
ghost use Rattle.std.specs.Prelude.{◌≡◌, ◌≢◌, MatchOption, IfErr, IsSomeAnd, OnOk, Some};
ghost use Rattle.gs_entries.specs.Order.{stage_of};
ghost use Rattle.gs_entries.specs.declared.entry.Stage.TheVariants as stages;
ghost use Rattle.gs_store.specs.Ordered.{texts_of, DifferFirst};

use crate::store::Store;
use gs_entries::{Entry, Texts};

/// A part of the texts that a run is of.
#[derive(Clone, Copy, Debug, PartialEq, Eq)]
pub enum What {
    IdlName,
    IdlText,
    ProgramName,
    ProgramText,
}

/// The store belongs to a run of other texts: the first part, in the order of `What`, that differs.
#[derive(Clone, Copy, Debug, PartialEq, Eq)]
pub struct OtherRun {
    pub what: What,
}

/// The first part in which texts differ from others.
fn first_difference(t: &Texts, u: &Texts) -> Option<What>
    ensures { MatchOption result (t.now ≡ u.now) (λ what. DifferFirst what t.now u.now) }
{
    if t.idl_name.bytes() != u.idl_name.bytes() {
        return Some(What::IdlName);
    }
    if t.idl.bytes() != u.idl.bytes() {
        return Some(What::IdlText);
    }
    if t.program_name.bytes() != u.program_name.bytes() {
        return Some(What::ProgramName);
    }
    if t.program.bytes() != u.program.bytes() {
        return Some(What::ProgramText);
    }
    None
}

impl Store {
    /// Whether the record, of which something is recorded, is of a run of these texts. `OtherRun`
    /// exactly where a part differs, with the first. It takes no memory.
    pub fn same(&self, t: &Texts) -> Result<(), OtherRun>
        requires begun { stage_of self.now.entries ≢ stages.Fresh }
        ensures same { OnOk result (texts_of self.now.entries ≡ Some t.now) }
        ensures other { IfErr result (λ e. IsSomeAnd (texts_of self.now.entries)
            (λ kept. DifferFirst e.what kept t.now)) }
    {
        let kept = self.header();
        match first_difference(kept, t) {
            None => Ok(()),
            Some(what) => Err(OtherRun { what }),
        }
    }

    /// The texts that the record, of which something is recorded, is of.
    fn header(&self) -> &Texts
        requires { stage_of self.now.entries ≢ stages.Fresh }
        ensures { texts_of self.now.entries ≡ Some result.now }
    {
        match self.book.entries().first() {
            Some(Entry::Header { t }) => t,
            _ => unreachable!(),
        }
    }
}
