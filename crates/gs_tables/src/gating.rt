// What is recorded where a program has ended.
ghost use Rattle.std.specs.Prelude.{◌≡◌, ◌++◌, ◌∷◌, [], IfOk};
ghost use Rattle.gs_types.specs.declared.action.Action.TheVariants as action;
ghost use Rattle.gs_names.specs.Table.{names_in, writes_in};
ghost use Rattle.gs_names.specs.Writes.{first_written};
ghost use Rattle.gs_tables.specs.Finals.{made_length, IsTold, AreTold};

use crate::lengths::{main_length, noted_length, out_at};
use crate::tables::Tables;
use gs_names::NameTable;
use gs_types::{Action, FinalNote, Name, NoMemory, Sequence, Version};
use std::alloc::Global;

/// What a main program that has ended did and left: the names of its actions in the order in which
/// they first stand there, the last version of each file that it wrote, in the order of first
/// writing, and its actions, of which `End` is the last. Actions and versions tell a name by its
/// number in the list of names, from 0.
#[derive(Debug, Drop)]
pub struct Gated {
    pub names: Sequence<Name>,
    pub finals: Sequence<FinalNote>,
    pub actions: Sequence<Action>,
}

// The names in the order of their numbers.
fn copy_names(alloc: Global, table: &NameTable) -> Result<Sequence<Name>, NoMemory>
    ensures { IfOk result (λ xs. xs ≡ names_in table.now) }
{
    let mut names = Sequence::new(alloc);
    for i in 0..table.count() {
        names.push(table.name(i).copy())?;
    }
    Ok(names)
}

// The numbers again.
fn copy_numbers(alloc: Global, numbers: &[u32]) -> Result<Sequence<u32>, NoMemory>
    ensures { IfOk result (λ is. is ≡ numbers.now) }
{
    Ok(Sequence::of(Vec::from_slice(alloc, numbers)?))
}

// The action again.
fn copy_action(alloc: Global, a: &Action) -> Result<Action, NoMemory>
    ensures { IfOk result (λ b. b ≡ a.now) }
{
    Ok(match a {
        Action::Call {
            n,
            op,
            reads,
            writes,
        } => Action::Call {
            n: *n,
            op: *op,
            reads: copy_numbers(alloc, reads.items())?,
            writes: copy_numbers(alloc, writes.items())?,
        },
        Action::Use { n, place } => Action::Use {
            n: *n,
            place: *place,
        },
        Action::Result { n } => Action::Result { n: *n },
        Action::Read { name } => Action::Read { name: *name },
        Action::Write { name } => Action::Write { name: *name },
        Action::Barrier => Action::Barrier,
        Action::End => Action::End,
    })
}

// The actions again, and the end behind them.
fn ended(alloc: Global, actions: &[Action]) -> Result<Sequence<Action>, NoMemory>
    ensures { IfOk result (λ made. made ≡ actions.now ++ action.End ∷ []) }
{
    let mut made = Sequence::new(alloc);
    for a in actions {
        made.push(copy_action(alloc, a)?)?;
    }
    made.push(Action::End)?;
    Ok(made)
}

impl Tables {
    ghost use Rattle.std.specs.Prelude.{◌≡◌, ◌++◌, ◌∷◌, [], ℕ, List, IfOk};
    ghost use Rattle.gs_types.specs.History.{History};
    ghost use Rattle.gs_history.specs.Setup.{Setup, count_at};
    ghost use Rattle.gs_history.specs.Frontier.{AllDone};
    ghost use Rattle.gs_names.specs.Table.{names_in, writes_in};
    ghost use Rattle.gs_names.specs.Writes.{first_written};
    ghost use Rattle.gs_tables.specs.Finals.{made_length, IsTold, AreTold};
    ghost use Rattle.gs_tables.specs.Gate.{IsGated};
    ghost use Rattle.gs_tables.specs.Holds.{Holds};

    // The bytes of a version that a task left, or that the program closed.
    fn made_length(&self, v: &Version) -> u64
        ensures { result ≡ made_length self.now.rows.items self.now.mains.items v.now }
    {
        match v {
            Version::Original { name: _ } => 0,
            Version::Main { k } => main_length(&self.mains, *k),
            Version::Out { n, place } => match out_at(&self.rows, *n, *place) {
                None => 0,
                Some(v) => noted_length(v),
            },
        }
    }

    // A written file, by the number of its name: each name that is written has one.
    fn final_note(&self, name: &Name) -> FinalNote
        ensures { IsTold self.now name.now result }
    {
        let version = self.names.current(name);
        let len = self.made_length(&version);
        FinalNote {
            name: self.names.number_of(name).unwrap_or(0),
            version,
            len,
        }
    }

    // The written files in the order of their first writing.
    fn finals(&self) -> Result<Sequence<FinalNote>, NoMemory>
        ensures { IfOk result (λ fs. AreTold self.now
            (first_written (writes_in self.now.names)) fs) }
    {
        let mut finals = Sequence::new(self.alloc);
        for (name, _) in self.names.finals(self.alloc)? {
            finals.push(self.final_note(&name))?;
        }
        Ok(finals)
    }

    /// What the main program did and left, where it has ended and each of its tasks is done. Each
    /// part is as long as the program's own, and the only error is want of memory.
    pub fn gate(&self) -> Result<Gated, NoMemory>
        ensures { (s : Setup) (k : ℕ) (h : History) → Holds self.now s k h →
            AllDone h (count_at s k) →
            IfOk result (λ g. IsGated s k g.names g.finals g.actions) }
    {
        Ok(Gated {
            names: copy_names(self.alloc, &self.names)?,
            finals: self.finals()?,
            actions: ended(self.alloc, self.graph.actions())?,
        })
    }
}
