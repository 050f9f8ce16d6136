// Expressions whose variables are named by their places.
ghost use Rattle.std.specs.Prelude.{◌≡◌, IfOk, map};
ghost use Rattle.gs_tree.specs.View.{term_of};
ghost use Rattle.gs_talk.specs.Terms.{place_of, placed, all_placed};
ghost use Rattle.gs_talk.specs.View.{placed_of, all_placed_of};

use gs_tree::{Expr, Op};
use gs_types::{Blob, NoMemory, Text};
use std::alloc::Global;

/// An expression. A variable is named by its place in the order of declaration, from 0.
#[derive(Drop)]
pub enum Formula {
    Num {
        v: i64,
    },
    Lit {
        s: Text,
    },
    At {
        i: usize,
    },
    Atoi {
        e: Box<Formula>,
    },
    Strcmp {
        a: Box<Formula>,
        b: Box<Formula>,
    },
    Neg {
        e: Box<Formula>,
    },
    Not {
        e: Box<Formula>,
    },
    Two {
        op: Op,
        a: Box<Formula>,
        b: Box<Formula>,
    },
}

/// The place of a name among these, from 0; their number where none has it.
pub fn place_of(names: &[Blob], name: &[u8]) -> usize
    ensures { result ≡ place_of names.now name.now }
{
    let mut i = 0;
    for other in names {
        if other.bytes() == name {
            return i;
        }
        i += 1;
    }
    i
}

impl Formula {
    /// The expression with these names' variables by their places. `NoMemory` comes also for a
    /// literal that is no string; the reader of programs gives none.
    pub fn of(alloc: Global, e: &Expr, names: &[Blob]) -> Result<Formula, NoMemory>
        ensures { IfOk result (λ f. placed_of f ≡ placed names.now (term_of e.now)) }
    {
        Ok(match e {
            Expr::Num { line: _, v } => Formula::Num { v: *v },
            Expr::Lit { line: _, s } => literal(alloc, s)?,
            Expr::Name { id } => Formula::At {
                i: place_of(names, &id.name),
            },
            Expr::Atoi { e } => Formula::Atoi {
                e: Box::new(alloc, Formula::of(alloc, e, names)?)?,
            },
            Expr::Strcmp { a, b } => Formula::Strcmp {
                a: Box::new(alloc, Formula::of(alloc, a, names)?)?,
                b: Box::new(alloc, Formula::of(alloc, b, names)?)?,
            },
            Expr::Neg { e } => Formula::Neg {
                e: Box::new(alloc, Formula::of(alloc, e, names)?)?,
            },
            Expr::Not { e } => Formula::Not {
                e: Box::new(alloc, Formula::of(alloc, e, names)?)?,
            },
            Expr::Two { op, a, b } => Formula::Two {
                op: *op,
                a: Box::new(alloc, Formula::of(alloc, a, names)?)?,
                b: Box::new(alloc, Formula::of(alloc, b, names)?)?,
            },
        })
    }
}

fn literal(alloc: Global, bytes: &[u8]) -> Result<Formula, NoMemory>
    ensures { IfOk result (λ f. f ≡ Formula.Lit bytes.now) }
{
    match Text::read(alloc, bytes) {
        Ok(s) => Ok(Formula::Lit { s }),
        Err(_) => Err(NoMemory),
    }
}

/// Several expressions, in order. `NoMemory` as for one.
pub fn formulas(alloc: Global, es: &[Expr], names: &[Blob]) -> Result<Vec<Formula>, NoMemory>
    ensures { IfOk result (λ fs.
        all_placed_of fs.items ≡ all_placed names.now (map term_of es.now)) }
{
    let mut all = Vec::new(alloc);
    for e in es {
        all.push(Formula::of(alloc, e, names)?)?;
    }
    Ok(all)
}
