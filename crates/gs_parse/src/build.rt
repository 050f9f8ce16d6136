//! Putting expressions together, with their heights.

ghost use Rattle.std.specs.Prelude.{◌≡◌, ◌+◌, ◌<◌, max, MatchResult};
ghost use Rattle.gs_tree.specs.View.{term_of};
ghost use Rattle.gs_tree.specs.Program.{num, lit, var, neg, not_, atoi, strcmp, two};
ghost use Rattle.gs_parse.specs.Grammar.{height};

use crate::name::copied;
use crate::stop::Stop;
use gs_tree::{Expr, Ident, Op};
use std::alloc::Global;

/// An expression and its depth: 1 for a leaf.
#[derive(Drop)]
pub(crate) struct Operand {
    pub(crate) e: Expr,
    pub(crate) height: u32,
}

pub(crate) fn number_leaf(line: u32, v: i64) -> Operand
    ensures value { term_of result.e ≡ num line v }
    ensures height { result.height ≡ 1 }
{
    Operand {
        e: Expr::Num { line, v },
        height: 1,
    }
}

fn lit_expr(line: u32, s: Vec<u8>) -> Expr
    ensures { term_of result ≡ lit line s.items }
{
    Expr::Lit { line, s }
}

fn name_expr(line: u32, name: Vec<u8>) -> Expr
    ensures { term_of result ≡ var (record { line = line; text = name.items }) }
{
    Expr::Name {
        id: Ident { line, name },
    }
}

pub(crate) fn text_leaf(alloc: Global, line: u32, s: &[u8]) -> Result<Operand, Stop>
    ensures { MatchResult result (λ r. (term_of r.e ≡ lit line s.now) × (r.height ≡ 1)) (λ stop. stop ≡ Stop.NoMemory) }
{
    match copied(alloc, s) {
        Ok(s) => Ok(Operand {
            e: lit_expr(line, s),
            height: 1,
        }),
        Err(stop) => Err(stop),
    }
}

pub(crate) fn name_leaf(alloc: Global, line: u32, w: &[u8]) -> Result<Operand, Stop>
    ensures { MatchResult result (λ r. (term_of r.e ≡ var (record { line = line; text = w.now })) × (r.height ≡ 1)) (λ stop. stop ≡ Stop.NoMemory) }
{
    match copied(alloc, w) {
        Ok(name) => Ok(Operand {
            e: name_expr(line, name),
            height: 1,
        }),
        Err(stop) => Err(stop),
    }
}

pub(crate) fn negated(alloc: Global, a: Operand) -> Result<Operand, Stop>
    requires { a.height < 64 }
    ensures { MatchResult result (λ r. (term_of r.e ≡ neg (term_of a.e)) × (r.height ≡ a.height + 1)) (λ stop. stop ≡ Stop.NoMemory) }
{
    let Operand { e, height } = a;
    let e = match Box::new(alloc, e) {
        Ok(e) => e,
        Err(_) => return Err(Stop::NoMemory),
    };
    Ok(Operand {
        e: Expr::Neg { e },
        height: height + 1,
    })
}

pub(crate) fn inverted(alloc: Global, a: Operand) -> Result<Operand, Stop>
    requires { a.height < 64 }
    ensures { MatchResult result (λ r. (term_of r.e ≡ not_ (term_of a.e)) × (r.height ≡ a.height + 1)) (λ stop. stop ≡ Stop.NoMemory) }
{
    let Operand { e, height } = a;
    let e = match Box::new(alloc, e) {
        Ok(e) => e,
        Err(_) => return Err(Stop::NoMemory),
    };
    Ok(Operand {
        e: Expr::Not { e },
        height: height + 1,
    })
}

pub(crate) fn atoi_of(alloc: Global, a: Operand) -> Result<Operand, Stop>
    requires { a.height < 64 }
    ensures { MatchResult result (λ r. (term_of r.e ≡ atoi (term_of a.e)) × (r.height ≡ a.height + 1)) (λ stop. stop ≡ Stop.NoMemory) }
{
    let Operand { e, height } = a;
    let e = match Box::new(alloc, e) {
        Ok(e) => e,
        Err(_) => return Err(Stop::NoMemory),
    };
    Ok(Operand {
        e: Expr::Atoi { e },
        height: height + 1,
    })
}

fn higher(a: u32, b: u32) -> u32
    ensures { result ≡ max a b }
{
    if a < b { b } else { a }
}

pub(crate) fn strcmp_of(alloc: Global, a: Operand, b: Operand) -> Result<Operand, Stop>
    requires left { a.height < 64 }
    requires right { b.height < 64 }
    ensures { MatchResult result (λ r. (term_of r.e ≡ strcmp (term_of a.e) (term_of b.e)) × (r.height ≡ max a.height b.height + 1)) (λ stop. stop ≡ Stop.NoMemory) }
{
    let height = higher(a.height, b.height) + 1;
    let Operand { e: a, .. } = a;
    let Operand { e: b, .. } = b;
    let a = match Box::new(alloc, a) {
        Ok(a) => a,
        Err(_) => return Err(Stop::NoMemory),
    };
    let b = match Box::new(alloc, b) {
        Ok(b) => b,
        Err(_) => return Err(Stop::NoMemory),
    };
    Ok(Operand {
        e: Expr::Strcmp { a, b },
        height,
    })
}

pub(crate) fn joined_by(alloc: Global, op: Op, a: Operand, b: Operand) -> Result<Operand, Stop>
    requires left { a.height < 64 }
    requires right { b.height < 64 }
    ensures { MatchResult result (λ r. (term_of r.e ≡ two op (term_of a.e) (term_of b.e)) × (r.height ≡ max a.height b.height + 1)) (λ stop. stop ≡ Stop.NoMemory) }
{
    let height = higher(a.height, b.height) + 1;
    let Operand { e: a, .. } = a;
    let Operand { e: b, .. } = b;
    let a = match Box::new(alloc, a) {
        Ok(a) => a,
        Err(_) => return Err(Stop::NoMemory),
    };
    let b = match Box::new(alloc, b) {
        Ok(b) => b,
        Err(_) => return Err(Stop::NoMemory),
    };
    Ok(Operand {
        e: Expr::Two { op, a, b },
        height,
    })
}
