// The value of an expression.
ghost use Rattle.std.specs.Prelude.{◌≡◌, slice_get};
ghost use Rattle.gs_tree.specs.View.{term_of};
ghost use Rattle.gs_talk.specs.Terms.{placed};
ghost use Rattle.gs_talk.specs.Values.{int_of, text_of, or_kind, held_at, value_of, values_of};
ghost use Rattle.gs_talk.specs.View.{placed_of, all_placed_of};
ghost use Rattle.gs_talk.specs.Found.{Finds, FindsAll, Evaluates};

use crate::arithmetic::{apply, decided, is_zero, negated, order_of, truth};
use crate::atoi::atoi;
use crate::{Formula, Slot, TalkErr, Trouble, Vars};
use gs_tree::Expr;
use gs_types::{FaultKind, Value};
use std::alloc::Global;

/// The number; 0 for another value.
pub fn int_of(v: &Value) -> i64
    ensures { result ≡ int_of v.now }
{
    match v {
        Value::Int { v } => *v,
        Value::Str { s: _ } => 0,
        Value::File { bytes: _ } => 0,
    }
}

/// The string; no bytes for another value.
pub fn text_of(v: &Value) -> &[u8]
    ensures { result.now ≡ text_of v.now }
{
    match v {
        Value::Int { v: _ } => &[],
        Value::Str { s } => s.bytes(),
        Value::File { bytes: _ } => &[],
    }
}

fn or_kind(found: Result<i64, FaultKind>) -> Result<Value, Trouble>
    ensures { Finds (or_kind found) result }
{
    match found {
        Ok(v) => Ok(Value::Int { v }),
        Err(kind) => Err(Trouble::Kind { kind }),
    }
}

fn look(alloc: Global, i: usize, vars: &[Slot]) -> Result<Value, Trouble>
    ensures { Finds (held_at i (slice_get vars.now i)) result }
{
    match vars.get(i) {
        None => Ok(Value::Int { v: 0 }),
        Some(Slot::Held { v }) => Ok(v.copy(alloc)?),
        Some(Slot::Due { n, place }) => Err(Trouble::Need {
            i,
            n: *n,
            place: *place,
        }),
    }
}

/// The value of an expression, or the first trouble from the left. `&&` and `||` leave the right
/// side out where the left side decides.
pub fn value(alloc: Global, e: &Formula, vars: &[Slot]) -> Result<Value, Trouble>
    ensures { Finds (value_of (placed_of e.now) vars.now) result }
{
    match e {
        Formula::Num { v } => Ok(Value::Int { v: *v }),
        Formula::Lit { s } => Ok(Value::Str { s: s.copy(alloc)? }),
        Formula::At { i } => look(alloc, *i, vars),
        Formula::Atoi { e } => {
            let x = value(alloc, e, vars)?;
            or_kind(atoi(text_of(&x)))
        }
        Formula::Strcmp { a, b } => {
            let x = value(alloc, a, vars)?;
            let y = value(alloc, b, vars)?;
            Ok(Value::Int {
                v: order_of(text_of(&x), text_of(&y)),
            })
        }
        Formula::Neg { e } => {
            let x = value(alloc, e, vars)?;
            or_kind(negated(int_of(&x)))
        }
        Formula::Not { e } => {
            let x = value(alloc, e, vars)?;
            Ok(Value::Int {
                v: truth(is_zero(int_of(&x))),
            })
        }
        Formula::Two { op, a, b } => {
            let x = int_of(&value(alloc, a, vars)?);
            if let Some(v) = decided(*op, x) {
                return Ok(Value::Int { v });
            }
            let y = int_of(&value(alloc, b, vars)?);
            or_kind(apply(*op, x, y))
        }
    }
}

/// The values in order, or the first trouble.
pub fn values(alloc: Global, es: &[Formula], vars: &[Slot]) -> Result<Vec<Value>, Trouble>
    ensures { FindsAll (values_of (all_placed_of es.now) vars.now) result }
{
    let mut all = Vec::new(alloc);
    for e in es {
        all.push(value(alloc, e, vars)?)?;
    }
    Ok(all)
}

/// The value of an expression: a fault or the value that is waited for, whichever comes first from
/// the left. `NoMemory` comes also for a literal that is no string; the reader of programs gives
/// none.
pub fn eval(alloc: Global, e: &Expr, vars: &Vars) -> Result<Value, TalkErr>
    ensures { Evaluates (value_of (placed vars.now.names (term_of e.now)) vars.now.slots) result }
{
    let formula = Formula::of(alloc, e, vars.names())?;
    match value(alloc, &formula, vars.slots()) {
        Ok(v) => Ok(v),
        Err(Trouble::Kind { kind }) => Err(TalkErr::Kind { kind }),
        Err(Trouble::Need { i: _, n, place }) => Err(TalkErr::Need { n, place }),
        Err(Trouble::NoMemory) => Err(TalkErr::NoMemory),
    }
}
