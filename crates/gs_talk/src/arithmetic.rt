// Numbers of 64 bits, and the order of strings.
ghost use Rattle.std.specs.Prelude.{◌≡◌, pos, ◌-ℤ◌};
ghost use Rattle.gs_talk.specs.Values.{fit, is_zero, truth, is_equal, quotient, remainder, apply, decided, order_of};

use gs_tree::Op;
use gs_types::FaultKind;
use std::cmp::Ordering;

pub(crate) fn truth(holds: bool) -> i64
    ensures { result ≡ truth holds }
{
    if holds { 1 } else { 0 }
}

pub(crate) fn is_zero(a: i64) -> bool
    ensures { result ≡ is_zero a }
{
    a == 0
}

fn is_equal(a: i64, b: i64) -> bool
    ensures { result ≡ is_equal a b }
{
    a == b
}

fn quotient(a: i64, b: i64) -> Result<i64, FaultKind>
    ensures { result ≡ quotient a b }
{
    if is_zero(b) {
        return Err(FaultKind::ZeroDivisor);
    }
    a.checked_div(b).ok_or(FaultKind::Overflow)
}

fn remainder(a: i64, b: i64) -> Result<i64, FaultKind>
    ensures { result ≡ remainder a b }
{
    if is_zero(b) {
        return Err(FaultKind::ZeroDivisor);
    }
    a.checked_rem(b).ok_or(FaultKind::Overflow)
}

/// 0 less the number.
pub(crate) fn negated(a: i64) -> Result<i64, FaultKind>
    ensures { result ≡ fit (pos 0 -ℤ a) }
{
    0i64.checked_sub(a).ok_or(FaultKind::Overflow)
}

/// An operator, where the left side alone doesn't decide.
pub(crate) fn apply(op: Op, a: i64, b: i64) -> Result<i64, FaultKind>
    ensures { result ≡ apply op a b }
{
    match op {
        Op::Or => Ok(truth(!is_zero(b))),
        Op::And => Ok(truth(!is_zero(b))),
        Op::Eq => Ok(truth(is_equal(a, b))),
        Op::Ne => Ok(truth(!is_equal(a, b))),
        Op::Lt => Ok(truth(a < b)),
        Op::Le => Ok(truth(a <= b)),
        Op::Gt => Ok(truth(b < a)),
        Op::Ge => Ok(truth(b <= a)),
        Op::Add => a.checked_add(b).ok_or(FaultKind::Overflow),
        Op::Sub => a.checked_sub(b).ok_or(FaultKind::Overflow),
        Op::Mul => a.checked_mul(b).ok_or(FaultKind::Overflow),
        Op::Div => quotient(a, b),
        Op::Rem => remainder(a, b),
    }
}

/// What the left side alone decides.
pub(crate) fn decided(op: Op, a: i64) -> Option<i64>
    ensures { result ≡ decided op a }
{
    match op {
        Op::Or => { if is_zero(a) { None } else { Some(1) } }
        Op::And => { if is_zero(a) { Some(0) } else { None } }
        Op::Eq => None,
        Op::Ne => None,
        Op::Lt => None,
        Op::Le => None,
        Op::Gt => None,
        Op::Ge => None,
        Op::Add => None,
        Op::Sub => None,
        Op::Mul => None,
        Op::Div => None,
        Op::Rem => None,
    }
}

/// -1, 0 or 1, by the first byte that differs; a proper prefix is less.
pub(crate) fn order_of(a: &[u8], b: &[u8]) -> i64
    ensures { result ≡ order_of a.now b.now }
{
    match a.cmp(b) {
        Ordering::Less => -1,
        Ordering::Equal => 0,
        Ordering::Greater => 1,
    }
}
