//! Binary operators.

ghost use Rattle.std.specs.Prelude.{◌≡◌, ◌+◌, ◌-◌, ◌^◌, ◌<◌, MatchOption, OnSome};
ghost use Rattle.gs_tree.specs.Shown.{sign_shown};
ghost use Rattle.gs_tree.specs.Signs.{sign_of_symbol};
ghost use Rattle.gs_parse.specs.Operators.{IsOperator, NoOperator};
ghost use Rattle.gs_parse.specs.Reads.{left};
ghost use Rattle.gs_parse.specs.Symbols.{binding, operator};

use crate::marks::look;
use gs_tree::sign::{Sign, Symbol};
use gs_tree::{Op, Tokens};

fn binding_of(symbol: Symbol) -> u32
    ensures { result ≡ binding (sign_of_symbol symbol) }
{
    match symbol {
        Symbol::Star => 1,
        Symbol::Slash => 1,
        Symbol::Percent => 1,
        Symbol::Plus => 2,
        Symbol::Minus => 2,
        Symbol::Less => 3,
        Symbol::LessEqual => 3,
        Symbol::Greater => 3,
        Symbol::GreaterEqual => 3,
        Symbol::EqualEqual => 4,
        Symbol::NotEqual => 4,
        Symbol::AndAnd => 5,
        Symbol::OrOr => 6,
        _ => 0,
    }
}

fn operator_of(symbol: Symbol) -> Op
    ensures { result ≡ operator (sign_of_symbol symbol) }
{
    match symbol {
        Symbol::Star => Op::Mul,
        Symbol::Slash => Op::Div,
        Symbol::Percent => Op::Rem,
        Symbol::Plus => Op::Add,
        Symbol::Minus => Op::Sub,
        Symbol::Less => Op::Lt,
        Symbol::LessEqual => Op::Le,
        Symbol::Greater => Op::Gt,
        Symbol::GreaterEqual => Op::Ge,
        Symbol::EqualEqual => Op::Eq,
        Symbol::NotEqual => Op::Ne,
        Symbol::AndAnd => Op::And,
        _ => Op::Or,
    }
}

fn sign_binding(sign: Sign) -> u32
    ensures { result ≡ binding (sign_shown sign.entry) }
{
    match sign {
        Sign::Keyword(_) => 0,
        Sign::Name(_) => 0,
        Sign::Number(_) => 0,
        Sign::Text(_) => 0,
        Sign::Symbol(symbol) => binding_of(symbol),
        Sign::Bad(_) => 0,
    }
}

fn sign_operator(sign: Sign) -> Op
    ensures { result ≡ operator (sign_shown sign.entry) }
{
    match sign {
        Sign::Keyword(_) => Op::Or,
        Sign::Name(_) => Op::Or,
        Sign::Number(_) => Op::Or,
        Sign::Text(_) => Op::Or,
        Sign::Symbol(symbol) => operator_of(symbol),
        Sign::Bad(_) => Op::Or,
    }
}

/// The binary operator at a token, where one of this level stands: 1 is the tightest.
pub(crate) fn operator_at(tokens: &Tokens, at: usize, level: u32) -> Option<Op>
    ensures stands { MatchOption result (NoOperator level (left tokens.now at)) (λ op. IsOperator level op (left tokens.now at) (left tokens.now (at + 1))) }
    ensures within { OnSome result (at < 2 ^ 64 - 1) }
{
    match look(tokens, at) {
        Some(mark) => {
            if sign_binding(mark.sign) == level {
                return Some(sign_operator(mark.sign));
            }
            None
        }
        None => None,
    }
}
