//! Looking at a token, and taking it.

ghost use Rattle.std.specs.Prelude.{◌≡◌, ◌+◌, ◌-◌, ◌^◌, ◌<◌, ◌≤◌, length, OnSome, IsTrue};
ghost use Rattle.gs_tree.specs.Cut.{marks_in};
ghost use Rattle.gs_tree.specs.Shown.{sign_shown};
ghost use Rattle.gs_tree.specs.Signs.{sign_of_symbol, sign_of_keyword};
ghost use Rattle.gs_parse.specs.Reads.{left, Shows, Stands, Takes, Expects, Anything};
ghost use Rattle.gs_parse.specs.Symbols.{place};
ghost use Rattle.gs_parse.specs.Words.{word_sign};

use crate::stop::Stop;
use gs_tree::Tokens;
use gs_tree::sign::{Keyword, Mark, Sign, Symbol};

/// A sign that holds nothing.
#[derive(Clone, Copy, PartialEq, Eq, Debug)]
pub(crate) enum Word {
    Keyword(Keyword),
    Symbol(Symbol),
}

pub(crate) fn look(tokens: &Tokens, at: usize) -> Option<Mark<'_>>
    ensures shows { Shows result (left tokens.now at) (left tokens.now (at + 1)) }
    ensures within { OnSome result (at < 2 ^ 64 - 1) }
{
    if at < tokens.len() {
        return tokens.mark(at);
    }
    None
}

fn symbol_place(symbol: Symbol) -> u8
    ensures { result ≡ place (sign_of_symbol symbol) }
{
    match symbol {
        Symbol::PlusPlus => 28,
        Symbol::MinusMinus => 29,
        Symbol::PlusEqual => 30,
        Symbol::MinusEqual => 31,
        Symbol::LessEqual => 32,
        Symbol::GreaterEqual => 33,
        Symbol::EqualEqual => 34,
        Symbol::NotEqual => 35,
        Symbol::AndAnd => 36,
        Symbol::OrOr => 37,
        Symbol::OpenParen => 38,
        Symbol::CloseParen => 39,
        Symbol::OpenBrace => 40,
        Symbol::CloseBrace => 41,
        Symbol::Comma => 42,
        Symbol::Semicolon => 43,
        Symbol::Equal => 44,
        Symbol::Plus => 45,
        Symbol::Minus => 46,
        Symbol::Star => 47,
        Symbol::Slash => 48,
        Symbol::Percent => 49,
        Symbol::Less => 50,
        Symbol::Greater => 51,
        Symbol::Bang => 52,
        Symbol::Ampersand => 53,
    }
}

fn keyword_place(keyword: Keyword) -> u8
    ensures { result ≡ place (sign_of_keyword keyword) }
{
    match keyword {
        Keyword::Main => 1,
        Keyword::Int => 2,
        Keyword::Char => 3,
        Keyword::File => 4,
        Keyword::Void => 5,
        Keyword::If => 6,
        Keyword::Else => 7,
        Keyword::While => 8,
        Keyword::For => 9,
        Keyword::Return => 10,
        Keyword::GsOn => 11,
        Keyword::GsOff => 12,
        Keyword::GsBarrier => 13,
        Keyword::GsFOpen => 14,
        Keyword::GsFClose => 15,
        Keyword::Printf => 16,
        Keyword::Fprintf => 17,
        Keyword::Sprintf => 18,
        Keyword::Fgetline => 19,
        Keyword::Atoi => 20,
        Keyword::Strcmp => 21,
        Keyword::ModeR => 22,
        Keyword::ModeW => 23,
        Keyword::ModeA => 24,
    }
}

/// A sign's place in the list of signs, whatever it holds.
fn sign_place(sign: &Sign) -> u8
    ensures { result ≡ place (sign_shown sign.now) }
{
    match sign {
        Sign::Keyword(keyword) => keyword_place(*keyword),
        Sign::Name(_) => 25,
        Sign::Number(_) => 26,
        Sign::Text(_) => 27,
        Sign::Symbol(symbol) => symbol_place(*symbol),
        Sign::Bad(_) => 54,
    }
}

fn word_place(word: Word) -> u8
    ensures { result ≡ place (word_sign word) }
{
    match word {
        Word::Keyword(keyword) => keyword_place(keyword),
        Word::Symbol(symbol) => symbol_place(symbol),
    }
}

/// Whether a sign of the same place as `wanted` stands at a token.
pub(crate) fn stands(tokens: &Tokens, at: usize, wanted: Word) -> bool
    ensures stands { Stands (word_sign wanted) (left tokens.now at) result (left tokens.now (at + 1)) }
    ensures within { IsTrue result → at < 2 ^ 64 - 1 }
{
    match look(tokens, at) {
        Some(mark) => sign_place(&mark.sign) == word_place(wanted),
        None => false,
    }
}

/// Takes the sign `wanted`, where it stands.
pub(crate) fn accept(tokens: &Tokens, at: &mut usize, wanted: Word) -> bool
    ensures takes { Takes (word_sign wanted) (left tokens.now at.old) result (left tokens.now at.new) }
    ensures onward { at.old ≤ at.new }
    ensures further { IsTrue result → (at.old < at.new) × (at.old < 2 ^ 64) }
{
    if stands(tokens, *at, wanted) {
        *at += 1;
        return true;
    }
    false
}

/// Takes the sign `wanted`, which has to stand here.
pub(crate) fn expect(tokens: &Tokens, at: &mut usize, wanted: Word) -> Result<(), Stop>
    ensures expects { Expects (word_sign wanted) Anything (left tokens.now at.old) result (left tokens.now at.new) }
    ensures onward { at.old ≤ at.new }
{
    if accept(tokens, at, wanted) {
        return Ok(());
    }
    Err(Stop::Unfit)
}
