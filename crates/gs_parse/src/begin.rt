//! How a statement begins.

ghost use Rattle.std.specs.Prelude.{◌≡◌, false, MatchOption};
ghost use Rattle.gs_tree.specs.Signs.{sign_of_symbol, sign_of_keyword};
ghost use Rattle.gs_tree.specs.Shown.{sign_shown};
ghost use Rattle.gs_parse.specs.Grammar.{begins_statement};
ghost use Rattle.gs_parse.specs.Begins.{sign_of_begin};

use gs_tree::sign::{Keyword, Sign, Symbol};

/// The ways in which a statement begins.
#[derive(Clone, Copy)]
pub(crate) enum Begin<'a> {
    Empty,
    Block,
    If,
    While,
    For,
    Name(&'a [u8]),
    Close,
    Barrier,
    Print,
    PrintFile,
    PrintStr,
}

fn symbol_begin(symbol: Symbol) -> Option<Begin<'static>>
    ensures { MatchOption result (begins_statement (sign_of_symbol symbol) ≡ false) (λ b. sign_of_symbol symbol ≡ sign_of_begin b) }
{
    match symbol {
        Symbol::Semicolon => Some(Begin::Empty),
        Symbol::OpenBrace => Some(Begin::Block),
        _ => None,
    }
}

fn keyword_begin(keyword: Keyword) -> Option<Begin<'static>>
    ensures { MatchOption result (begins_statement (sign_of_keyword keyword) ≡ false) (λ b. sign_of_keyword keyword ≡ sign_of_begin b) }
{
    match keyword {
        Keyword::If => Some(Begin::If),
        Keyword::While => Some(Begin::While),
        Keyword::For => Some(Begin::For),
        Keyword::GsFClose => Some(Begin::Close),
        Keyword::GsBarrier => Some(Begin::Barrier),
        Keyword::Printf => Some(Begin::Print),
        Keyword::Fprintf => Some(Begin::PrintFile),
        Keyword::Sprintf => Some(Begin::PrintStr),
        _ => None,
    }
}

/// How a statement begins with a sign, where one does.
pub(crate) fn begin_of<'a>(sign: Sign<'a>) -> Option<Begin<'a>>
    ensures { MatchOption result (begins_statement (sign_shown sign.entry) ≡ false) (λ b. sign_shown sign.entry ≡ sign_of_begin b) }
{
    match sign {
        Sign::Keyword(keyword) => keyword_begin(keyword),
        Sign::Name(w) => Some(Begin::Name(w)),
        Sign::Number(_) => None,
        Sign::Text(_) => None,
        Sign::Symbol(symbol) => symbol_begin(symbol),
        Sign::Bad(_) => None,
    }
}
