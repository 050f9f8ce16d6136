//! The terminal symbols of the grammar.

ghost use Rattle.std.specs.Prelude.{◌≡◌, length};
ghost use Rattle.std.specs.Str.{bytes_eq};
ghost use Rattle.gs_tree.specs.Lexeme.{IsSpan, lexeme_of};
ghost use Rattle.gs_tree.specs.Signs.{sign_of_word, sign_of_found, sign_of_bytes, mark_of};
ghost use Rattle.gs_tree.specs.Shown.{sign_shown, mark_shown};
ghost use Rattle.gs_tree.specs.Words.{type_word, control_word, runtime_word, library_word, mode_word, keyword_of, double_of, single_of};

use crate::token::{LexKind, Token, TokenKind};

/// The keywords.
#[derive(Clone, Copy, PartialEq, Eq, Debug)]
pub enum Keyword {
    Main,
    Int,
    Char,
    File,
    Void,
    If,
    Else,
    While,
    For,
    Return,
    GsOn,
    GsOff,
    GsBarrier,
    GsFOpen,
    GsFClose,
    Printf,
    Fprintf,
    Sprintf,
    Fgetline,
    Atoi,
    Strcmp,
    ModeR,
    ModeW,
    ModeA,
}

/// The symbols.
#[derive(Clone, Copy, PartialEq, Eq, Debug)]
pub enum Symbol {
    PlusPlus,
    MinusMinus,
    PlusEqual,
    MinusEqual,
    LessEqual,
    GreaterEqual,
    EqualEqual,
    NotEqual,
    AndAnd,
    OrOr,
    OpenParen,
    CloseParen,
    OpenBrace,
    CloseBrace,
    Comma,
    Semicolon,
    Equal,
    Plus,
    Minus,
    Star,
    Slash,
    Percent,
    Less,
    Greater,
    Bang,
    Ampersand,
}

/// What stands at a token: a keyword, another name, a number, a string's bytes after the escapes, a symbol, or a fault.
#[derive(Clone, Copy)]
pub enum Sign<'a> {
    Keyword(Keyword),
    Name(&'a [u8]),
    Number(i64),
    Text(&'a [u8]),
    Symbol(Symbol),
    Bad(LexKind),
}

/// What stands at a token, and the line on which it begins.
#[derive(Clone, Copy)]
pub struct Mark<'a> {
    pub line: u32,
    pub sign: Sign<'a>,
}

fn is_text(word: &[u8], text: &[u8]) -> bool
    ensures { result ≡ bytes_eq word.now text.now }
{
    word == text
}

#[tactic(auto, unfolding(crate::specs::Words::type_word))]
fn find_type_word(word: &[u8]) -> Option<Keyword>
    ensures { result ≡ type_word word.now }
{
    if is_text(word, b"main") {
        Some(Keyword::Main)
    } else if is_text(word, b"int") {
        Some(Keyword::Int)
    } else if is_text(word, b"char") {
        Some(Keyword::Char)
    } else if is_text(word, b"FILE") {
        Some(Keyword::File)
    } else if is_text(word, b"void") {
        Some(Keyword::Void)
    } else {
        None
    }
}

#[tactic(auto, unfolding(crate::specs::Words::control_word))]
fn find_control_word(word: &[u8]) -> Option<Keyword>
    ensures { result ≡ control_word word.now }
{
    if is_text(word, b"if") {
        Some(Keyword::If)
    } else if is_text(word, b"else") {
        Some(Keyword::Else)
    } else if is_text(word, b"while") {
        Some(Keyword::While)
    } else if is_text(word, b"for") {
        Some(Keyword::For)
    } else if is_text(word, b"return") {
        Some(Keyword::Return)
    } else {
        None
    }
}

#[tactic(auto, unfolding(crate::specs::Words::runtime_word))]
fn find_runtime_word(word: &[u8]) -> Option<Keyword>
    ensures { result ≡ runtime_word word.now }
{
    if is_text(word, b"GS_On") {
        Some(Keyword::GsOn)
    } else if is_text(word, b"GS_Off") {
        Some(Keyword::GsOff)
    } else if is_text(word, b"GS_Barrier") {
        Some(Keyword::GsBarrier)
    } else if is_text(word, b"GS_FOpen") {
        Some(Keyword::GsFOpen)
    } else if is_text(word, b"GS_FClose") {
        Some(Keyword::GsFClose)
    } else {
        None
    }
}

#[tactic(auto, unfolding(crate::specs::Words::library_word))]
fn find_library_word(word: &[u8]) -> Option<Keyword>
    ensures { result ≡ library_word word.now }
{
    if is_text(word, b"printf") {
        Some(Keyword::Printf)
    } else if is_text(word, b"fprintf") {
        Some(Keyword::Fprintf)
    } else if is_text(word, b"sprintf") {
        Some(Keyword::Sprintf)
    } else if is_text(word, b"fgetline") {
        Some(Keyword::Fgetline)
    } else if is_text(word, b"atoi") {
        Some(Keyword::Atoi)
    } else if is_text(word, b"strcmp") {
        Some(Keyword::Strcmp)
    } else {
        None
    }
}

#[tactic(auto, unfolding(crate::specs::Words::mode_word))]
fn find_mode_word(word: &[u8]) -> Option<Keyword>
    ensures { result ≡ mode_word word.now }
{
    if is_text(word, b"R") {
        Some(Keyword::ModeR)
    } else if is_text(word, b"W") {
        Some(Keyword::ModeW)
    } else if is_text(word, b"A") {
        Some(Keyword::ModeA)
    } else {
        None
    }
}

/// The keyword with these bytes.
pub(crate) fn find_keyword(word: &[u8]) -> Option<Keyword>
    ensures { result ≡ keyword_of word.now }
{
    find_type_word(word)
        .or(find_control_word(word))
        .or(find_runtime_word(word))
        .or(find_library_word(word))
        .or(find_mode_word(word))
}

/// The symbol of two bytes.
pub(crate) fn find_double(a: u8, b: u8) -> Option<Symbol>
    ensures { result ≡ double_of a b }
{
    match (a, b) {
        (b'+', b'+') => Some(Symbol::PlusPlus),
        (b'-', b'-') => Some(Symbol::MinusMinus),
        (b'+', b'=') => Some(Symbol::PlusEqual),
        (b'-', b'=') => Some(Symbol::MinusEqual),
        (b'<', b'=') => Some(Symbol::LessEqual),
        (b'>', b'=') => Some(Symbol::GreaterEqual),
        (b'=', b'=') => Some(Symbol::EqualEqual),
        (b'!', b'=') => Some(Symbol::NotEqual),
        (b'&', b'&') => Some(Symbol::AndAnd),
        (b'|', b'|') => Some(Symbol::OrOr),
        _ => None,
    }
}

/// The symbol of one byte.
pub(crate) fn find_single(a: u8) -> Option<Symbol>
    ensures { result ≡ single_of a }
{
    match a {
        b'(' => Some(Symbol::OpenParen),
        b')' => Some(Symbol::CloseParen),
        b'{' => Some(Symbol::OpenBrace),
        b'}' => Some(Symbol::CloseBrace),
        b',' => Some(Symbol::Comma),
        b';' => Some(Symbol::Semicolon),
        b'=' => Some(Symbol::Equal),
        b'+' => Some(Symbol::Plus),
        b'-' => Some(Symbol::Minus),
        b'*' => Some(Symbol::Star),
        b'/' => Some(Symbol::Slash),
        b'%' => Some(Symbol::Percent),
        b'<' => Some(Symbol::Less),
        b'>' => Some(Symbol::Greater),
        b'!' => Some(Symbol::Bang),
        b'&' => Some(Symbol::Ampersand),
        _ => None,
    }
}

fn word_sign(word: &[u8]) -> Sign<'_>
    ensures { sign_shown result ≡ sign_of_word word.now (keyword_of word.now) }
{
    match find_keyword(word) {
        Some(keyword) => Sign::Keyword(keyword),
        None => Sign::Name(word),
    }
}

fn found_sign(found: Option<Symbol>) -> Sign<'static>
    ensures { sign_shown result ≡ sign_of_found found }
{
    match found {
        Some(symbol) => Sign::Symbol(symbol),
        None => Sign::Bad(LexKind::BadByte),
    }
}

fn symbol_sign(bytes: &[u8]) -> Sign<'static>
    ensures { sign_shown result ≡ sign_of_bytes bytes.now }
{
    match bytes {
        [a] => found_sign(find_single(*a)),
        [a, b] => found_sign(find_double(*a, *b)),
        _ => Sign::Bad(LexKind::BadByte),
    }
}

/// What stands at a token of the text.
pub(crate) fn mark_at<'a>(text: &'a [u8], token: &'a Token) -> Mark<'a>
    requires { IsSpan (length text.now) token.now }
    ensures { mark_shown result ≡ mark_of text.now (lexeme_of token.now) }
{
    let bytes = &text[token.from as usize..token.to as usize];
    let sign = match &token.kind {
        TokenKind::Word => word_sign(bytes),
        TokenKind::Number { v } => Sign::Number(*v),
        TokenKind::Str { s } => Sign::Text(s.as_slice()),
        TokenKind::Symbol => symbol_sign(bytes),
        TokenKind::Bad { kind } => Sign::Bad(*kind),
    };
    Mark {
        line: token.line,
        sign,
    }
}
