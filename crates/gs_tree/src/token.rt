//! The tokens of a program's text.

/// A token: its kind, its bytes from `from` up to, and without, `to`, and the line on which it begins, from 1.
#[derive(Drop)]
pub struct Token {
    pub kind: TokenKind,
    pub from: u32,
    pub to: u32,
    pub line: u32,
}

/// What stands at a token. The bytes of a `Str` are those after the escapes; `Bad` is the text's first lexical fault.
#[derive(Drop)]
pub enum TokenKind {
    Word,
    Number { v: i64 },
    Str { s: Vec<u8> },
    Symbol,
    Bad { kind: LexKind },
}

/// The lexical faults.
#[derive(Clone, Copy, PartialEq, Eq, Debug)]
pub enum LexKind {
    BadByte,
    OpenComment,
    OpenString,
    BadEscape,
    StringTooLong,
    LongName,
    BadNumber,
    WideNumber,
}
