// Words and symbols of an interface text.
ghost use Rattle.std.specs.Prelude.{◌≡◌, ◌≤◌, ◌+◌, ◌<◌, length, map, not, cond, take, drop, IfOk, IfSome, option_map};
ghost use Rattle.std.specs.List.{prefix_len, count_by};
ghost use Rattle.gs_idl.specs.Word.{is_letter, is_word_byte};
ghost use Rattle.gs_idl.specs.Lexicon.{is_blank, is_feed, after_slash, symbol_or_nothing, begins, closes, close_at, Reads, a_word, a_comment};
ghost use Rattle.gs_idl.specs.Token.{beginning_of, mark_of, IsBeginning, Cuts};

use crate::NoMemory;
use std::alloc::Global;

/// What is wrong with an interface text, at the place where reading stops.
#[derive(Clone, Copy, Debug, PartialEq, Eq)]
pub enum IdlKind {
    /// The text is longer than 65,536 bytes.
    TooLong,
    /// A byte begins no word, symbol or comment.
    BadByte,
    /// A comment isn't ended.
    OpenComment,
    /// An identifier has more than 64 bytes.
    LongName,
    /// A word or symbol, or the end, stands where none of its kind may.
    Unexpected,
    /// A parameter is `inout` and no file.
    BadCombination,
    /// There are more than 64 operations, or more than 16 parameters.
    TooMany,
    /// An operation's name, or a parameter's within its operation, stands again.
    Twice,
    /// An operation has a keyword's name.
    Reserved,
}

#[derive(Clone, Copy, Debug, PartialEq, Eq)]
pub(crate) enum Symbol {
    OpenBrace,
    CloseBrace,
    OpenParen,
    CloseParen,
    Comma,
    Semicolon,
}

/// A word, a symbol, the end, or what is none of these.
#[derive(Clone, Copy)]
pub(crate) enum IdlSign<'a> {
    Word { text: &'a [u8] },
    Symbol { symbol: Symbol },
    Bad { kind: IdlKind },
    End,
}

/// A sign and its line, from 1.
#[derive(Clone, Copy)]
pub(crate) struct Token<'a> {
    pub sign: IdlSign<'a>,
    pub line: u32,
}

fn is_letter(b: u8) -> bool
    ensures { result ≡ is_letter b }
{
    matches!(b, b'A'..=b'Z' | b'a'..=b'z' | b'_')
}

fn is_word_byte(b: u8) -> bool
    ensures { result ≡ is_word_byte b }
{
    is_letter(b) || b.is_ascii_digit()
}

fn is_blank(b: u8) -> bool
    ensures { result ≡ is_blank b }
{
    matches!(b, b' ' | b'\t' | b'\r')
}

/// The number of bytes from the front on that an identifier may have.
fn word_length(bytes: &[u8]) -> usize
    ensures value { result ≡ prefix_len is_word_byte bytes.now }
    ensures within { result ≤ length bytes.now }
{
    let mut count = 0;
    for b in bytes {
        if !is_word_byte(*b) {
            return count;
        }
        count += 1;
    }
    count
}

/// The number of bytes before the first line feed, or of all.
fn line_length(bytes: &[u8]) -> usize
    ensures value { result ≡ prefix_len (λ b. not (is_feed b)) bytes.now }
    ensures within { result ≤ length bytes.now }
{
    let mut count = 0;
    for b in bytes {
        if *b == b'\n' {
            return count;
        }
        count += 1;
    }
    count
}

/// What begins at a byte.
#[derive(Clone, Copy)]
enum Beginning {
    Blank,
    Feed,
    Word,
    LineComment,
    Comment,
    Symbol { symbol: Symbol },
    Nothing,
}

fn after_slash(rest: &[u8]) -> Beginning
    ensures { beginning_of result ≡ after_slash rest.now }
{
    match rest {
        [b'/', ..] => Beginning::LineComment,
        [b'*', ..] => Beginning::Comment,
        _ => Beginning::Nothing,
    }
}

fn symbol_begins(b: u8) -> Beginning
    ensures { beginning_of result ≡ symbol_or_nothing b }
{
    let symbol = match b {
        b'{' => Symbol::OpenBrace,
        b'}' => Symbol::CloseBrace,
        b'(' => Symbol::OpenParen,
        b')' => Symbol::CloseParen,
        b',' => Symbol::Comma,
        b';' => Symbol::Semicolon,
        _ => return Beginning::Nothing,
    };
    Beginning::Symbol { symbol }
}

#[tactic(auto, unfolding(crate::specs::Lexicon::begins))]
fn begins(b: u8, rest: &[u8]) -> Beginning
    ensures { beginning_of result ≡ begins b rest.now }
{
    if is_blank(b) {
        return Beginning::Blank;
    }
    if b == b'\n' {
        return Beginning::Feed;
    }
    if is_letter(b) {
        return Beginning::Word;
    }
    if b == b'/' {
        return after_slash(rest);
    }
    symbol_begins(b)
}

/// The bytes from place `n` on.
fn tail(bytes: &[u8], n: usize) -> &[u8]
    requires { n ≤ length bytes.now }
    ensures { result.now ≡ drop n bytes.now }
{
    &bytes[n..]
}

/// The first `n` bytes.
fn head(bytes: &[u8], n: usize) -> &[u8]
    requires { n ≤ length bytes.now }
    ensures { result.now ≡ take n bytes.now }
{
    &bytes[..n]
}

fn closes(bytes: &[u8]) -> bool
    ensures { result ≡ closes bytes.now }
{
    matches!(bytes, [b'*', b'/', ..])
}

fn counted(feeds: u32, b: u8) -> u32
    requires { feeds < 65536 }
    ensures { result ≡ feeds + cond (is_feed b) 1 0 }
{
    if b == b'\n' { feeds + 1 } else { feeds }
}

/// The number of bytes before the first star and slash, and of the line feeds among them.
fn close_at(bytes: &[u8]) -> Option<(usize, u32)>
    requires { length bytes.now ≤ 65536 }
    ensures value { option_map (λ p. p.0) result ≡ close_at bytes.now }
    ensures feeds { IfSome result (λ p. p.1 ≡ count_by is_feed (take p.0 bytes.now)) }
    ensures within { IfSome result (λ p. p.0 + 2 ≤ length bytes.now) }
{
    let mut feeds: u32 = 0;
    for (i, b) in bytes.iter().enumerate() {
        if closes(tail(bytes, i)) {
            return Some((i, feeds));
        }
        feeds = counted(feeds, *b);
    }
    None
}

/// A piece of a text: a blank or comment with what follows it, a token with what follows it, or the
/// last token.
#[derive(Clone, Copy)]
enum Piece<'a> {
    Passed { line: u32, rest: &'a [u8] },
    Found { token: Token<'a>, rest: &'a [u8] },
    Last { token: Token<'a> },
}

fn word<'a>(line: u32, bytes: &'a [u8]) -> Piece<'a>
    requires { IsBeginning a_word bytes.now }
    ensures { Cuts line bytes.now result }
{
    let length = 1 + word_length(tail(bytes, 1));
    if length > 64 {
        let sign = IdlSign::Bad {
            kind: IdlKind::LongName,
        };
        return Piece::Last {
            token: Token { sign, line },
        };
    }
    let sign = IdlSign::Word {
        text: head(bytes, length),
    };
    Piece::Found {
        token: Token { sign, line },
        rest: tail(bytes, length),
    }
}

fn comment<'a>(line: u32, bytes: &'a [u8]) -> Piece<'a>
    requires begins { IsBeginning a_comment bytes.now }
    requires short { length bytes.now ≤ 65536 }
    requires lines { line + length bytes.now ≤ 65537 }
    ensures { Cuts line bytes.now result }
{
    match close_at(tail(bytes, 2)) {
        Some((n, feeds)) => Piece::Passed {
            line: line + feeds,
            rest: tail(bytes, n + 4),
        },
        None => {
            let sign = IdlSign::Bad {
                kind: IdlKind::OpenComment,
            };
            Piece::Last {
                token: Token { sign, line },
            }
        }
    }
}

/// The first piece of what is left of a text.
fn first_piece<'a>(line: u32, bytes: &'a [u8]) -> Piece<'a>
    requires short { length bytes.now ≤ 65536 }
    requires lines { line + length bytes.now ≤ 65537 }
    ensures { Cuts line bytes.now result }
{
    if bytes.is_empty() {
        let sign = IdlSign::End;
        return Piece::Last {
            token: Token { sign, line },
        };
    }
    let rest = tail(bytes, 1);
    match begins(bytes[0], rest) {
        Beginning::Blank => Piece::Passed { line, rest },
        Beginning::Feed => Piece::Passed {
            line: line + 1,
            rest,
        },
        Beginning::Word => word(line, bytes),
        Beginning::LineComment => Piece::Passed {
            line,
            rest: tail(rest, line_length(rest)),
        },
        Beginning::Comment => comment(line, bytes),
        Beginning::Symbol { symbol } => {
            let sign = IdlSign::Symbol { symbol };
            Piece::Found {
                token: Token { sign, line },
                rest,
            }
        }
        Beginning::Nothing => {
            let sign = IdlSign::Bad {
                kind: IdlKind::BadByte,
            };
            Piece::Last {
                token: Token { sign, line },
            }
        }
    }
}

/// The tokens of a text of at most 65,536 bytes. The last is the end, or the first that is no word
/// or symbol.
pub(crate) fn tokens<'a>(alloc: Global, bytes: &'a [u8]) -> Result<Vec<Token<'a>>, NoMemory>
    requires { length bytes.now ≤ 65536 }
    ensures { IfOk result (λ tokens. Reads 1 bytes.now (map mark_of tokens.items)) }
{
    let mut tokens = Vec::new(alloc);
    let mut line = 1;
    let mut rest = bytes;
    'pieces: loop {
        match first_piece(line, rest) {
            Piece::Passed {
                line: now,
                rest: left,
            } => {
                line = now;
                rest = left;
            }
            Piece::Found { token, rest: left } => {
                tokens.push(token)?;
                rest = left;
            }
            Piece::Last { token } => {
                tokens.push(token)?;
                return Ok(tokens);
            }
        }
    }
}
