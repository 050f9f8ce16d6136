//! Cutting a text into its tokens.

ghost use Rattle.std.specs.Prelude.{◌≡◌, ◌≤◌, length, map, All, IfOk};
ghost use Rattle.gs_tree.specs.Lexeme.{lexeme_of, kind_of, IsSpan, IsInOrder};
ghost use Rattle.gs_tree.specs.Lexicon.{IsLexed};
ghost use Rattle.gs_tree.specs.Cut.{text_of, lexemes_of};

use crate::NoMemory;
use crate::list::Tokens;
use crate::step::{Step, first_step};
use crate::token::{Token, TokenKind};
use std::alloc::Global;

fn make_token(kind: TokenKind, from: usize, to: usize, line: u32) -> Token
    requires first { from ≤ to }
    requires last { to ≤ 65536 }
    ensures token { lexeme_of result ≡ record { kind = kind_of kind; from = from; to = to; line = line } }
    ensures from { result.from ≡ from }
    ensures to { result.to ≡ to }
{
    Token {
        kind,
        from: from as u32,
        to: to as u32,
        line,
    }
}

fn read_tokens(alloc: Global, bytes: &[u8]) -> Result<Vec<Token>, NoMemory>
    requires { length bytes.now ≤ 65536 }
    ensures lexed { IfOk result (λ v. IsLexed bytes.now (map lexeme_of v.items)) }
    ensures spans { IfOk result (λ v. IsInOrder 0 (length bytes.now) (map lexeme_of v.items)) }
    ensures within { IfOk result (λ v. All (IsSpan (length bytes.now)) v.items) }
{
    let mut items = Vec::new(alloc);
    let mut at = 0;
    let mut line: u32 = 1;
    let mut is_fresh = true;
    'steps: while at < bytes.len() {
        match first_step(alloc, &bytes[at..], is_fresh)? {
            Step::Gap {
                count,
                lines,
                stays_fresh,
            } => {
                at += count;
                line += lines as u32;
                is_fresh = stays_fresh;
            }
            Step::Token { kind, count } => {
                items.push(make_token(kind, at, at + count, line))?;
                at += count;
                is_fresh = false;
            }
            Step::Fault { kind } => {
                items.push(make_token(TokenKind::Bad { kind }, at, at + 1, line))?;
                return Ok(items);
            }
        }
    }
    Ok(items)
}

/// Cuts a text into its tokens. The first lexical fault is the last of them.
pub fn tokens(alloc: Global, bytes: &[u8]) -> Result<Tokens, NoMemory>
    requires { length bytes.now ≤ 65536 }
    ensures text { IfOk result (λ t. text_of t ≡ bytes.now) }
    ensures lexed { IfOk result (λ t. IsLexed bytes.now (lexemes_of t)) }
    ensures spans { IfOk result (λ t. IsInOrder 0 (length bytes.now) (lexemes_of t)) }
{
    let items = read_tokens(alloc, bytes)?;
    Ok(Tokens {
        text: bytes.to_vec(alloc)?,
        items,
    })
}
