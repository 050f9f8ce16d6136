//! Reading the text of a main program.

ghost use Rattle.std.specs.Prelude.{◌≤◌, length};
ghost use Rattle.gs_tree.specs.Cut.{lexemes_of, text_of};
ghost use Rattle.gs_tree.specs.Lexicon.{IsLexed};
ghost use Rattle.gs_parse.specs.Faulty.{IsReadAs};

use crate::fault::{ParseErr, ParseKind, kind_at, line_of_place};
use crate::frame::read_program;
use crate::stop::Stop;
use gs_tree::{Tokens, Tree, tokens};
use std::alloc::Global;

fn read_text(alloc: Global, tokens: &Tokens) -> Result<Tree, ParseErr>
    requires short { length (text_of tokens.now) ≤ 65536 }
    requires lexed { IsLexed (text_of tokens.now) (lexemes_of tokens.now) }
    ensures { IsReadAs (text_of tokens.now) result }
{
    let mut at = 0;
    match read_program(alloc, tokens, &mut at) {
        Ok(tree) => {
            if at >= tokens.len() {
                return Ok(tree);
            }
            Err(ParseErr::At {
                line: line_of_place(tokens, at),
                kind: kind_at(tokens, at),
            })
        }
        Err(Stop::Unfit) => Err(ParseErr::At {
            line: line_of_place(tokens, at),
            kind: kind_at(tokens, at),
        }),
        Err(Stop::TooDeep) => Err(ParseErr::At {
            line: line_of_place(tokens, at),
            kind: ParseKind::TooDeep,
        }),
        Err(Stop::NoMemory) => Err(ParseErr::NoMemory),
    }
}

/// Reads a main program of at most 65,536 bytes. A text that says none is refused at its first token with which no
/// program goes on, or at its end; where memory lacks, `NoMemory`.
pub fn parse(alloc: Global, bytes: &[u8]) -> Result<Tree, ParseErr>
    ensures { IsReadAs bytes.now result }
{
    if bytes.len() > 65536 {
        return Err(ParseErr::At {
            line: 0,
            kind: ParseKind::TooLong,
        });
    }
    match tokens(alloc, bytes) {
        Ok(tokens) => read_text(alloc, &tokens),
        Err(_) => Err(ParseErr::NoMemory),
    }
}
