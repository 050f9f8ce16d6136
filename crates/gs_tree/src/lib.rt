//! The main program of a run as data: the tokens of its text, its tree, and the text that a tree is printed as.
#![tactic(auto)]

mod bytes;
pub mod laws;
mod lexer;
mod list;
mod memory;
mod printer;
mod program;
mod put;
mod put_expr;
mod put_stmt;
pub mod sign;
mod step;
mod string;
mod token;
mod tree;

pub use lexer::tokens;
pub use list::Tokens;
pub use memory::NoMemory;
pub use program::print;
pub use token::{LexKind, Token, TokenKind};
pub use tree::{Argument, Assign, Expr, Format, Ident, Mode, Op, Stmt, Tree, Var, VarKind};

#[cfg(test)]
mod tests;
