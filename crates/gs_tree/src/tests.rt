ghost use Rattle.std.specs.Prelude.{◌≤◌, length};

use crate::sign::{Keyword, Sign, Symbol};
use crate::token::{LexKind, TokenKind};
use crate::tree::{Argument, Expr, Ident, Op, Stmt, Tree, Var, VarKind};
use crate::{NoMemory, print, tokens};
use std::alloc::{AllocError, Global};
use std::test::Fail;

fn name(alloc: Global, line: u32, text: &[u8]) -> Result<Ident, AllocError> {
    Ok(Ident {
        line,
        name: text.to_vec(alloc)?,
    })
}

fn read_name(alloc: Global, text: &[u8]) -> Result<Expr, AllocError> {
    Ok(Expr::Name {
        id: name(alloc, 4, text)?,
    })
}

// `count("F", &n);`
fn count_call(alloc: Global) -> Result<Stmt, NoMemory> {
    let mut args = Vec::new(alloc);
    args.push(Argument {
        line: 5,
        by_address: false,
        e: Expr::Lit {
            line: 5,
            s: b"F".to_vec(alloc)?,
        },
    })?;
    args.push(Argument {
        line: 5,
        by_address: true,
        e: read_name(alloc, b"n")?,
    })?;
    Ok(Stmt::Call {
        op: name(alloc, 5, b"count")?,
        args,
    })
}

// `if (n < 1) { count("F", &n); }`
fn counting(alloc: Global) -> Result<Stmt, NoMemory> {
    let mut yes = Vec::new(alloc);
    yes.push(count_call(alloc)?)?;
    let a = Box::new(alloc, read_name(alloc, b"n")?)?;
    let b = Box::new(alloc, Expr::Num { line: 4, v: 1 })?;
    Ok(Stmt::If {
        line: 4,
        cond: Expr::Two { op: Op::Lt, a, b },
        yes,
        no: None,
    })
}

fn program(alloc: Global) -> Result<Tree, NoMemory> {
    let mut vars = Vec::new(alloc);
    vars.push(Var {
        name: name(alloc, 2, b"n")?,
        kind: VarKind::Int,
    })?;
    let mut body = Vec::new(alloc);
    body.push(counting(alloc)?)?;
    Ok(Tree {
        vars,
        first: Vec::new(alloc),
        body,
        off: 7,
    })
}

#[test]
fn a_program_is_printed(rt: HostRuntime) -> Result<(), Fail> {
    let alloc = rt.alloc();
    let text = print(alloc, &program(alloc)?)?;
    let wanted =
        b"main() {\n    int n;\n    GS_On();\n    if ((n < 1)) {\n        count(\"F\", &n);\n    }\n    GS_Off(0);\n}\n";
    assert!(rt; text.as_slice() == wanted.as_slice());
    Ok(())
}

#[test]
fn tokens_have_their_kinds_and_lines(rt: HostRuntime) -> Result<(), Fail> {
    let alloc = rt.alloc();
    let text = tokens(
        alloc,
        b"\t#include <x>\r\n/* a\n */ if x1 // \xff\n+= 12 \"a\\n\"",
    )?;
    assert_eq!(rt; text.len(), 5);
    assert_eq!(rt; text.at(0).line, 3);
    assert_eq!(rt; text.at(2).line, 4);
    assert!(rt; matches!(text.mark(0), Some(m) if matches!(m.sign, Sign::Keyword(Keyword::If))));
    assert!(rt; matches!(text.mark(1), Some(m) if matches!(m.sign, Sign::Name(b"x1"))));
    assert!(rt;
        matches!(text.mark(2), Some(m) if matches!(m.sign, Sign::Symbol(Symbol::PlusEqual)))
    );
    assert!(rt; matches!(text.mark(3), Some(m) if matches!(m.sign, Sign::Number(12))));
    assert!(rt; matches!(text.mark(4), Some(m) if matches!(m.sign, Sign::Text(b"a\n"))));
    assert!(rt; matches!(text.mark(5), None));
    assert_eq!(rt; text.last_line(), 4);
    assert!(rt; !text.is_empty());
    Ok(())
}

// The fault that a text ends with, and its line.
fn fault_of(alloc: Global, text: &[u8]) -> Result<Option<(LexKind, u32)>, NoMemory>
    requires { length text.now ≤ 65536 }
{
    let all = tokens(alloc, text)?;
    if all.is_empty() {
        return Ok(None);
    }
    let last = all.at(all.len() - 1);
    match last.kind {
        TokenKind::Bad { kind } => Ok(Some((kind, last.line))),
        _ => Ok(None),
    }
}

#[test]
fn faults_have_their_kinds_and_lines(rt: HostRuntime) -> Result<(), Fail> {
    let alloc = rt.alloc();
    let table: [(&[u8], LexKind, u32); 13] = [
        (b"a\n /* b\n", LexKind::OpenComment, 2),
        (b"/*/", LexKind::OpenComment, 1),
        (b"\n\"a\n\"", LexKind::OpenString, 2),
        (b"\"a\\", LexKind::OpenString, 1),
        (b"\"\\x\"", LexKind::BadEscape, 1),
        (b"\"a\rb\"", LexKind::BadByte, 1),
        (b"x\n08", LexKind::BadNumber, 2),
        (b"9223372036854775808", LexKind::WideNumber, 1),
        (b"a @", LexKind::BadByte, 1),
        (b"/**/#include", LexKind::BadByte, 1),
        (b"a |\n|", LexKind::BadByte, 1),
        (b"\x00", LexKind::BadByte, 1),
        (
            b"a234567890123456789012345678901234567890123456789012345678901234_",
            LexKind::LongName,
            1,
        ),
    ];
    for (text, kind, line) in table {
        assert!(rt; text.len() < 100);
        assert!(rt; fault_of(alloc, text)? == Some((kind, line)));
    }
    assert!(rt; fault_of(alloc, b"9223372036854775807 0 #")? == Some((LexKind::BadByte, 1)));
    assert!(rt;
        fault_of(
            alloc,
            b"a234567890123456789012345678901234567890123456789012345678901234"
        )? == None
    );
    Ok(())
}

#[test]
fn a_string_has_1024_bytes_at_most(rt: HostRuntime) -> Result<(), Fail> {
    let alloc = rt.alloc();
    let mut text = vec![in alloc; b'a'; 1025]?;
    text[0] = b'"';
    text.push(b'"')?;
    assert_eq!(rt; text.len(), 1026);
    assert!(rt; fault_of(alloc, &text)? == None);
    text[1025] = b'\\';
    assert!(rt; fault_of(alloc, &text)? == Some((LexKind::StringTooLong, 1)));
    Ok(())
}
