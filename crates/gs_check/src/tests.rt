// Programs that pass, and programs that are refused at their first fault.
use crate::{CheckErr, CheckKind, check};
use gs_idl::read;
use gs_tree::{
    Argument, Assign, Expr, Format, Ident, Mode, NoMemory, Op, Stmt, Tree, Var, VarKind,
};
use std::alloc::{AllocError, Global};
use std::test::Fail;

const KIT: &[u8] =
    b"interface K {\n    void join(in File a, in File b, out File c);\n    void count(in File f, out int n);\n    void two(out int a, out int b);\n    void note(in string s, in int n);\n};\n";

fn ident(alloc: Global, line: u32, text: &[u8]) -> Result<Ident, AllocError> {
    Ok(Ident {
        line,
        name: text.to_vec(alloc)?,
    })
}

fn name(alloc: Global, line: u32, text: &[u8]) -> Result<Expr, AllocError> {
    Ok(Expr::Name {
        id: ident(alloc, line, text)?,
    })
}

fn text(alloc: Global, line: u32) -> Result<Expr, AllocError> {
    Ok(Expr::Lit {
        line,
        s: b"F".to_vec(alloc)?,
    })
}

fn sum(alloc: Global, a: Expr, b: Expr) -> Result<Expr, NoMemory> {
    let a = Box::new(alloc, a)?;
    let b = Box::new(alloc, b)?;
    Ok(Expr::Two { op: Op::Add, a, b })
}

fn var(alloc: Global, line: u32, text: &[u8], kind: VarKind) -> Result<Var, AllocError> {
    Ok(Var {
        name: ident(alloc, line, text)?,
        kind,
    })
}

fn set(alloc: Global, line: u32, to: &[u8], value: Expr) -> Result<Assign, AllocError> {
    Ok(Assign {
        to: ident(alloc, line, to)?,
        value,
    })
}

// `int n;` on line 2, `char *s;` on line 3, `FILE *f;` on line 4.
fn variables(alloc: Global) -> Result<Vec<Var>, NoMemory> {
    let mut vars = Vec::new(alloc);
    vars.push(var(alloc, 2, b"n", VarKind::Int)?)?;
    vars.push(var(alloc, 3, b"s", VarKind::Str)?)?;
    vars.push(var(alloc, 4, b"f", VarKind::Handle)?)?;
    Ok(vars)
}

// The first fault of a program over the operations of the kit.
fn fault_of(alloc: Global, tree: Tree) -> Result<Option<CheckErr>, Fail> {
    let idl = read(alloc, KIT)?;
    match check(alloc, tree, idl) {
        Ok(_) => Ok(None),
        Err(e) => Ok(Some(e)),
    }
}

// The first fault of a program of these variables.
fn of_variables(alloc: Global, vars: Vec<Var>) -> Result<Option<CheckErr>, Fail> {
    let tree = Tree {
        vars,
        first: Vec::new(alloc),
        body: Vec::new(alloc),
        off: 90,
    };
    fault_of(alloc, tree)
}

// The first fault of the three variables and this statement.
fn of_statement(alloc: Global, stmt: Stmt) -> Result<Option<CheckErr>, Fail> {
    let mut body = Vec::new(alloc);
    body.push(stmt)?;
    let tree = Tree {
        vars: variables(alloc)?,
        first: Vec::new(alloc),
        body,
        off: 90,
    };
    fault_of(alloc, tree)
}

fn at(line: u32, kind: CheckKind) -> Option<CheckErr> {
    Some(CheckErr::At { line, kind })
}

// An argument as it is written: `1`, `"F"`, a name, the sum of a name and `1`, `"F" + 1`, and a
// name after `&`.
#[derive(Clone, Copy)]
enum Given {
    Number,
    Text,
    Name(&'static [u8]),
    Sum(&'static [u8]),
    TextSum,
    Address(&'static [u8]),
}

fn argument(alloc: Global, line: u32, given: Given) -> Result<Argument, NoMemory> {
    let (by_address, e) = match given {
        Given::Number => (false, Expr::Num { line, v: 1 }),
        Given::Text => (false, text(alloc, line)?),
        Given::Name(id) => (false, name(alloc, line, id)?),
        Given::Sum(id) => {
            let one = Expr::Num { line, v: 1 };
            (false, sum(alloc, name(alloc, line, id)?, one)?)
        }
        Given::TextSum => {
            let one = Expr::Num { line, v: 1 };
            (false, sum(alloc, text(alloc, line)?, one)?)
        }
        Given::Address(id) => (true, name(alloc, line, id)?),
    };
    Ok(Argument {
        line,
        by_address,
        e,
    })
}

// A task call on line 10, its arguments on the lines from 11 on.
fn call(alloc: Global, op: &[u8], given: &[Given]) -> Result<Stmt, NoMemory> {
    let mut args = Vec::new(alloc);
    let mut line: u32 = 10;
    for g in given {
        line = line.wrapping_add(1);
        args.push(argument(alloc, line, *g)?)?;
    }
    Ok(Stmt::Call {
        op: ident(alloc, 10, op)?,
        args,
    })
}

// `f = GS_FOpen(s, W); fprintf(f, "%d %s%%\n", n, s); GS_FClose(f);` and a task call under `if`.
fn right_body(alloc: Global) -> Result<Vec<Stmt>, NoMemory> {
    let mut args = Vec::new(alloc);
    args.push(name(alloc, 7, b"n")?)?;
    args.push(name(alloc, 7, b"s")?)?;
    let mut yes = Vec::new(alloc);
    yes.push(call(alloc, b"count", &[Given::Text, Given::Address(b"n")])?)?;
    let mut body = Vec::new(alloc);
    body.push(Stmt::OpenFile {
        line: 6,
        to: ident(alloc, 6, b"f")?,
        path: name(alloc, 6, b"s")?,
        mode: Mode::W,
    })?;
    body.push(Stmt::PrintFile {
        line: 7,
        handle: ident(alloc, 7, b"f")?,
        format: Format {
            line: 7,
            s: b"%d %s%%\n".to_vec(alloc)?,
        },
        args,
    })?;
    body.push(Stmt::CloseFile {
        line: 8,
        handle: ident(alloc, 8, b"f")?,
    })?;
    body.push(Stmt::If {
        line: 9,
        cond: name(alloc, 9, b"n")?,
        yes,
        no: None,
    })?;
    Ok(body)
}

#[test]
fn a_right_program_passes_and_is_given_back(rt: HostRuntime) -> Result<(), Fail> {
    let alloc = rt.alloc();
    let mut first = Vec::new(alloc);
    first.push(set(alloc, 5, b"s", text(alloc, 5)?)?)?;
    let tree = Tree {
        vars: variables(alloc)?,
        first,
        body: right_body(alloc)?,
        off: 90,
    };
    let program = gs_tree::print(alloc, &tree)?;
    let checked = check(alloc, tree, read(alloc, KIT)?)?;
    assert!(rt; gs_tree::print(alloc, checked.tree())? == program);
    assert_eq!(rt; gs_idl::print(alloc, checked.idl())?.as_slice(), KIT);
    Ok(())
}

// Integers of the names `AA`, `AB` and so on, each on its own line from 1 on.
fn many(alloc: Global, count: u8) -> Result<Vec<Var>, NoMemory> {
    let mut vars = Vec::new(alloc);
    for i in 0..count {
        let text = [b'A'.wrapping_add(i / 26), b'A'.wrapping_add(i % 26)];
        vars.push(var(alloc, 1 + i as u32, &text, VarKind::Int)?)?;
    }
    Ok(vars)
}

#[test]
fn a_variable_has_a_new_name_and_at_most_127_before_it(rt: HostRuntime) -> Result<(), Fail> {
    let alloc = rt.alloc();
    let mut again = variables(alloc)?;
    again.push(var(alloc, 8, b"n", VarKind::Handle)?)?;
    assert!(rt; of_variables(alloc, again)? == at(8, CheckKind::Twice));
    let mut operation = variables(alloc)?;
    operation.push(var(alloc, 8, b"note", VarKind::Int)?)?;
    assert!(rt; of_variables(alloc, operation)? == at(8, CheckKind::Twice));
    assert!(rt; of_variables(alloc, many(alloc, 128)?)? == None);
    assert!(rt; of_variables(alloc, many(alloc, 130)?)? == at(129, CheckKind::TooMany));
    let mut both = many(alloc, 128)?;
    both.push(var(alloc, 200, b"AB", VarKind::Int)?)?;
    assert!(rt; of_variables(alloc, both)? == at(200, CheckKind::Twice));
    Ok(())
}

#[test]
fn a_call_is_refused_at_its_name_or_at_an_argument(rt: HostRuntime) -> Result<(), Fail> {
    let alloc = rt.alloc();
    let (n, s, f) = (Given::Name(b"n"), Given::Name(b"s"), Given::Name(b"f"));
    let (to_n, other) = (Given::Address(b"n"), Given::Name(b"zz"));
    let cases: [(&[u8], &[Given], Option<CheckErr>); 23] = [
        (b"join", &[Given::Text, s, Given::Text], None),
        (b"count", &[s, n], None),
        (b"note", &[s, Given::Sum(b"n")], None),
        (b"n", &[other], at(10, CheckKind::Unknown)),
        (b"count", &[other], at(10, CheckKind::WrongCount)),
        (b"note", &[s, n, n], at(10, CheckKind::WrongCount)),
        (b"count", &[], at(10, CheckKind::WrongCount)),
        (b"count", &[other, n], at(11, CheckKind::Unknown)),
        (
            b"count",
            &[s, Given::Address(b"zz")],
            at(12, CheckKind::Unknown),
        ),
        (b"count", &[n, other], at(11, CheckKind::WrongKind)),
        (b"count", &[f, n], at(11, CheckKind::WrongKind)),
        (b"count", &[s, f], at(12, CheckKind::WrongKind)),
        (b"count", &[s, Given::Text], at(12, CheckKind::WrongKind)),
        (b"note", &[to_n, n], at(11, CheckKind::WrongKind)),
        (
            b"count",
            &[s, Given::Number],
            at(12, CheckKind::NotVariable),
        ),
        (
            b"count",
            &[s, Given::Sum(b"n")],
            at(12, CheckKind::NotVariable),
        ),
        (b"note", &[s, to_n], at(12, CheckKind::NotVariable)),
        (b"count", &[s, Given::TextSum], at(12, CheckKind::WrongKind)),
        (
            b"count",
            &[s, Given::Sum(b"zz")],
            at(12, CheckKind::Unknown),
        ),
        (b"note", &[Given::Sum(b"zz"), n], at(11, CheckKind::Unknown)),
        (
            b"join",
            &[s, s, Given::Address(b"s")],
            at(13, CheckKind::NotVariable),
        ),
        (b"two", &[n, to_n], at(12, CheckKind::Twice)),
        (b"two", &[s, s], at(11, CheckKind::WrongKind)),
    ];
    for (op, given, fault) in cases {
        assert!(rt;
            of_statement(alloc, call(alloc, op, given)?)? == fault,
            "{op:?}"
        );
    }
    Ok(())
}

// `printf` of a format on line 10, and of `n` and `s` on the lines 11 and 12.
fn printing(alloc: Global, format: &[u8], last: &[u8]) -> Result<Stmt, NoMemory> {
    let mut args = Vec::new(alloc);
    args.push(name(alloc, 11, b"n")?)?;
    args.push(name(alloc, 12, last)?)?;
    Ok(Stmt::Print {
        line: 10,
        format: Format {
            line: 10,
            s: format.to_vec(alloc)?,
        },
        args,
    })
}

#[test]
fn a_format_fits_its_arguments(rt: HostRuntime) -> Result<(), Fail> {
    let alloc = rt.alloc();
    let bad = at(10, CheckKind::BadFormat);
    let cases: [(&[u8], &[u8], Option<CheckErr>); 11] = [
        (b"%d%s", b"s", None),
        (b"a%%d%d %%%s%%", b"s", None),
        (b"%s%d", b"s", bad),
        (b"%d", b"s", bad),
        (b"%d%s%s", b"s", bad),
        (b"%d%s%", b"s", bad),
        (b"%x%d%s", b"s", bad),
        (b"%d%s", b"n", bad),
        (b"%d%s", b"f", bad),
        (b"%d%s", b"zz", at(12, CheckKind::Unknown)),
        (b"%d%d%s", b"zz", bad),
    ];
    for (format, last, fault) in cases {
        assert!(rt;
            of_statement(alloc, printing(alloc, format, last)?)? == fault,
            "{format:?}"
        );
    }
    Ok(())
}

// The first fault of an assignment on line 10 of the sum of two values.
fn of_sum(alloc: Global, to: &[u8], a: Expr, b: Expr) -> Result<Option<CheckErr>, Fail> {
    let a = set(alloc, 10, to, sum(alloc, a, b)?)?;
    of_statement(alloc, Stmt::Set { a })
}

#[test]
fn an_expression_is_refused_at_its_first_leaf(rt: HostRuntime) -> Result<(), Fail> {
    let alloc = rt.alloc();
    let one = || Expr::Num { line: 11, v: 1 };
    assert!(rt; of_sum(alloc, b"n", one(), one())? == None);
    let found = of_sum(alloc, b"zz", one(), text(alloc, 12)?)?;
    assert!(rt; found == at(10, CheckKind::Unknown));
    assert!(rt; of_sum(alloc, b"f", one(), one())? == at(10, CheckKind::WrongKind));
    let found = of_sum(alloc, b"s", one(), name(alloc, 12, b"zz")?)?;
    assert!(rt; found == at(11, CheckKind::WrongKind));
    let found = of_sum(alloc, b"s", name(alloc, 11, b"zz")?, one())?;
    assert!(rt; found == at(11, CheckKind::Unknown));
    let found = of_sum(alloc, b"n", one(), text(alloc, 12)?)?;
    assert!(rt; found == at(12, CheckKind::WrongKind));
    let to_text = set(alloc, 10, b"n", text(alloc, 11)?)?;
    let found = of_statement(alloc, Stmt::Set { a: to_text })?;
    assert!(rt; found == at(11, CheckKind::WrongKind));
    let close = Stmt::CloseFile {
        line: 9,
        handle: ident(alloc, 10, b"s")?,
    };
    assert!(rt; of_statement(alloc, close)? == at(10, CheckKind::WrongKind));
    Ok(())
}

// The three variables with another on line 30, an initial assignment on line 20, and a task call on
// line 10.
fn three_parts(alloc: Global, other: &[u8], value: &[u8]) -> Result<Tree, NoMemory> {
    let mut vars = variables(alloc)?;
    vars.push(var(alloc, 30, other, VarKind::Int)?)?;
    let mut first = Vec::new(alloc);
    first.push(set(alloc, 20, b"n", name(alloc, 20, value)?)?)?;
    let mut body = Vec::new(alloc);
    body.push(Stmt::Empty { line: 10 })?;
    body.push(call(alloc, b"none", &[])?)?;
    body.push(Stmt::CloseFile {
        line: 9,
        handle: ident(alloc, 9, b"zz")?,
    })?;
    Ok(Tree {
        vars,
        first,
        body,
        off: 90,
    })
}

#[test]
fn variables_count_before_initial_assignments_before_statements(
    rt: HostRuntime,
) -> Result<(), Fail> {
    let alloc = rt.alloc();
    let found = fault_of(alloc, three_parts(alloc, b"n", b"s")?)?;
    assert!(rt; found == at(30, CheckKind::Twice));
    let found = fault_of(alloc, three_parts(alloc, b"m", b"s")?)?;
    assert!(rt; found == at(20, CheckKind::WrongKind));
    let found = fault_of(alloc, three_parts(alloc, b"m", b"m")?)?;
    assert!(rt; found == at(10, CheckKind::Unknown));
    Ok(())
}

// `r = fgetline(handle, to);` with its names on the lines from 10 on.
fn reading(alloc: Global, names: [&[u8]; 3]) -> Result<Stmt, AllocError> {
    let [got, handle, to] = names;
    Ok(Stmt::ReadLine {
        line: 9,
        got: ident(alloc, 10, got)?,
        handle: ident(alloc, 11, handle)?,
        to: ident(alloc, 12, to)?,
    })
}

// `for (n = a; b; n = c) GS_FClose(zz);` with its parts on the lines from 10 on.
fn looping(alloc: Global, names: [&[u8]; 3]) -> Result<Stmt, NoMemory> {
    let [a, b, c] = names;
    let mut body = Vec::new(alloc);
    body.push(Stmt::CloseFile {
        line: 13,
        handle: ident(alloc, 13, b"zz")?,
    })?;
    Ok(Stmt::For {
        line: 9,
        first: Some(set(alloc, 10, b"n", name(alloc, 10, a)?)?),
        cond: Some(name(alloc, 11, b)?),
        step: Some(set(alloc, 12, b"n", name(alloc, 12, c)?)?),
        body,
    })
}

#[test]
fn the_parts_of_a_statement_count_in_the_order_of_the_text(rt: HostRuntime) -> Result<(), Fail> {
    let alloc = rt.alloc();
    let reads: [([&[u8]; 3], Option<CheckErr>); 4] = [
        ([b"n", b"f", b"s"], None),
        ([b"s", b"n", b"zz"], at(10, CheckKind::WrongKind)),
        ([b"n", b"s", b"zz"], at(11, CheckKind::WrongKind)),
        ([b"n", b"f", b"zz"], at(12, CheckKind::Unknown)),
    ];
    for (names, fault) in reads {
        assert!(rt;
            of_statement(alloc, reading(alloc, names)?)? == fault,
            "{fault:?}"
        );
    }
    let loops: [([&[u8]; 3], Option<CheckErr>); 4] = [
        ([b"s", b"f", b"zz"], at(10, CheckKind::WrongKind)),
        ([b"n", b"f", b"zz"], at(11, CheckKind::WrongKind)),
        ([b"n", b"n", b"zz"], at(12, CheckKind::Unknown)),
        ([b"n", b"n", b"n"], at(13, CheckKind::Unknown)),
    ];
    for (names, fault) in loops {
        assert!(rt;
            of_statement(alloc, looping(alloc, names)?)? == fault,
            "{fault:?}"
        );
    }
    Ok(())
}
