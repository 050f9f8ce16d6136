// A program made into orders, from its end to its beginning: what follows a statement is made
// before it.
ghost use Rattle.std.specs.Prelude.{◌≡◌, ◌∷◌, [], IfOk, OnOk, set, map, MatchOption};
ghost use Rattle.std.specs.Option.{option_map};
ghost use Rattle.gs_tree.specs.Program as tree;
ghost use Rattle.gs_tree.specs.View.{code_of, codes_of, maybe_codes, term_of, setting_of, program_of};
ghost use Rattle.gs_talk.specs.Terms.{placed};
ghost use Rattle.gs_talk.specs.Talk.{test_or_true};
ghost use Rattle.gs_talk.specs.View.{placed_of};
ghost use Rattle.gs_orders.specs.Says.{scene, SaysProgram};
ghost use Rattle.gs_orders.specs.Emitted.{Kept, Emits, EmitsAll, EmitsElse, EmitsFirst, EmitsTest};

use crate::order::Order;
use crate::plain::{
    add, emit_call, emit_close, emit_maybe, emit_open, emit_print, emit_print_file, emit_print_str,
    emit_read, emit_set, emit_skip, emit_wait,
};
use gs_idl::Idl;
use gs_talk::Formula;
use gs_tree::{Assign, Expr, Stmt, Tree};
use gs_types::{Blob, NoMemory};
use std::alloc::Global;

fn write(orders: &mut Vec<Order>, at: usize, o: Order)
    ensures { orders.new.items ≡ set orders.old.items at o }
{
    if at < orders.len() {
        orders[at] = o;
    }
}

// A test; an absent one is true.
fn test_formula(
    alloc: Global,
    names: &[Blob],
    e: &Option<Expr>,
    line: u32,
) -> Result<Formula, NoMemory>
    ensures { IfOk result (λ f.
        placed_of f ≡ placed names.now (test_or_true (option_map term_of e.now) line)) }
{
    match e {
        None => Ok(Formula::Num { v: 1 }),
        Some(e) => Formula::of(alloc, e, names),
    }
}

// The statements that a test leads to, and the test.
#[cycle(emit)]
fn emit_test(
    yes: &[Stmt],
    cond: &Expr,
    line: u32,
    no: usize,
    alloc: Global,
    names: &[Blob],
    idl: &Idl,
    next: usize,
    orders: &mut Vec<Order>,
) -> Result<usize, NoMemory>
    ensures kept { OnOk result (Kept orders.old.items orders.new.items) }
    ensures says { EmitsTest (scene names.now idl.now.ops) orders.old.items
        line (term_of cond.now) (codes_of yes.now) no next result orders.new.items }
{
    let value = Formula::of(alloc, cond, names)?;
    let yes = emit_all(yes, alloc, names, idl, next, orders)?;
    add(
        orders,
        Order::Test {
            line,
            value,
            yes,
            no,
        },
    )
}

// The statements of an `else`, where there is one.
#[cycle(emit)]
fn emit_else(
    no: &Option<Vec<Stmt>>,
    alloc: Global,
    names: &[Blob],
    idl: &Idl,
    next: usize,
    orders: &mut Vec<Order>,
) -> Result<usize, NoMemory>
    ensures kept { OnOk result (Kept orders.old.items orders.new.items) }
    ensures says { EmitsElse (scene names.now idl.now.ops) orders.old.items
        no.now next result orders.new.items }
{
    match no {
        None => Ok(next),
        Some(body) => emit_all(body, alloc, names, idl, next, orders),
    }
}

// A loop keeps its place free, since its body goes back to it.
#[cycle(emit)]
fn emit_while(
    body: &[Stmt],
    cond: &Expr,
    line: u32,
    alloc: Global,
    names: &[Blob],
    idl: &Idl,
    next: usize,
    orders: &mut Vec<Order>,
) -> Result<usize, NoMemory>
    ensures kept { OnOk result (Kept orders.old.items orders.new.items) }
    ensures says { Emits (scene names.now idl.now.ops) orders.old.items
        (tree.while line (term_of cond.now) (codes_of body.now)) next result orders.new.items }
{
    let value = Formula::of(alloc, cond, names)?;
    let here = add(orders, Order::Leave { line })?;
    let yes = emit_all(body, alloc, names, idl, here, orders)?;
    let test = Order::Test {
        line,
        value,
        yes,
        no: next,
    };
    write(orders, here, test);
    Ok(here)
}

#[cycle(emit)]
fn emit_for(
    body: &[Stmt],
    line: u32,
    first: &Option<Assign>,
    cond: &Option<Expr>,
    step: &Option<Assign>,
    alloc: Global,
    names: &[Blob],
    idl: &Idl,
    next: usize,
    orders: &mut Vec<Order>,
) -> Result<usize, NoMemory>
    ensures kept { OnOk result (Kept orders.old.items orders.new.items) }
    ensures says { Emits (scene names.now idl.now.ops) orders.old.items
        (tree.for line (option_map setting_of first.now) (option_map term_of cond.now)
        (option_map setting_of step.now) (codes_of body.now))
        next result orders.new.items }
{
    let value = test_formula(alloc, names, cond, line)?;
    let test = add(orders, Order::Leave { line })?;
    let back = emit_maybe(step, alloc, names, idl, test, orders)?;
    let yes = emit_all(body, alloc, names, idl, back, orders)?;
    let order = Order::Test {
        line,
        value,
        yes,
        no: next,
    };
    write(orders, test, order);
    emit_maybe(first, alloc, names, idl, test, orders)
}

#[cycle(emit)]
fn emit(
    s: &Stmt,
    alloc: Global,
    names: &[Blob],
    idl: &Idl,
    next: usize,
    orders: &mut Vec<Order>,
) -> Result<usize, NoMemory>
    ensures kept { OnOk result (Kept orders.old.items orders.new.items) }
    ensures says { Emits (scene names.now idl.now.ops) orders.old.items
        (code_of s.now) next result orders.new.items }
{
    match s {
        Stmt::Empty { line } => emit_skip(*line, names, idl, next, orders),
        Stmt::Block { line: _, body } => emit_all(body, alloc, names, idl, next, orders),
        Stmt::Set { a } => emit_set(a, alloc, names, idl, next, orders),
        Stmt::If {
            line,
            cond,
            yes,
            no,
        } => {
            let no = emit_else(no, alloc, names, idl, next, orders)?;
            emit_test(yes, cond, *line, no, alloc, names, idl, next, orders)
        }
        Stmt::While { line, cond, body } => {
            emit_while(body, cond, *line, alloc, names, idl, next, orders)
        }
        Stmt::For {
            line,
            first,
            cond,
            step,
            body,
        } => emit_for(
            body, *line, first, cond, step, alloc, names, idl, next, orders,
        ),
        Stmt::OpenFile {
            line,
            to,
            path,
            mode,
        } => emit_open(path, *line, to, *mode, alloc, names, idl, next, orders),
        Stmt::ReadLine {
            line,
            got,
            handle,
            to,
        } => emit_read(*line, got, handle, to, names, idl, next, orders),
        Stmt::CloseFile { line, handle } => emit_close(*line, handle, names, idl, next, orders),
        Stmt::Barrier { line } => emit_wait(*line, names, idl, next, orders),
        Stmt::Print { line, format, args } => {
            emit_print(args, *line, format, alloc, names, idl, next, orders)
        }
        Stmt::PrintFile {
            line,
            handle,
            format,
            args,
        } => emit_print_file(args, *line, handle, format, alloc, names, idl, next, orders),
        Stmt::PrintStr {
            line,
            to,
            format,
            args,
        } => emit_print_str(args, *line, to, format, alloc, names, idl, next, orders),
        Stmt::Call { op, args } => emit_call(args, op, alloc, names, idl, next, orders),
    }
}

#[cycle(emit)]
fn emit_all(
    body: &[Stmt],
    alloc: Global,
    names: &[Blob],
    idl: &Idl,
    next: usize,
    orders: &mut Vec<Order>,
) -> Result<usize, NoMemory>
    ensures kept { OnOk result (Kept orders.old.items orders.new.items) }
    ensures says { EmitsAll (scene names.now idl.now.ops) orders.old.items
        (codes_of body.now) next result orders.new.items }
{
    let mut here = next;
    let mut i = body.len();
    'back: while i > 0 {
        i -= 1;
        here = emit(&body[i], alloc, names, idl, here, orders)?;
    }
    Ok(here)
}

fn emit_first(
    first: &[Assign],
    alloc: Global,
    names: &[Blob],
    idl: &Idl,
    next: usize,
    orders: &mut Vec<Order>,
) -> Result<usize, NoMemory>
    ensures kept { OnOk result (Kept orders.old.items orders.new.items) }
    ensures says { EmitsFirst (scene names.now idl.now.ops) orders.old.items
        (map setting_of first.now) next result orders.new.items }
{
    let mut here = next;
    let mut i = first.len();
    'back: while i > 0 {
        i -= 1;
        here = emit_set(&first[i], alloc, names, idl, here, orders)?;
    }
    Ok(here)
}

/// The orders of a program, and the place of the first.
#[derive(Drop)]
pub struct Orders {
    pub start: usize,
    pub list: Vec<Order>,
}

/// Makes the orders of a program whose variables have these names, in the order of their
/// declaration: one for each assignment, test, call, print and the like, one for GS_On, and the
/// last for GS_Off. The only error is want of memory.
pub fn orders_of(alloc: Global, tree: &Tree, idl: &Idl, names: &[Blob]) -> Result<Orders, NoMemory>
    ensures { IfOk result (λ o.
        SaysProgram (scene names.now idl.now.ops) o.list.items o.start (program_of tree.now)) }
{
    let mut list = Vec::new(alloc);
    let off = add(&mut list, Order::Leave { line: tree.off })?;
    let body = emit_all(&tree.body, alloc, names, idl, off, &mut list)?;
    let on = add(
        &mut list,
        Order::Skip {
            line: 0,
            next: body,
        },
    )?;
    let start = emit_first(&tree.first, alloc, names, idl, on, &mut list)?;
    Ok(Orders { start, list })
}
