// Statements that are one order.
ghost use Rattle.std.specs.Prelude.{◌≡◌, IfOk, OnOk, map};
ghost use Rattle.std.specs.Option.{option_map};
ghost use Rattle.gs_tree.specs.Program as tree;
ghost use Rattle.gs_tree.specs.View.{name_of, term_of, setting_of, formatted_of, passed_of};
ghost use Rattle.gs_orders.specs.Says.{scene};
ghost use Rattle.gs_orders.specs.Emitted.{Added, Kept, Emits, EmitsMaybe};

use crate::hand::hand_all;
use crate::order::Order;
use gs_idl::Idl;
use gs_talk::{Formula, formulas, place_of};
use gs_tree::{Argument, Assign, Expr, Format, Ident, Mode};
use gs_types::{Blob, NoMemory};
use std::alloc::Global;

/// Puts an order behind the others, and gives its place.
pub(crate) fn add(orders: &mut Vec<Order>, o: Order) -> Result<usize, NoMemory>
    ensures { IfOk result (λ here. Added orders.old.items here o orders.new.items) }
{
    let here = orders.len();
    orders.push(o)?;
    Ok(here)
}

pub(crate) fn emit_set(
    a: &Assign,
    alloc: Global,
    names: &[Blob],
    idl: &Idl,
    next: usize,
    orders: &mut Vec<Order>,
) -> Result<usize, NoMemory>
    ensures kept { OnOk result (Kept orders.old.items orders.new.items) }
    ensures says { Emits (scene names.now idl.now.ops) orders.old.items
        (tree.set (setting_of a.now)) next result orders.new.items }
{
    let value = Formula::of(alloc, &a.value, names)?;
    let to = place_of(names, &a.to.name);
    add(
        orders,
        Order::Set {
            line: a.to.line,
            to,
            value,
            next,
        },
    )
}

pub(crate) fn emit_maybe(
    a: &Option<Assign>,
    alloc: Global,
    names: &[Blob],
    idl: &Idl,
    next: usize,
    orders: &mut Vec<Order>,
) -> Result<usize, NoMemory>
    ensures kept { OnOk result (Kept orders.old.items orders.new.items) }
    ensures says { EmitsMaybe (scene names.now idl.now.ops) orders.old.items
        (option_map setting_of a.now) next result orders.new.items }
{
    match a {
        None => Ok(next),
        Some(a) => emit_set(a, alloc, names, idl, next, orders),
    }
}

pub(crate) fn emit_open(
    path: &Expr,
    line: u32,
    to: &Ident,
    mode: Mode,
    alloc: Global,
    names: &[Blob],
    idl: &Idl,
    next: usize,
    orders: &mut Vec<Order>,
) -> Result<usize, NoMemory>
    ensures kept { OnOk result (Kept orders.old.items orders.new.items) }
    ensures says { Emits (scene names.now idl.now.ops) orders.old.items
        (tree.open_file line (name_of to.now) (term_of path.now) mode)
        next result orders.new.items }
{
    let path = Formula::of(alloc, path, names)?;
    let to = place_of(names, &to.name);
    add(
        orders,
        Order::Open {
            line,
            to,
            path,
            mode,
            next,
        },
    )
}

pub(crate) fn emit_read(
    line: u32,
    got: &Ident,
    handle: &Ident,
    to: &Ident,
    names: &[Blob],
    idl: &Idl,
    next: usize,
    orders: &mut Vec<Order>,
) -> Result<usize, NoMemory>
    ensures kept { OnOk result (Kept orders.old.items orders.new.items) }
    ensures says { Emits (scene names.now idl.now.ops) orders.old.items
        (tree.read_line line (name_of got.now) (name_of handle.now) (name_of to.now))
        next result orders.new.items }
{
    let got = place_of(names, &got.name);
    let handle = place_of(names, &handle.name);
    let to = place_of(names, &to.name);
    add(
        orders,
        Order::Read {
            line,
            got,
            handle,
            to,
            next,
        },
    )
}

pub(crate) fn emit_close(
    line: u32,
    handle: &Ident,
    names: &[Blob],
    idl: &Idl,
    next: usize,
    orders: &mut Vec<Order>,
) -> Result<usize, NoMemory>
    ensures kept { OnOk result (Kept orders.old.items orders.new.items) }
    ensures says { Emits (scene names.now idl.now.ops) orders.old.items
        (tree.close_file line (name_of handle.now)) next result orders.new.items }
{
    let handle = place_of(names, &handle.name);
    add(orders, Order::Close { line, handle, next })
}

pub(crate) fn emit_wait(
    line: u32,
    names: &[Blob],
    idl: &Idl,
    next: usize,
    orders: &mut Vec<Order>,
) -> Result<usize, NoMemory>
    ensures kept { OnOk result (Kept orders.old.items orders.new.items) }
    ensures says { Emits (scene names.now idl.now.ops) orders.old.items
        (tree.barrier line) next result orders.new.items }
{
    add(orders, Order::Wait { line, next })
}

pub(crate) fn emit_skip(
    line: u32,
    names: &[Blob],
    idl: &Idl,
    next: usize,
    orders: &mut Vec<Order>,
) -> Result<usize, NoMemory>
    ensures kept { OnOk result (Kept orders.old.items orders.new.items) }
    ensures says { Emits (scene names.now idl.now.ops) orders.old.items
        (tree.empty line) next result orders.new.items }
{
    add(orders, Order::Skip { line, next })
}

pub(crate) fn emit_print(
    args: &[Expr],
    line: u32,
    format: &Format,
    alloc: Global,
    names: &[Blob],
    idl: &Idl,
    next: usize,
    orders: &mut Vec<Order>,
) -> Result<usize, NoMemory>
    ensures kept { OnOk result (Kept orders.old.items orders.new.items) }
    ensures says { Emits (scene names.now idl.now.ops) orders.old.items
        (tree.print line (formatted_of format.now) (map term_of args.now))
        next result orders.new.items }
{
    let args = formulas(alloc, args, names)?;
    let format = Blob::copy(alloc, &format.s)?;
    add(
        orders,
        Order::Print {
            line,
            format,
            args,
            next,
        },
    )
}

pub(crate) fn emit_print_file(
    args: &[Expr],
    line: u32,
    handle: &Ident,
    format: &Format,
    alloc: Global,
    names: &[Blob],
    idl: &Idl,
    next: usize,
    orders: &mut Vec<Order>,
) -> Result<usize, NoMemory>
    ensures kept { OnOk result (Kept orders.old.items orders.new.items) }
    ensures says { Emits (scene names.now idl.now.ops) orders.old.items
        (tree.print_file line (name_of handle.now) (formatted_of format.now) (map term_of args.now))
        next result orders.new.items }
{
    let args = formulas(alloc, args, names)?;
    let format = Blob::copy(alloc, &format.s)?;
    let handle = place_of(names, &handle.name);
    add(
        orders,
        Order::PrintFile {
            line,
            handle,
            format,
            args,
            next,
        },
    )
}

pub(crate) fn emit_print_str(
    args: &[Expr],
    line: u32,
    to: &Ident,
    format: &Format,
    alloc: Global,
    names: &[Blob],
    idl: &Idl,
    next: usize,
    orders: &mut Vec<Order>,
) -> Result<usize, NoMemory>
    ensures kept { OnOk result (Kept orders.old.items orders.new.items) }
    ensures says { Emits (scene names.now idl.now.ops) orders.old.items
        (tree.print_str line (name_of to.now) (formatted_of format.now) (map term_of args.now))
        next result orders.new.items }
{
    let args = formulas(alloc, args, names)?;
    let format = Blob::copy(alloc, &format.s)?;
    let to = place_of(names, &to.name);
    add(
        orders,
        Order::PrintStr {
            line,
            to,
            format,
            args,
            next,
        },
    )
}

pub(crate) fn emit_call(
    args: &[Argument],
    op: &Ident,
    alloc: Global,
    names: &[Blob],
    idl: &Idl,
    next: usize,
    orders: &mut Vec<Order>,
) -> Result<usize, NoMemory>
    ensures kept { OnOk result (Kept orders.old.items orders.new.items) }
    ensures says { Emits (scene names.now idl.now.ops) orders.old.items
        (tree.call (name_of op.now) (map passed_of args.now)) next result orders.new.items }
{
    let line = op.line;
    let op = match idl.find(&op.name) {
        Some(op) => op,
        None => return Ok(next),
    };
    let args = hand_all(alloc, names, idl, op, args)?;
    add(
        orders,
        Order::Call {
            line,
            op,
            args,
            next,
        },
    )
}
