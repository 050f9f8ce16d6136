// The arguments of task calls.
ghost use Rattle.std.specs.Prelude.{◌≡◌, ◌<◌, IfOk, length, map};
ghost use Rattle.gs_idl.specs.Interface.{Param, params_at, is_out_scalar};
ghost use Rattle.gs_tree.specs.View.{passed_of, term_of};
ghost use Rattle.gs_talk.specs.Talk.{handed, all_handed, variable_of};
ghost use Rattle.gs_orders.specs.Steps.{handed_of};

use gs_idl::{Dir, Idl, ParamKind};
use gs_talk::{Formula, place_of};
use gs_tree::{Argument, Expr};
use gs_types::{Blob, NoMemory};
use std::alloc::Global;

/// An argument that is evaluated, or the place of the variable that a number or a string is left
/// in.
#[derive(Drop)]
pub enum Handed {
    ByValue { value: Formula },
    Into { i: usize },
}

fn is_out_scalar(dir: Dir, kind: ParamKind) -> bool
    ensures { (p : Param) → p.dir ≡ dir → p.kind ≡ kind → result ≡ is_out_scalar p }
{
    let scalar = match kind {
        ParamKind::File => false,
        ParamKind::Int => true,
        ParamKind::Str => true,
    };
    let out = match dir {
        Dir::Input => false,
        Dir::Both => false,
        Dir::Output => true,
    };
    out && scalar
}

// The variable's name; nothing for an expression that is none.
fn variable_of(e: &Expr) -> &[u8]
    ensures { result.now ≡ variable_of (term_of e.now) }
{
    match e {
        Expr::Num { line: _, v: _ } => &[],
        Expr::Lit { line: _, s: _ } => &[],
        Expr::Name { id } => id.name.as_slice(),
        Expr::Atoi { e: _ } => &[],
        Expr::Strcmp { a: _, b: _ } => &[],
        Expr::Neg { e: _ } => &[],
        Expr::Not { e: _ } => &[],
        Expr::Two { op: _, a: _, b: _ } => &[],
    }
}

fn hand(
    alloc: Global,
    names: &[Blob],
    dir: Dir,
    kind: ParamKind,
    a: &Argument,
) -> Result<Handed, NoMemory>
    ensures { (p : Param) → p.dir ≡ dir → p.kind ≡ kind →
        IfOk result (λ h. handed_of h ≡ handed names.now p (passed_of a.now)) }
{
    if is_out_scalar(dir, kind) {
        Ok(Handed::Into {
            i: place_of(names, variable_of(&a.e)),
        })
    } else {
        let value = Formula::of(alloc, &a.e, names)?;
        Ok(Handed::ByValue { value })
    }
}

/// The arguments of a call of an operation, as far as it has places and arguments.
pub(crate) fn hand_all(
    alloc: Global,
    names: &[Blob],
    idl: &Idl,
    op: u8,
    args: &[Argument],
) -> Result<Vec<Handed>, NoMemory>
    requires { op < length idl.now.ops }
    ensures { IfOk result (λ all. map handed_of all.items
        ≡ all_handed names.now (params_at idl.now.ops op) (map passed_of args.now)) }
{
    let mut all = Vec::new(alloc);
    for j in 0..args.len().min(idl.param_count(op) as usize) {
        let (dir, kind) = idl.param(op, j as u8);
        all.push(hand(alloc, names, dir, kind, &args[j])?)?;
    }
    Ok(all)
}
