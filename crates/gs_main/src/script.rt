// What a machine works from.
ghost use Rattle.std.specs.Prelude.{◌≡◌, Some, true};
ghost use Rattle.std.specs.List.{list_all};
ghost use Rattle.gs_orders.specs.Steps.{step_of};
ghost use Rattle.gs_main.specs.Short.{is_short};
ghost use Rattle.gs_main.specs.CallAt.{call_in, IsCallAt};

use gs_check::Checked;
use gs_idl::{Dir, Idl, ParamKind};
use gs_orders::{Handed, Order};
use gs_pieces::{leaves_file, writes};
use gs_tree::Mode;
use gs_types::Name;

/// A checked program with its orders, and the names of its texts.
#[derive(Drop)]
pub(crate) struct Script {
    pub(crate) checked: Checked,
    pub(crate) idl_name: Name,
    pub(crate) program_name: Name,
    pub(crate) orders: Vec<Order>,
    ghost short: { list_all is_short orders.items ≡ true },
}

fn is_short(o: &Order) -> bool
    ensures { result ≡ is_short o.now }
{
    match o {
        Order::Call {
            line: _,
            op: _,
            args,
            next: _,
        } => args.len() < 255,
        _ => true,
    }
}

// The line, the arguments and the place behind it of a call.
fn call_of(o: &Order) -> Option<(u32, &[Handed], usize)>
    requires { is_short o.now ≡ true }
    ensures { IsCallAt (call_in (Some (step_of o.now))) result }
{
    match o {
        Order::Call {
            line,
            op: _,
            args,
            next,
        } => Some((*line, args, *next)),
        _ => None,
    }
}

/// Each call has fewer than 255 arguments.
pub(crate) fn are_short(orders: &[Order]) -> bool
    ensures { result ≡ list_all is_short orders.now }
{
    orders.iter().all(|o| is_short(o))
}

impl Script {
    ghost use Rattle.std.specs.Prelude.{◌≡◌, ◌&&◌, option_copied, slice_get};
    ghost use Rattle.gs_check.specs.Passing.{interface_in};
    ghost use Rattle.gs_talk.specs.Talk.{is_own_text, writes as talk_writes};
    ghost use Rattle.gs_idl.specs.Interface.{Param, writes_file};
    ghost use Rattle.gs_orders.specs.Steps.{step_at};
    ghost use Rattle.gs_main.specs.CallAt.{call_in, IsCallAt};
    ghost use Rattle.gs_main.specs.Seen.{given_of};

    pub(crate) fn idl(&self) -> &Idl
        ensures { result.now ≡ interface_in self.now.checked }
    {
        self.checked.idl()
    }

    /// The order at a place.
    pub(crate) fn order_at(&self, at: usize) -> Option<&Order>
        ensures { option_copied result ≡ slice_get self.now.orders.items at }
    {
        self.orders.get(at)
    }

    /// The line, the arguments and the place behind it of the call at a place.
    pub(crate) fn call_at(&self, at: usize) -> Option<(u32, &[Handed], usize)>
        ensures { IsCallAt (call_in (step_at self.now.orders.items at)) result }
    {
        match self.order_at(at) {
            Some(o) => call_of(o),
            None => None,
        }
    }

    /// A file of this name that is opened so would be the interface or the program.
    pub(crate) fn writes_own(&self, mode: Mode, name: &Name) -> bool
        ensures { result ≡ (talk_writes mode && is_own_text (given_of self.now) name.now) }
    {
        writes(mode) && self.is_own_text(name)
    }

    /// A task would leave the interface or the program at a place of this direction and kind.
    pub(crate) fn leaves_own(&self, dir: Dir, kind: ParamKind, name: &Name) -> bool
        ensures { (p : Param) → p.dir ≡ dir → p.kind ≡ kind →
            result ≡ (writes_file p && is_own_text (given_of self.now) name.now) }
    {
        leaves_file(dir, kind) && self.is_own_text(name)
    }

    /// The name of the interface or of the program.
    pub(crate) fn is_own_text(&self, name: &Name) -> bool
        ensures { result ≡ is_own_text (given_of self.now) name.now }
    {
        *name == self.idl_name || *name == self.program_name
    }
}
