// A machine over orders.
ghost use Rattle.std.specs.Prelude.{◌≡◌, if◌then◌else◌};
ghost use Rattle.gs_talk.specs.Values.{is_zero, int_of};

use crate::script::Script;
use crate::waits::{Last, Pause, Waits};
use crate::work::Work;
use gs_orders::Order;
use gs_talk::{Formula, Question, int_of};
use gs_types::{NoMemory, Value};

/// Where a program stands: at an order, with so many steps left.
#[derive(Drop)]
pub(crate) struct Run {
    pub(crate) at: usize,
    pub(crate) steps: u64,
    pub(crate) work: Work,
}

// Where a test leads.
fn way(v: &Value, yes: usize, no: usize) -> usize
    ensures { result ≡ (if is_zero (int_of v.now) then no else yes) }
{
    if int_of(v) == 0 { no } else { yes }
}

impl Run {
    ghost use Rattle.std.specs.Prelude.{◌≡◌, ◌<◌, ◌-◌, List, Some, slice_get};
    ghost use Rattle.gs_talk.specs.Talk.{Given};
    ghost use Rattle.gs_talk.specs.View.{placed_of};
    ghost use Rattle.gs_orders.specs.declared.order.Order as order;
    ghost use Rattle.gs_orders.specs.Says.{IsAt};
    ghost use Rattle.gs_orders.specs.Steps.{test};
    ghost use Rattle.gs_main.specs.Seen.{given_of, stands_at, steps_after, Moved, AsksOn};

    fn take_step(&mut self, next: usize)
        ensures { self.new ≡ record self.old { at = next; steps = self.old.steps - 1 } }
    {
        self.steps = self.steps.saturating_sub(1);
        self.at = next;
    }

    // It stands then as what it waits for says.
    fn after(&mut self, done: Result<(), Pause>, next: usize) -> Result<(), Pause>
        ensures done { result ≡ done }
        ensures at { self.new.at ≡ stands_at self.old.work.waits self.old.at next }
        ensures steps { self.new.steps ≡ steps_after self.old.work.waits self.old.steps }
        ensures work { self.new.work ≡ self.old.work }
    {
        match self.work.waits {
            Waits::Nothing => self.take_step(next),
            Waits::Content { .. } => self.take_step(next),
            Waits::Word => self.take_step(next),
            Waits::Call => self.steps = self.steps.saturating_sub(1),
            Waits::Value { i: _ } => {}
            Waits::Ended { last: _ } => {}
        }
        done
    }

    fn test(&mut self, line: u32, value: &Formula, yes: usize, no: usize) -> Result<(), Pause>
        requires waits { self.old.work.waits ≡ Waits.Nothing }
        requires steps { 0 < self.old.steps }
        ensures { (t : Given) (orders : List order.Order) →
            IsAt orders self.old.at (test line (placed_of value.now) yes no) →
            Moved t orders self.old result self.new }
    {
        let v = match self.work.value(line, value) {
            Ok(v) => v,
            Err(pause) => return Err(pause),
        };
        self.take_step(way(&v, yes, no));
        Ok(())
    }

    fn obey(&mut self, script: &Script, order: &Order) -> Result<(), Pause>
        requires waits { self.old.work.waits ≡ Waits.Nothing }
        requires steps { 0 < self.old.steps }
        requires stands { slice_get script.now.orders.items self.old.at ≡ Some order.now }
        ensures { Moved (given_of script.now) script.now.orders.items self.old result self.new }
    {
        match order {
            Order::Skip { line: _, next } => self.after(Ok(()), *next),
            Order::Test {
                line,
                value,
                yes,
                no,
            } => self.test(*line, value, *yes, *no),
            Order::Leave { line } => Err(self.work.leave(*line)),
            Order::Set {
                line,
                to,
                value,
                next,
            } => {
                let done = self.work.assign(*line, *to, value);
                self.after(done, *next)
            }
            Order::Open {
                line,
                to,
                path,
                mode,
                next,
            } => {
                let done = self.work.open(script, *line, *to, path, *mode);
                self.after(done, *next)
            }
            Order::Read {
                line,
                got,
                handle,
                to,
                next,
            } => {
                let done = self.work.fetch(*line, *got, *handle, *to);
                self.after(done, *next)
            }
            Order::Close { line, handle, next } => {
                let done = self.work.save(*line, *handle);
                self.after(done, *next)
            }
            Order::Wait { line, next } => {
                let done = Err(self.work.pause(*line));
                self.after(done, *next)
            }
            Order::Print {
                line,
                format,
                args,
                next,
            } => {
                let done = self.work.show(*line, format, args);
                self.after(done, *next)
            }
            Order::PrintFile {
                line,
                handle,
                format,
                args,
                next,
            } => {
                let done = self.work.show_in(*line, *handle, format, args);
                self.after(done, *next)
            }
            Order::PrintStr {
                line,
                to,
                format,
                args,
                next,
            } => {
                let done = self.work.show_to(*line, *to, format, args);
                self.after(done, *next)
            }
            Order::Call {
                line,
                op,
                args,
                next,
            } => {
                let done = self.work.send(script, *line, *op, args);
                self.after(done, *next)
            }
        }
    }

    /// Does the order at which it stands.
    pub(crate) fn step(&mut self, script: &Script) -> Result<(), Pause>
        requires { self.old.work.waits ≡ Waits.Nothing }
        ensures { Moved (given_of script.now) script.now.orders.items self.old result self.new }
    {
        if self.steps == 0 {
            return Err(self.work.stop(Last::FuelOut));
        }
        match script.order_at(self.at) {
            None => Err(self.work.stop(Last::FuelOut)),
            Some(order) => self.obey(script, order),
        }
    }

    /// Goes on to the next question.
    pub(crate) fn go_on(&mut self, script: &Script) -> Result<Question, NoMemory>
        requires { self.old.work.waits ≡ Waits.Nothing }
        ensures { AsksOn (given_of script.now) script.now.orders.items self.old result self.new }
    {
        'moves: loop {
            match self.step(script) {
                Ok(()) => {}
                Err(Pause::Asks { q }) => return Ok(q),
                Err(Pause::NoMemory) => return Err(NoMemory),
            }
        }
    }
}
