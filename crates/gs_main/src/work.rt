// What a program has done so far.
use crate::waits::{Last, Pause, Waits};
use gs_pieces::Opened;
use gs_talk::{Formula, Question, Slot, Trouble, value, values};
use gs_types::{ACTION_LIMIT, FaultKind, Name, Value};
use indexmap::IndexSet;
use std::alloc::Global;

/// The variables and handles by their places, the text, the names of files, and how many tasks were
/// called and actions asked; and what it waits for.
#[derive(Drop)]
pub(crate) struct Work {
    pub(crate) vars: Vec<Slot>,
    pub(crate) handles: Vec<Option<Opened>>,
    pub(crate) text: Vec<u8>,
    pub(crate) names: IndexSet<Name>,
    pub(crate) tasks: u32,
    pub(crate) actions: u32,
    pub(crate) waits: Waits,
    pub(crate) alloc: Global,
}

impl Work {
    ghost use Rattle.std.specs.Prelude.{◌≡◌, nat_lt, not};
    ghost use Rattle.gs_types.specs.declared.limits.TheConstants as limit;
    ghost use Rattle.gs_talk.specs.Talk.{set_to, valued, all_valued};
    ghost use Rattle.gs_talk.specs.View.{placed_of, all_placed_of};
    ghost use Rattle.gs_main.specs.Lasts.{last_question};
    ghost use Rattle.gs_main.specs.Seen.{state_of, Evaluated, Meets};

    /// It has ended.
    pub(crate) fn stop(&mut self, last: Last) -> Pause
        ensures asks { result ≡ Pause.Asks (last_question last) }
        ensures kept { self.new ≡ record self.old { waits = Waits.Ended last } }
    {
        self.waits = Waits::Ended { last };
        Pause::Asks { q: last.question() }
    }

    pub(crate) fn fault(&mut self, line: u32, kind: FaultKind) -> Pause
        ensures asks { result ≡ Pause.Asks (last_question (Last.Fault line kind)) }
        ensures kept { self.new ≡ record self.old { waits = Waits.Ended (Last.Fault line kind) } }
    {
        self.stop(Last::Fault { line, kind })
    }

    /// An action more may be asked.
    pub(crate) fn may_act(&self) -> bool
        ensures { result ≡ nat_lt self.now.actions limit.ACTION_LIMIT }
    {
        (self.actions as usize) < ACTION_LIMIT
    }

    /// A trouble of an evaluation: the fault, or a variable's value is asked for where an action
    /// may be.
    pub(crate) fn trouble(&mut self, line: u32, e: Trouble) -> Pause
        ensures { Meets line e self.old result self.new }
    {
        match e {
            Trouble::Kind { kind } => self.fault(line, kind),
            Trouble::Need { i, n, place } => {
                if !self.may_act() {
                    return self.fault(line, FaultKind::TooManyActions);
                }
                self.actions += 1;
                self.waits = Waits::Value { i };
                Pause::Asks {
                    q: Question::Use { n, place },
                }
            }
            Trouble::NoMemory => Pause::NoMemory,
        }
    }

    pub(crate) fn value(&mut self, line: u32, e: &Formula) -> Result<Value, Pause>
        ensures { Evaluated (λ v. v) (λ go s. valued line (placed_of e.now) s go)
            self.old result self.new }
    {
        match value(self.alloc, e, &self.vars) {
            Ok(v) => Ok(v),
            Err(e) => Err(self.trouble(line, e)),
        }
    }

    pub(crate) fn values(&mut self, line: u32, es: &[Formula]) -> Result<Vec<Value>, Pause>
        ensures { Evaluated (λ vs. vs.items) (λ go s. all_valued line (all_placed_of es.now) s go)
            self.old result self.new }
    {
        match values(self.alloc, es, &self.vars) {
            Ok(vs) => Ok(vs),
            Err(e) => Err(self.trouble(line, e)),
        }
    }

    /// A variable has a value from then on.
    pub(crate) fn put(&mut self, i: usize, v: Value)
        ensures state { state_of self.new ≡ set_to i v (state_of self.old) }
        ensures waits { self.new.waits ≡ self.old.waits }
    {
        if i < self.vars.len() {
            self.vars[i] = Slot::Held { v };
        }
    }
}
