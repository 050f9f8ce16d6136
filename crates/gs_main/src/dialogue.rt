// A main program that goes on from where it stands.
#![tactic(auto, unfolding(crate::specs::Shown::talking))]

use crate::begin::{first_work, names};
use crate::run::Run;
use crate::script::{Script, are_short};
use crate::waits::Waits;
use gs_check::Checked;
use gs_idl::Idl;
use gs_orders::orders_of;
use gs_pieces::notes;
use gs_talk::{Answer, Question};
use gs_types::{Name, NoMemory, VarNote};
use std::alloc::Global;

/// A main program between its questions.
#[derive(Drop)]
pub struct Main {
    script: Script,
    run: Run,
    failed: bool,
}

impl Main {
    ghost use Rattle.std.specs.Prelude.{◌≡◌, ℕ, List, [], ◌∷◌, ◌++◌, IfOk, OnOk};
    ghost use Rattle.gs_check.specs.Passing.{program_in, interface_in};
    ghost use Rattle.gs_talk.specs.declared.question.Answer as answer;
    ghost use Rattle.gs_talk.specs.Talk.{Given};
    ghost use Rattle.gs_main.specs.Talking.{first_talking, given_by, IsFree, IsAnsweredBy, AwaitsAnswerTo, IsFreeAfter, AsksNext, answered, KeepsGiven, StandsFor, TalksOn};
    ghost use Rattle.gs_pieces.specs.Notes.{notes_of};
    ghost use Rattle.gs_main.specs.Shown.{talking};

    /// A checked program at its beginning. `fuel` is how many steps it may take. The two names are
    /// those of its texts, which it may not write. The only error is want of memory.
    pub fn new(
        alloc: Global,
        checked: Checked,
        idl_name: Name,
        program_name: Name,
        fuel: u64,
    ) -> Result<Main, NoMemory>
        ensures begins { IfOk result (λ m. talking m ≡ first_talking idl_name program_name
            (interface_in checked) (program_in checked) fuel) }
        ensures stands { let t = given_by idl_name program_name (interface_in checked) (program_in checked)
            in IfOk result (λ m. StandsFor (talking m).next t fuel []) }
        ensures free { IfOk result (λ m. IsFree (talking m).next) }
    {
        let tree = checked.tree();
        let names = names(alloc, &tree.vars)?;
        let orders = orders_of(alloc, tree, checked.idl(), &names)?;
        let work = first_work(alloc, &tree.vars)?;
        if !are_short(&orders.list) {
            return Err(NoMemory);
        }
        Ok(Main {
            script: Script {
                checked,
                idl_name,
                program_name,
                orders: orders.list,
            },
            run: Run {
                at: orders.start,
                steps: fuel,
                work,
            },
            failed: false,
        })
    }

    /// The next question. After a last one, `End`, `Fault` or `FuelOut`, it is that one again. The
    /// only error is want of memory, after which every later call gives that error.
    pub fn ask(&mut self) -> Result<Question, NoMemory>
        requires { IsFree (talking self.old).next }
        ensures asks { AsksNext (talking self.old).next result (talking self.new) }
        ensures kept { KeepsGiven (talking self.old) (talking self.new) }

        // The question's answers are awaited, where it is none of the last.
        ensures awaits { IfOk result (λ q. AwaitsAnswerTo q (talking self.new).next) }
        ensures last { IfOk result (λ q. IsFreeAfter q (talking self.new).next) }

        // What it stands for decides the question, and stays.
        ensures talks { (t : Given) (fuel : ℕ) (answers : List answer.Answer) →
            StandsFor (talking self.old).next t fuel answers →
            IfOk result (λ q. TalksOn t fuel answers q (talking self.new)) }
        ensures stands { (t : Given) (fuel : ℕ) (answers : List answer.Answer) →
            StandsFor (talking self.old).next t fuel answers →
            OnOk result (StandsFor (talking self.new).next t fuel answers) }
    {
        self.asked()
    }

    fn asked(&mut self) -> Result<Question, NoMemory>
        requires { IsFree (talking self.old).next }
        ensures asks { AsksNext (talking self.old).next result (talking self.new) }
        ensures kept { KeepsGiven (talking self.old) (talking self.new) }
    {
        if self.failed {
            return Err(NoMemory);
        }
        match self.run.work.waits {
            Waits::Ended { last } => Ok(last.question()),
            Waits::Nothing => match self.run.go_on(&self.script) {
                Ok(q) => Ok(q),
                Err(e) => {
                    self.failed = true;
                    Err(e)
                }
            },
            _ => {
                self.failed = true;
                Err(NoMemory)
            }
        }
    }

    /// Takes the answer to the last question. It takes no memory.
    pub fn answer(&mut self, a: Answer)
        requires { IsAnsweredBy (talking self.old).next a }
        ensures goes { (talking self.new).next ≡ answered (talking self.old).next a }
        ensures free { IsFree (talking self.new).next }
        ensures kept { KeepsGiven (talking self.old) (talking self.new) }
        ensures stands { (t : Given) (fuel : ℕ) (answers : List answer.Answer) →
            StandsFor (talking self.old).next t fuel answers →
            StandsFor (talking self.new).next t fuel (answers ++ a ∷ []) }
    {
        self.run.answer(&self.script, a);
    }

    /// The text that was printed so far.
    pub fn text(&self) -> &[u8]
        ensures { result.now ≡ (talking self.now).state.text }
    {
        self.run.work.text.as_slice()
    }

    /// The int and string variables with what they hold so far, in the order of declaration. A
    /// variable that waits for a task is left out; none does after `End`. The only error is want of
    /// memory.
    pub fn vars(&self, alloc: Global) -> Result<Vec<VarNote>, NoMemory>
        ensures { IfOk result (λ notes. notes.items
            ≡ notes_of (talking self.now).given.program.vars (talking self.now).state.vars) }
    {
        notes(alloc, &self.script.checked.tree().vars, &self.run.work.vars)
    }

    /// The operations that it may call.
    pub fn idl(&self) -> &Idl
        ensures { result.now ≡ (talking self.now).interface }
    {
        self.script.checked.idl()
    }
}
