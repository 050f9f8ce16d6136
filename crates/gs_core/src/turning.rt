// The program is asked as far as it may be.
ghost use Rattle.std.specs.Prelude.{◌≡◌, ◌+◌, ◌≤◌, ◌⊎◌, ℕ, Option, Some, None, length, IfOk, OnOk, IsSome};
ghost use Rattle.gs_types.specs.History.{History};
ghost use Rattle.gs_talk.specs.Talk.{Dialogue};
ghost use Rattle.gs_main.specs.Talking.{AwaitsAnswerTo, IsFreeAfter, KeepsGiven};
ghost use Rattle.gs_main.specs.Shown.{talking};
ghost use Rattle.gs_history.specs.Setup.{Setup};
ghost use Rattle.gs_tables.specs.Table.{mains_in, looked_in};
ghost use Rattle.gs_core.specs.Talker.{TalksAs, IsAwake};
ghost use Rattle.gs_core.specs.Stages.{IsAnswered, IsStageOf, ahead};
ghost use Rattle.gs_core.specs.Core.{Stands, Turned, Advances, SameJobs, looks_with};
ghost use Rattle.gs_core.specs.Turns.{IsDueQuestion, IsTurn, loaded_in, saved_in, taken_in};

use crate::machine::Core;
use crate::stage::{Loaded, Stage, Step};
use gs_talk::Question;
use gs_types::NoMemory;
use std::mem;

// What was read, if the step was to read it.
fn loaded_in(stage: Stage) -> Option<Loaded>
    ensures { result ≡ loaded_in stage }
{
    match stage {
        Stage::Loaded { loaded } => Some(loaded),
        _other => None,
    }
}

// How long the content is that was kept, if the step was to keep it.
fn saved_in(stage: &Stage) -> Option<u64>
    ensures { result ≡ saved_in stage.now }
{
    match stage {
        Stage::Saved { len } => Some(*len),
        _ => None,
    }
}

impl Core {
    // The question that is due, which is taken out. The only error is want of memory.
    fn due(&mut self) -> Result<Question, NoMemory>
        requires { IsAwake self.old.asked (talking self.old.main).next }
        ensures none { OnOk result (self.new.asked ≡ None) }
        ensures tables { self.new.tables ≡ self.old.tables }
        ensures queue { self.new.queue ≡ self.old.queue }
        ensures lost { self.new.lost ≡ self.old.lost }
        ensures stage { self.new.stage ≡ self.old.stage }
        ensures awaits { IfOk result (λ x. AwaitsAnswerTo x (talking self.new.main).next) }
        ensures last { IfOk result (λ x. IsFreeAfter x (talking self.new.main).next) }
        ensures kept { KeepsGiven (talking self.old.main) (talking self.new.main) }
        ensures due { (d : Dialogue) → TalksAs self.old.asked (talking self.old.main) d →
            IfOk result (λ x. IsDueQuestion self.old.asked x (talking self.new.main) d) }
    {
        match self.asked.take() {
            Some(x) => Ok(x),
            None => {
                let x = self.main.ask()?;
                Ok(x)
            }
        }
    }

    // What was looked at is kept. The only error is want of memory.
    fn take_in(&mut self) -> Result<(), NoMemory>
        ensures main { self.new.main ≡ self.old.main }
        ensures asked { self.new.asked ≡ self.old.asked }
        ensures lost { self.new.lost ≡ self.old.lost }
        ensures queue { self.new.queue ≡ self.old.queue }
        ensures stage { OnOk result (self.new.stage ≡ taken_in self.old.stage) }
        ensures mains { mains_in self.new.tables ≡ mains_in self.old.tables }
        ensures looks { OnOk result (looked_in self.new.tables
            ≡ looks_with self.old.stage (looked_in self.old.tables)) }
        ensures stands { (s : Setup) (k : ℕ) (h : History) → self.old.lost ≡ None →
            Stands self.old s k h → OnOk result (Stands self.new s k h) }
    {
        match mem::replace(&mut self.stage, Stage::Open) {
            Stage::Looked { name, seen } => {
                self.tables.look(name, seen)?;
                Ok(())
            }
            other => {
                self.stage = other;
                Ok(())
            }
        }
    }

    // Answers the next question, or finds what it needs from the disk, or settles. The only error
    // is want of memory.
    fn turn(&mut self) -> Result<Option<Step>, NoMemory>
        requires { IsAwake self.old.asked (talking self.old.main).next }
        ensures turn { IfOk result (IsTurn self.old.stage self.old self.new) }
        ensures turned { (s : Setup) (k : ℕ) (h : History) → self.old.lost ≡ None →
            IsAnswered self.old.stage → Stands self.old s k h →
            IfOk result (Turned self.new s k h) }
    {
        let x = self.due()?;
        let stage = mem::replace(&mut self.stage, Stage::Open);
        match x {
            Question::Call { op, line, args } => self.call(op, line, args),
            Question::Use { n, place } => self.use_value(n, place),
            Question::OpenFile { name, mode, line } => match loaded_in(stage) {
                Some(loaded) => self.opened(name, loaded),
                None => self.opening(name, mode, line),
            },
            Question::CloseFile { name, bytes } => match saved_in(&stage) {
                Some(len) => self.closed(name, len),
                None => self.closing(name, bytes),
            },
            Question::Barrier => self.barrier(),
            Question::End => Ok(self.settle(Question::End)),
            Question::Fault { line, kind } => Ok(self.settle(Question::Fault { line, kind })),
            Question::FuelOut => Ok(self.settle(Question::FuelOut)),
        }
    }

    /// Asks and answers as far as the tasks that have finished let it, or to the next thing that is
    /// needed from the disk. The only error is want of memory, after which the core isn't used
    /// again.
    pub fn advance(&mut self) -> Result<Step, NoMemory>
        requires answered { IsAnswered self.old.stage }
        requires awake { IsAwake self.old.asked (talking self.old.main).next }
        ensures stage { IfOk result (λ x. IsStageOf x self.new.stage) }
        ensures awake { OnOk result (IsAwake self.new.asked (talking self.new.main).next) }
        ensures asked { OnOk result (IsSome self.new.asked ⊎ IsSome self.new.lost) }
        ensures mains { OnOk result (length (mains_in self.new.tables) + ahead self.new.stage
            ≤ length (mains_in self.old.tables) + ahead self.old.stage) }
        ensures jobs { OnOk result (SameJobs self.old self.new) }
        ensures advanced { (s : Setup) (k : ℕ) (h : History) → Stands self.old s k h →
            IfOk result (Advances self.old self.new s k h) }
    {
        if self.lost.is_some() {
            self.stage = Stage::Settled;
            return Ok(Step::Settled);
        }
        self.take_in()?;
        for _i in 0..u64::MAX {
            match self.turn()? {
                Some(step) => return Ok(step),
                None => {}
            }
        }
        Err(NoMemory)
    }
}
