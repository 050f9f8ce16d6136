// What comes of a question.
ghost use Rattle.std.specs.Prelude.{◌≡◌, ℕ, Option, Some, None, [], IfOk};
ghost use Rattle.gs_types.specs.History.{History};
ghost use Rattle.gs_tree.specs.declared.tree.Mode as mode;
ghost use Rattle.gs_talk.specs.declared.question.Question as question;
ghost use Rattle.gs_talk.specs.declared.question.Question.TheVariants as q;
ghost use Rattle.gs_talk.specs.declared.question.Answer as answer;
ghost use Rattle.gs_talk.specs.declared.question.Answer.TheVariants as said;
ghost use Rattle.gs_talk.specs.Talk.{Dialogue};
ghost use Rattle.gs_main.specs.Talking.{IsAnsweredBy, AwaitsAnswerTo, IsFreeAfter, Asked, FitsWanted, Fits, a_content, wanted};
ghost use Rattle.gs_main.specs.Shown.{talking};
ghost use Rattle.gs_history.specs.Setup.{Setup, rest_at, world_at};
ghost use Rattle.gs_history.specs.Frontier.{MayGoOn, IsFrontier};
ghost use Rattle.gs_tables.specs.Asked.{value_of};
ghost use Rattle.gs_core.specs.declared.stage.Stage as stages;
ghost use Rattle.gs_core.specs.declared.stage.Stage.TheVariants as stage;
ghost use Rattle.gs_core.specs.Talker.{IsLike};
ghost use Rattle.gs_talk.specs.Seq as seq;
ghost use Rattle.gs_core.specs.Stages.{LoadedOf, LengthOf, IsLoaded};
ghost use Rattle.gs_core.specs.Core.{Stands, Turned, NotClosing};
ghost use Rattle.gs_core.specs.Turns.{Asks, Turning, Answering, IsTurn, IsDueQuestion, loaded_in, saved_in, loaded_answer};

use crate::listing::list_called;
use crate::losing::{Lost, workers_lost};
use crate::machine::Core;
use crate::stage::{Loaded, Stage, Step};
use gs_tables::{Called, Scalar};
use gs_talk::{Answer, CallArg, Question};
use gs_tree::Mode;
use gs_types::{Blob, FILE_LIMIT, Name, NoMemory, Sequence, Value};

// A number or a string, as an answer.
fn scalar_answer(v: Scalar) -> Answer
    ensures is { result ≡ said.Val (value_of v) }
{
    match v {
        Scalar::Int { v } => Answer::Val {
            v: Value::Int { v },
        },
        Scalar::Str { s } => Answer::Val {
            v: Value::Str { s },
        },
    }
}

// What was read, as an answer.
fn content_answer(loaded: Loaded) -> Answer
    ensures fits { Fits a_content result }
    ensures is { (c : Option seq.Content) → IsLoaded c loaded → result ≡ loaded_answer loaded }
{
    match loaded {
        Loaded::Absent => Answer::Absent,
        Loaded::TooLong => Answer::TooLong,
        Loaded::Bytes { bytes } => {
            if bytes.bytes().len() > FILE_LIMIT {
                return Answer::TooLong;
            }
            Answer::Bytes { bytes }
        }
    }
}

impl Core {
    // The question has this answer, and the tables stand for it.
    pub(crate) fn answer(&mut self, a: Answer) -> Result<Option<Step>, NoMemory>
        requires awaited { IsAnsweredBy (talking self.old.main).next a }
        requires none { self.old.asked ≡ None }
        requires opened { self.old.stage ≡ stage.Open }
        ensures turn { (g : stages.Stage) → IfOk result (IsTurn g self.old self.new) }
        ensures goes { IfOk result (λ x. x ≡ None) }
        ensures turned { (s : Setup) (k : ℕ) (h : History) (next : answer.Answer → Dialogue) →
            Answering self.old s k h next a → IfOk result (Turned self.new s k h) }
    {
        list_called(&mut self.queue, &self.tables)?;
        self.main.answer(a);
        self.tables.forget();
        Ok(None)
    }

    // The program can't go on: what is lost is looked for.
    pub(crate) fn settle(&mut self, asked: Question) -> Option<Step>
        requires awaits { AwaitsAnswerTo asked (talking self.old.main).next }
        requires last { IsFreeAfter asked (talking self.old.main).next }
        ensures turn { (g : stages.Stage) → IsTurn g self.old self.new result }
        ensures turned { (s : Setup) (k : ℕ) (h : History) → Turning self.old s k h →
            Asks self.old asked (rest_at s k) → NotClosing (Some asked) → IsFrontier s h k →
            Turned self.new s k h result }
    {
        self.asked = Some(asked);
        self.lost = workers_lost(self.queue.no_worker());
        self.stage = Stage::Settled;
        Some(Step::Settled)
    }

    // The program calls an operation.
    pub(crate) fn call(
        &mut self,
        op: u8,
        line: u32,
        args: Sequence<CallArg>,
    ) -> Result<Option<Step>, NoMemory>
        requires awaits { AwaitsAnswerTo (q.Call op line args) (talking self.old.main).next }
        requires none { self.old.asked ≡ None }
        requires opened { self.old.stage ≡ stage.Open }
        ensures turn { (g : stages.Stage) → IfOk result (IsTurn g self.old self.new) }
        ensures turned { (s : Setup) (k : ℕ) (h : History) → Turning self.old s k h →
            Asks self.old (q.Call op line args) (rest_at s k) →
            IfOk result (Turned self.new s k h) }
    {
        match self.tables.call(self.main.idl(), op, args)? {
            Called::Went => self.answer(Answer::Went),
            Called::Absent => self.answer(Answer::Absent),
            Called::TooLong => self.answer(Answer::TooLong),
            Called::Waits { args } => Ok(self.settle(Question::Call { op, line, args })),
            Called::Looks { name, args } => {
                self.asked = Some(Question::Call { op, line, args });
                self.stage = Stage::Looking { name: name.copy() };
                Ok(Some(Step::Look { name }))
            }
            Called::Misfits { index, args } => {
                self.asked = Some(Question::Call { op, line, args });
                self.lost = Some(Lost::Misfit { index });
                self.stage = Stage::Settled;
                Ok(Some(Step::Settled))
            }
        }
    }

    // The program uses what a task gave.
    pub(crate) fn use_value(&mut self, n: u32, place: u8) -> Result<Option<Step>, NoMemory>
        requires awaits { AwaitsAnswerTo (q.Use n place) (talking self.old.main).next }
        requires none { self.old.asked ≡ None }
        requires opened { self.old.stage ≡ stage.Open }
        ensures turn { (g : stages.Stage) → IfOk result (IsTurn g self.old self.new) }
        ensures turned { (s : Setup) (k : ℕ) (h : History) → Turning self.old s k h →
            Asks self.old (q.Use n place) (rest_at s k) → IfOk result (Turned self.new s k h) }
    {
        match self.tables.value(n, place)? {
            None => Ok(self.settle(Question::Use { n, place })),
            Some(v) => self.answer(scalar_answer(v)),
        }
    }

    // The program waits for all tasks.
    pub(crate) fn barrier(&mut self) -> Result<Option<Step>, NoMemory>
        requires awaits { AwaitsAnswerTo q.Barrier (talking self.old.main).next }
        requires none { self.old.asked ≡ None }
        requires opened { self.old.stage ≡ stage.Open }
        ensures turn { (g : stages.Stage) → IfOk result (IsTurn g self.old self.new) }
        ensures turned { (s : Setup) (k : ℕ) (h : History) → Turning self.old s k h →
            Asks self.old q.Barrier (rest_at s k) → IfOk result (Turned self.new s k h) }
    {
        if self.tables.barrier()? {
            return self.answer(Answer::Went);
        }
        Ok(self.settle(Question::Barrier))
    }

    // The program opens a file, which was not read yet.
    pub(crate) fn opening(
        &mut self,
        name: Name,
        mode: Mode,
        line: u32,
    ) -> Result<Option<Step>, NoMemory>
        requires awaits { AwaitsAnswerTo (q.OpenFile name mode line) (talking self.old.main).next }
        requires none { self.old.asked ≡ None }
        requires opened { self.old.stage ≡ stage.Open }
        ensures turn { (g : stages.Stage) → loaded_in g ≡ None →
            IfOk result (IsTurn g self.old self.new) }
        ensures turned { (s : Setup) (k : ℕ) (h : History) → Turning self.old s k h →
            Asks self.old (q.OpenFile name mode line) (rest_at s k) →
            IfOk result (Turned self.new s k h) }
    {
        match self.tables.opening(&name) {
            None => Ok(self.settle(Question::OpenFile { name, mode, line })),
            Some((version, kept)) => {
                self.asked = Some(Question::OpenFile { name, mode, line });
                self.stage = Stage::Loading;
                Ok(Some(Step::Load { version, kept }))
            }
        }
    }

    // The program opens a file, of which this was read.
    pub(crate) fn opened(&mut self, name: Name, loaded: Loaded) -> Result<Option<Step>, NoMemory>
        requires awaits { (m : mode.Mode) (line : ℕ) →
            AwaitsAnswerTo (q.OpenFile name m line) (talking self.old.main).next }
        requires none { self.old.asked ≡ None }
        requires opened { self.old.stage ≡ stage.Open }
        ensures turn { (g : stages.Stage) → IfOk result (IsTurn g self.old self.new) }
        ensures turned { (s : Setup) (k : ℕ) (h : History) (m : mode.Mode) (line : ℕ) →
            Turning self.old s k h → Asks self.old (q.OpenFile name m line) (rest_at s k) →
            MayGoOn s h k (rest_at s k) → LoadedOf (world_at s k).files loaded (rest_at s k) →
            IfOk result (Turned self.new s k h) }
    {
        self.tables.opened(&name)?;
        self.answer(content_answer(loaded))
    }

    // The program closes a file that it wrote, whose content is to be kept first.
    pub(crate) fn closing(&mut self, name: Name, bytes: Blob) -> Result<Option<Step>, NoMemory>
        requires awaits { AwaitsAnswerTo (q.CloseFile name bytes) (talking self.old.main).next }
        requires none { self.old.asked ≡ None }
        requires opened { self.old.stage ≡ stage.Open }
        ensures turn { (g : stages.Stage) → saved_in g ≡ None →
            IfOk result (IsTurn g self.old self.new) }
        ensures turned { (s : Setup) (k : ℕ) (h : History) → Turning self.old s k h →
            Asks self.old (q.CloseFile name bytes) (rest_at s k) →
            IfOk result (Turned self.new s k h) }
    {
        let Some(k) = self.tables.next_main() else {
            return Err(NoMemory);
        };
        self.stage = Stage::Saving {
            len: bytes.bytes().len() as u64,
        };
        self.asked = Some(Question::CloseFile {
            name,
            bytes: Blob::of(Vec::new(self.alloc)),
        });
        Ok(Some(Step::Save { k, bytes }))
    }

    // The program closes a file that it wrote, whose content is kept and has this length in bytes.
    pub(crate) fn closed(&mut self, name: Name, len: u64) -> Result<Option<Step>, NoMemory>
        requires awaits { AwaitsAnswerTo (q.CloseFile name []) (talking self.old.main).next }
        requires none { self.old.asked ≡ None }
        requires opened { self.old.stage ≡ stage.Open }
        ensures turn { (g : stages.Stage) → saved_in g ≡ Some len →
            IfOk result (IsTurn g self.old self.new) }
        ensures turned { (s : Setup) (k : ℕ) (h : History) (x : question.Question) →
            Turning self.old s k h → IsLike (q.CloseFile name []) x →
            Asks self.old x (rest_at s k) →
            LengthOf len (rest_at s k) → IfOk result (Turned self.new s k h) }
    {
        self.tables.closed(&name, len)?;
        self.answer(Answer::Went)
    }
}
