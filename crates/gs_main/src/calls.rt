// Task calls.
use crate::script::Script;
use crate::waits::{Pause, Waits};
use crate::work::Work;
use gs_idl::{Dir, ParamKind};
use gs_orders::Handed;
use gs_pieces::{
    Passed, ReadErr, has_twice, is_written, name_in, note_within, passed_all, text_copy, written,
};
use gs_talk::{CallArg, Question, int_of, text_of};
use gs_types::{FaultKind, Sequence, TASK_LIMIT};

impl Work {
    ghost use Rattle.std.specs.Prelude.{◌≡◌, length, map, vec_len, true, false, IfOk, Some};
    ghost use Rattle.gs_idl.specs.Interface.{Param, params_at};
    ghost use Rattle.gs_talk.specs.Talk.{file_fault, file_at, files_fault, passed_valued, arg_of};
    ghost use Rattle.gs_talk.specs.declared.question.CallArg.TheVariants as arg;
    ghost use Rattle.gs_talk.specs.Values.{text_of};
    ghost use Rattle.gs_orders.specs.Steps.{handed_of};
    ghost use Rattle.gs_pieces.specs.Places.{AreFew, arg_in, args_in, Passes, PassAll, PassesFile};
    ghost use Rattle.gs_main.specs.Meanings.{sending, sending_args};
    ghost use Rattle.gs_main.specs.Seen.{given_of, state_of, Does, Evaluated};

    // The file at a place, or what stands against it, in this order.
    fn file_arg(
        &self,
        script: &Script,
        dir: Dir,
        kind: ParamKind,
        text: &[u8],
    ) -> Result<CallArg, FaultKind>
        ensures { (p : Param) → p.dir ≡ dir → p.kind ≡ kind → PassesFile
            (file_fault (given_of script.now) (state_of self.now) p (Some text.now))
            text.now result }
    {
        let name = match name_in(text) {
            Some(name) => name,
            None => return Err(FaultKind::BadName),
        };
        if script.leaves_own(dir, kind, &name) {
            return Err(FaultKind::OwnText);
        }
        if is_written(&self.handles, &name) {
            return Err(FaultKind::FileOpen);
        }
        Ok(CallArg::File { name })
    }

    fn call_arg(
        &self,
        script: &Script,
        dir: Dir,
        kind: ParamKind,
        at: &Passed,
    ) -> Result<CallArg, ReadErr>
        ensures { (p : Param) → p.dir ≡ dir → p.kind ≡ kind → Passes
            (file_fault (given_of script.now) (state_of self.now) p (file_at (arg_in at.now)))
            (arg_in at.now) result }
    {
        match at {
            Passed::Out { kind } => Ok(match kind {
                ParamKind::File => CallArg::OutInt,
                ParamKind::Int => CallArg::OutInt,
                ParamKind::Str => CallArg::OutStr,
            }),
            Passed::Given { kind: of, v } => match of {
                ParamKind::Int => Ok(CallArg::Int { v: int_of(v) }),
                ParamKind::Str => match text_copy(self.alloc, v) {
                    Ok(s) => Ok(CallArg::Str { s }),
                    Err(_) => Err(ReadErr::NoMemory),
                },
                ParamKind::File => match self.file_arg(script, dir, kind, text_of(v)) {
                    Ok(a) => Ok(a),
                    Err(kind) => Err(ReadErr::Kind { kind }),
                },
            },
        }
    }

    // What stands at the places, or the first fault from the left.
    fn call_args(&self, script: &Script, op: u8, passed: &[Passed]) -> Result<Vec<CallArg>, ReadErr>
        requires { AreFew (length passed.now) (params_at (given_of script.now).ops op) }
        ensures { PassAll
            (files_fault (given_of script.now) (state_of self.now)
            (params_at (given_of script.now).ops op) (args_in passed.now))
            (args_in passed.now) result }
    {
        let mut all = Vec::new(self.alloc);
        for j in 0..passed.len() {
            let (dir, kind) = script.idl().param(op, j as u8);
            let a = match self.call_arg(script, dir, kind, &passed[j]) {
                Ok(a) => a,
                Err(e) => return Err(e),
            };
            match all.push(a) {
                Ok(_) => {}
                Err(_) => return Err(ReadErr::NoMemory),
            }
        }
        Ok(all)
    }

    // A call of a task, where nothing stands against what stands at its places.
    fn send_args(
        &mut self,
        script: &Script,
        line: u32,
        op: u8,
        args: &[Handed],
        passed: &[Passed],
    ) -> Result<(), Pause>
        requires { AreFew (length passed.now) (params_at (given_of script.now).ops op) }
        ensures { Does false true
            (sending_args (given_of script.now) line op
            (map handed_of args.now) (args_in passed.now))
            line (map handed_of args.now) self.old result self.new }
    {
        let vs = match self.call_args(script, op, passed) {
            Ok(vs) => vs,
            Err(ReadErr::Kind { kind }) => return Err(self.fault(line, kind)),
            Err(ReadErr::NoMemory) => return Err(Pause::NoMemory),
        };
        let outs = match written(self.alloc, script.idl(), op, &vs) {
            Ok(outs) => outs,
            Err(_) => return Err(Pause::NoMemory),
        };
        if has_twice(&outs) {
            return Err(self.fault(line, FaultKind::SameOut));
        }
        if self.tasks as usize >= TASK_LIMIT {
            return Err(self.fault(line, FaultKind::TooManyTasks));
        }
        match note_within(&mut self.names, &vs) {
            Ok(true) => {}
            Ok(false) => return Err(self.fault(line, FaultKind::TooManyNames)),
            Err(_) => return Err(Pause::NoMemory),
        }
        if !self.may_act() {
            return Err(self.fault(line, FaultKind::TooManyActions));
        }
        self.tasks += 1;
        self.actions += 1;
        self.waits = Waits::Call;
        Err(Pause::Asks {
            q: Question::Call {
                op,
                line,
                args: Sequence::of(vs),
            },
        })
    }

    fn passed(
        &mut self,
        script: &Script,
        line: u32,
        op: u8,
        args: &[Handed],
    ) -> Result<Vec<Passed>, Pause>
        ensures values { Evaluated (λ all. args_in all.items)
            (λ go s. passed_valued line (params_at (given_of script.now).ops op)
            (map handed_of args.now) s go)
            self.old result self.new }
        ensures few { IfOk result (λ all.
            AreFew (vec_len all) (params_at (given_of script.now).ops op)) }
    {
        match passed_all(self.alloc, script.idl(), op, args, &self.vars) {
            Ok(all) => Ok(all),
            Err(e) => Err(self.trouble(line, e)),
        }
    }

    pub(crate) fn send(
        &mut self,
        script: &Script,
        line: u32,
        op: u8,
        args: &[Handed],
    ) -> Result<(), Pause>
        ensures { Does true true (sending (given_of script.now) line op (map handed_of args.now))
            line (map handed_of args.now) self.old result self.new }
    {
        let passed = match self.passed(script, line, op, args) {
            Ok(passed) => passed,
            Err(pause) => return Err(pause),
        };
        self.send_args(script, line, op, args, &passed)
    }
}
