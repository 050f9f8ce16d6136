// The answers of the commands `report`, `clean` and `plan`.
ghost use Rattle.std.specs.Prelude.{◌≡◌};
ghost use Rattle.gs_run.specs.Verbs.{report_answer, clean_answer, plan_answer};

use crate::Stop;
use crate::kinds::TextKind;
use gs_types::Name;
use gs_verbs::{CleanStop, PlanStop, ReportStop};

pub(crate) fn reported(answer: Result<(), ReportStop>) -> Result<(), Stop>
    ensures { result ≡ report_answer answer }
{
    match answer {
        Ok(()) => Ok(()),
        Err(ReportStop::Store { bad }) => Err(Stop::BadStore { bad }),
        Err(ReportStop::Disk) => Err(Stop::Disk),
        Err(ReportStop::Sink) => Err(Stop::Sink),
        Err(ReportStop::Memory) => Err(Stop::Memory),
    }
}

pub(crate) fn cleaned(answer: Result<(), CleanStop>) -> Result<(), Stop>
    ensures { result ≡ clean_answer answer }
{
    match answer {
        Ok(()) => Ok(()),
        Err(CleanStop::Gated) => Err(Stop::Gated),
        Err(CleanStop::Disk) => Err(Stop::Disk),
        Err(CleanStop::Memory) => Err(Stop::Memory),
    }
}

/// Of a plan by the file of this name.
pub(crate) fn planned(name: &Name, answer: Result<(), PlanStop>) -> Result<(), Stop>
    ensures { result ≡ plan_answer name.now answer }
{
    match answer {
        Ok(()) => Ok(()),
        Err(PlanStop::NoText) => Err(Stop::NoText { name: name.copy() }),
        Err(PlanStop::BadText { line, kind }) => Err(Stop::BadText {
            name: name.copy(),
            line,
            kind: TextKind::Durations { kind },
        }),
        Err(PlanStop::Store { bad }) => Err(Stop::BadStore { bad }),
        Err(PlanStop::NoRun) => Err(Stop::NoRun),
        Err(PlanStop::Disk) => Err(Stop::Disk),
        Err(PlanStop::Sink) => Err(Stop::Sink),
        Err(PlanStop::Memory) => Err(Stop::Memory),
    }
}
