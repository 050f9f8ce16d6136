// The top call.
ghost use Rattle.std.specs.Prelude.{◌≡◌, ◌⊎◌, ◌++◌, ℕ, List, map, Result};
ghost use Rattle.std.specs.String.{string_bytes};
ghost use Rattle.gs_types.specs.Counts.{Rises};
ghost use Rattle.gs_types.specs.History.{History};
ghost use Rattle.gs_life.specs.Origin.{Origin};
ghost use Rattle.gs_site.specs.Link.{IsIdle};
ghost use Rattle.gs_site.specs.Site.{disk_of, link_of};
ghost use Rattle.gs_types.specs.declared.settings.Settings.{Settings};
ghost use Rattle.gs_words.specs.Usage.{IsReading};
ghost use Rattle.gs_words.specs.Words.{IsRun, IsCheck, Says};
ghost use Rattle.gs_words.specs.declared.command.Command.TheVariants as commands;
ghost use Rattle.gs_verbs.specs.Reporting.{HasStore};
ghost use Rattle.gs_verbs.specs.Cleaning.{HasGated};
ghost use Rattle.gs_verbs.specs.Planning.{HasPlan};
ghost use Rattle.gs_run.specs.Asked.{Wish, HasSlots, IsNoRun, IsNothing};
ghost use Rattle.gs_run.specs.Checking.{HoldsBoth};
ghost use Rattle.gs_run.specs.Did.{Did};
ghost use Rattle.gs_run.specs.Ran.{Begins, IsComplete};
ghost use Rattle.gs_run.specs.Stop.{status_of, message_of};
ghost use Rattle.gs_run.specs.declared.stop.Stop.{Stop};

use crate::Stop;
use crate::checking::check_texts;
use crate::names::{CheckWords, Words};
use crate::running::run_texts;
use crate::verbs::{cleaned, planned, reported};
use gs_disk::Disk;
use gs_site::{Link, Site};
use gs_types::Sink;
use gs_words::{Command, Usage, read};
use std::alloc::Global;

/// Does what is wished for.
fn serve<D: Disk, K: Link, O: Sink>(
    alloc: Global,
    command: Result<Command, Usage>,
    site: &mut Site<D, K>,
    out: &mut O,
) -> Result<(), Stop>
    requires idle { IsIdle (K.jobs (link_of site.old)) }
    requires slots { HasSlots command }
    ensures idle { IsIdle (K.jobs (link_of site.new)) }
    ensures did { Did D.tells O.tells (D.state (disk_of site.old)) (D.state (disk_of site.new))
        (K.L.meaning (K.law (link_of site.old)))
        (K.tells (link_of site.old)) (K.tells (link_of site.new))
        (K.faults (link_of site.old)) (K.faults (link_of site.new))
        (O.faults out.old) (O.faults out.new) (O.written out.old) (O.written out.new)
        command result }
    ensures link { IsNoRun command → link_of site.new ≡ link_of site.old }
    ensures refused { IsNothing command
        → (disk_of site.new ≡ disk_of site.old) × (out.new ≡ out.old) }
{
    match command {
        Ok(
            Command::Run {
                idl,
                program,
                workers,
                settings,
            },
        ) => {
            let words = Words {
                idl,
                program,
                workers,
                settings,
            };
            run_texts(alloc, &words, site, out)
        }
        Ok(Command::Check { idl, program }) => {
            check_texts(alloc, site.disk(), &CheckWords { idl, program }, out)
        }
        Ok(Command::Report) => reported(gs_verbs::report(alloc, site.disk(), out)),
        Ok(Command::Clean) => cleaned(gs_verbs::clean(alloc, site.disk())),
        Ok(Command::Plan { slots, durations }) => planned(
            &durations,
            gs_verbs::plan(alloc, site.disk(), slots, &durations, out),
        ),
        Ok(Command::SelfRun { .. }) => Err(Stop::Usage { word: 0 }),
        Err(Usage { word }) => Err(Stop::Usage { word }),
    }
}

/// The status, with its line on `err`.
fn report<E: Sink>(answer: Result<(), Stop>, err: &mut E) -> u8
    ensures status { result ≡ status_of answer }
    ensures line { E.tells → (Rises (E.faults err.old) (E.faults err.new) → ⊥)
        → E.written err.new ≡ E.written err.old ++ message_of answer }
{
    match answer {
        Ok(()) => 0,
        Err(stop) => {
            let _ = stop.tell(err);
            stop.status()
        }
    }
}

/// Serves the words of a command on a site with no job in flight, and leaves none: `run IDL PROGRAM
/// WORKERS` with its options, `check IDL PROGRAM`, `report`, `clean`, and `plan SLOTS DURATIONS`.
/// Gives the exit status: 0 where all was done; 2 where the words say none of these; 3 where a text
/// is absent; 4 where one goes wrong, or an operation that is called has no worker; 5 where the
/// folder's store is of a run of other texts; 6 where it is none, or can't be used; 7 where the
/// program met a fault; 8 where its fuel ran out; 9 where a task failed too often, or each worker
/// that takes it; 10 where the disk failed; 11 where the output failed; 12 where memory was wanting;
/// 13 where the store to be removed holds results that may not be in the user's files; 15 where no
/// run has ended that could be planned. At each status but 0 it writes the status's line to `err`.
/// To `out` goes what the program has printed, once its files are written; or what `check` prints:
/// the interface, and then the program; or the report, or the plan.
///
/// A run keeps a record in the folder. One that stopped, at any moment, goes on where it was called
/// again with the same texts: from a folder without a record, a call that answers 0 has left the
/// files of the sequential run and written its text, and no task that was recorded is started again.
pub fn gs<D: Disk, K: Link, O: Sink, E: Sink>(
    alloc: Global,
    words: &Vec<String>,
    site: &mut Site<D, K>,
    out: &mut O,
    err: &mut E,
) -> u8
    requires idle { IsIdle (K.jobs (link_of site.old)) }
    ensures idle { IsIdle (K.jobs (link_of site.new)) }
    ensures did { (wish : Wish) × (answer : Result Unit Stop)
        × IsReading (map string_bytes words.now.items) wish × (result ≡ status_of answer)
        × Did D.tells O.tells (D.state (disk_of site.old)) (D.state (disk_of site.new))
        (K.L.meaning (K.law (link_of site.old)))
        (K.tells (link_of site.old)) (K.tells (link_of site.new))
        (K.faults (link_of site.old)) (K.faults (link_of site.new))
        (O.faults out.old) (O.faults out.new) (O.written out.old) (O.written out.new) wish answer
        × (E.tells → (Rises (E.faults err.old) (E.faults err.new) → ⊥)
        → E.written err.new ≡ E.written err.old ++ message_of answer)
        × (IsNoRun wish → link_of site.new ≡ link_of site.old)
        × (IsNothing wish → (disk_of site.new ≡ disk_of site.old) × (out.new ≡ out.old)) }

    // A run whose folder stands for it, and no fault: where results are there 0, and where it may
    // begin or go on the status of the sequential run's end; or want of memory.
    ensures complete { D.tells → (idl program workers : List ℕ) (settings : Settings)
        → IsRun (map string_bytes words.now.items) idl program workers settings
        → (o : Origin) (past : History)
        → Begins o idl program (K.L.meaning (K.law (link_of site.old))) (K.tells (link_of site.old))
        past (D.state (disk_of site.old))
        → (Rises (D.state (disk_of site.old)).faults (D.state (disk_of site.new)).faults → ⊥)
        → (Rises (K.faults (link_of site.old)) (K.faults (link_of site.new)) → ⊥)
        → (Rises (O.faults out.old) (O.faults out.new) → ⊥)
        → IsComplete o settings.fuel (D.state (disk_of site.old)).folder idl program workers result }

    // The same of a check.
    ensures checks { D.tells → (idl program : List ℕ)
        → IsCheck (map string_bytes words.now.items) idl program
        → HoldsBoth (D.state (disk_of site.old)).folder idl program
        → (Rises (D.state (disk_of site.old)).faults (D.state (disk_of site.new)).faults → ⊥)
        → (Rises (O.faults out.old) (O.faults out.new) → ⊥)
        → (result ≡ 0) ⊎ (result ≡ 12) }

    // Of a report, where the folder has a store.
    ensures reports { D.tells → Says (map string_bytes words.now.items) commands.Report
        → HasStore (D.state (disk_of site.old)).folder
        → (Rises (D.state (disk_of site.old)).faults (D.state (disk_of site.new)).faults → ⊥)
        → (Rises (O.faults out.old) (O.faults out.new) → ⊥)
        → (result ≡ 0) ⊎ (result ≡ 12) }

    // Of a removal, where the folder has no store whose results may not be handed over yet.
    ensures cleans { D.tells → Says (map string_bytes words.now.items) commands.Clean
        → (HasGated (D.state (disk_of site.old)).folder → ⊥)
        → (Rises (D.state (disk_of site.old)).faults (D.state (disk_of site.new)).faults → ⊥)
        → (result ≡ 0) ⊎ (result ≡ 12) }

    // Of a plan, where the run of the folder's store has one.
    ensures plans { D.tells → (slots : ℕ) (durations : List ℕ)
        → Says (map string_bytes words.now.items) (commands.Plan slots durations)
        → HasPlan slots (D.state (disk_of site.old)).folder durations
        → (Rises (D.state (disk_of site.old)).faults (D.state (disk_of site.new)).faults → ⊥)
        → (Rises (O.faults out.old) (O.faults out.new) → ⊥)
        → (result ≡ 0) ⊎ (result ≡ 12) }
{
    let command = read(words);
    let answer = serve(alloc, command, site, out);
    report(answer, err)
}
