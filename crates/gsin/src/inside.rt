// The top call over built-in operations.
ghost use Rattle.std.specs.Prelude.{◌≡◌, ◌⊎◌, ◌<◌, ◌-◌, ◌^◌, ◌++◌, ℕ, List, map, Result};
ghost use Rattle.std.specs.String.{string_bytes};
ghost use Rattle.gs_types.specs.Counts.{Rises};
ghost use Rattle.gs_types.specs.History.{History};
ghost use Rattle.gs_talk.specs.declared.question.Question.{Question};
ghost use Rattle.gs_talk.specs.Seq.{EndsIn};
ghost use Rattle.gs_life.specs.Origin.{Origin, run_of};
ghost use Rattle.gs_site.specs.Link.{IsIdle};
ghost use Rattle.gs_site.specs.Site.{disk_of, link_of};
ghost use Rattle.gs_filters.specs.Filters.{filters};
ghost use Rattle.gs_filters.specs.Inside.{IsTold, jobs_of, faults_of};
ghost use Rattle.gs_types.specs.declared.settings.Settings.{Settings};
ghost use Rattle.gs_words.specs.Usage.{IsReading};
ghost use Rattle.gs_words.specs.Words.{IsCheck, IsRun, Says};
ghost use Rattle.gs_words.specs.declared.command.Command.TheVariants as commands;
ghost use Rattle.gs_verbs.specs.Reporting.{HasStore};
ghost use Rattle.gs_verbs.specs.Cleaning.{HasGated};
ghost use Rattle.gs_verbs.specs.Planning.{HasPlan};
ghost use Rattle.gs_run.specs.Asked.{Wish, IsNoRun, IsNothing};
ghost use Rattle.gs_run.specs.Checking.{HoldsBoth};
ghost use Rattle.gs_run.specs.Did.{Did};
ghost use Rattle.gs_run.specs.Ran.{Begins, IsComplete};
ghost use Rattle.gs_run.specs.Stop.{status_of, message_of};
ghost use Rattle.gs_run.specs.declared.stop.Stop.{Stop};

use gs_disk::Disk;
use gs_filters::InsideLink;
use gs_run::gs;
use gs_site::Site;
use gs_types::Sink;
use std::alloc::Global;

/// `gs` over built-in operations, on a site with no job in flight, which it leaves with none: its
/// words, statuses, lines and promises (`did`, `complete`, `checks`, `reports`, `cleans`, `plans`),
/// under the law of the operations. Nothing is assumed of commands, nor of the link where the
/// sequential run ends (`inside`).
pub fn gs_inside<D: Disk, O: Sink, E: Sink>(
    alloc: Global,
    words: &Vec<String>,
    site: &mut Site<D, InsideLink>,
    out: &mut O,
    err: &mut E,
) -> u8
    requires idle { IsIdle (jobs_of (link_of site.old)) }
    ensures idle { IsIdle (jobs_of (link_of site.new)) }
    ensures did { (wish : Wish) × (answer : Result Unit Stop)
        × IsReading (map string_bytes words.now.items) wish × (result ≡ status_of answer)
        × Did D.tells O.tells (D.state (disk_of site.old)) (D.state (disk_of site.new)) filters
        (IsTold (link_of site.old)) (IsTold (link_of site.new))
        (faults_of (link_of site.old)) (faults_of (link_of site.new))
        (O.faults out.old) (O.faults out.new) (O.written out.old) (O.written out.new) wish answer
        × (E.tells → (Rises (E.faults err.old) (E.faults err.new) → ⊥)
        → E.written err.new ≡ E.written err.old ++ message_of answer)
        × (IsNoRun wish → link_of site.new ≡ link_of site.old)
        × (IsNothing wish → (disk_of site.new ≡ disk_of site.old) × (out.new ≡ out.old)) }

    // A run whose folder stands for it, and no fault: where results are there 0, and where it may
    // begin or go on the status of the sequential run's end; or want of memory.
    ensures complete { D.tells → (idl program workers : List ℕ) (settings : Settings)
        → IsRun (map string_bytes words.now.items) idl program workers settings
        → (o : Origin) (past : History)
        → Begins o idl program filters (IsTold (link_of site.old)) past
        (D.state (disk_of site.old))
        → (Rises (D.state (disk_of site.old)).faults (D.state (disk_of site.new)).faults → ⊥)
        → (Rises (faults_of (link_of site.old)) (faults_of (link_of site.new)) → ⊥)
        → (Rises (O.faults out.old) (O.faults out.new) → ⊥)
        → IsComplete o settings.fuel (D.state (disk_of site.old)).folder idl program workers result }

    // The same where the sequential run ends, which then loses no task, with nothing asked of the
    // link's count, but that it isn't at its greatest value.
    ensures inside { D.tells → (idl program workers : List ℕ) (settings : Settings)
        → IsRun (map string_bytes words.now.items) idl program workers settings
        → (o : Origin) (past : History)
        → Begins o idl program filters (IsTold (link_of site.old)) past
        (D.state (disk_of site.old))
        → (k : ℕ) (last : Question) → EndsIn (run_of o settings.fuel) k last
        → faults_of (link_of site.old) < 2 ^ 64 - 1
        → (Rises (D.state (disk_of site.old)).faults (D.state (disk_of site.new)).faults → ⊥)
        → (Rises (O.faults out.old) (O.faults out.new) → ⊥)
        → IsComplete o settings.fuel (D.state (disk_of site.old)).folder idl program workers result }

    // The same of a check.
    ensures checks { D.tells → (idl program : List ℕ)
        → IsCheck (map string_bytes words.now.items) idl program
        → HoldsBoth (D.state (disk_of site.old)).folder idl program
        → (Rises (D.state (disk_of site.old)).faults (D.state (disk_of site.new)).faults → ⊥)
        → (Rises (O.faults out.old) (O.faults out.new) → ⊥)
        → (result ≡ 0) ⊎ (result ≡ 12) }

    // Of a report, a removal and a plan.
    ensures reports { D.tells → Says (map string_bytes words.now.items) commands.Report
        → HasStore (D.state (disk_of site.old)).folder
        → (Rises (D.state (disk_of site.old)).faults (D.state (disk_of site.new)).faults → ⊥)
        → (Rises (O.faults out.old) (O.faults out.new) → ⊥)
        → (result ≡ 0) ⊎ (result ≡ 12) }
    ensures cleans { D.tells → Says (map string_bytes words.now.items) commands.Clean
        → (HasGated (D.state (disk_of site.old)).folder → ⊥)
        → (Rises (D.state (disk_of site.old)).faults (D.state (disk_of site.new)).faults → ⊥)
        → (result ≡ 0) ⊎ (result ≡ 12) }
    ensures plans { D.tells → (slots : ℕ) (durations : List ℕ)
        → Says (map string_bytes words.now.items) (commands.Plan slots durations)
        → HasPlan slots (D.state (disk_of site.old)).folder durations
        → (Rises (D.state (disk_of site.old)).faults (D.state (disk_of site.new)).faults → ⊥)
        → (Rises (O.faults out.old) (O.faults out.new) → ⊥)
        → (result ≡ 0) ⊎ (result ≡ 12) }
{
    gs(alloc, words, site, out, err)
}
