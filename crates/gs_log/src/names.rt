// The files of the log.
ghost use Rattle.std.specs.Prelude.{◌≡◌};
ghost use Rattle.gs_log.specs.Names.{log_name, mark_name};

use gs_disk::DiskName;

/// The file that the log is in.
#[tactic(auto, unfolding(crate::specs::Names::log_name))]
pub fn log_file() -> DiskName
    ensures { result ≡ log_name }
{
    DiskName::of(b".gs.log")
}

/// The file that marks that the log counts. Its bytes are never read.
#[tactic(auto, unfolding(crate::specs::Names::mark_name))]
pub fn mark_file() -> DiskName
    ensures { result ≡ mark_name }
{
    DiskName::of(b".gs.on")
}
