//! Laws of `audit`, `run` and `trace` of a folder, and of the runs of booted systems.

ghost use Rattle.cmd_folder.specs.BootedLaw.{BootedLaw};
ghost use Rattle.cmd_folder.specs.FolderLaw.{FolderLaw};

/// Segments boot one system. Turns that execute no ABSA and no LDBR are the same in each run,
/// however many pageable frames there are.
pub fn law_booted()
    ensures { BootedLaw }
{}

/// `audit` has one text over the same files. `run` and `trace` have one text up to the first ABSA
/// or LDBR. The program of a run is exactly the booted runs. Which findings a call puts is decided
/// by the conditions of the audit. Some call ends, if some run finishes.
pub fn law_folder()
    ensures { FolderLaw }
{}
